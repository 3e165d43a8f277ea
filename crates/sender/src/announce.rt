// A message announced: 23, then 3, 8, 26, 14, 25 (02, E2).
ghost use Rattle.std.specs.Prelude.{◌≡◌, length};
ghost use Rattle.sender_bytes.specs.Places.{record_length};
ghost use Rattle.sender_bytes.specs.Layout.{sender_at};
ghost use Rattle.sender.specs.Calls.{key_in, announces, decided_in, given_in, announce_in};

use super::apply::apply;
use super::ready::is_in_bounds;
use super::search::{slot_for, state_in};
use super::send::{quiet, send_announcement};
use super::{FRAME_BYTES, Sent};
use frame::refusal::Refusal;
use frame::{Address, SessionNumber};
use sender_bytes::places::{LAST_AT, OWN_AT, RECORD_BYTES};
use transfer::{Reply, announce};
use transport::Key;
use words::word_at;

// The key of a transfer: from the own address.
pub fn key_in(buffer: &[u8; RECORD_BYTES], da: Address, session: SessionNumber) -> Key
    ensures { result ≡ key_in buffer.now da session }
{
    Key {
        sa: Address(buffer[OWN_AT]),
        da,
        session,
    }
}

// The transfer for the key is found, it decides, and its change is applied.
fn announced(buffer: &mut [u8; RECORD_BYTES], key: Key, pgn: u32, len: usize) -> Reply
    ensures { (result, buffer.new) ≡ decided_in buffer.old (announces (sender_at buffer.old) key pgn len) }
{
    let f = slot_for(buffer, key);
    let x = state_in(buffer, f);
    let step = announce::announce(x, f.is_some(), key, pgn, len, word_at(buffer, LAST_AT));
    apply(buffer, f, step)
}

// The same, with the frame laid into out.
#[tactic(auto, using(crate::specs::Facts::announce_announces))]
fn announce_ready(
    buffer: &mut [u8; RECORD_BYTES],
    key: Key,
    pgn: u32,
    message: &[u8],
    out: &mut [u8],
) -> Sent
    requires { length out.old ≡ 64 }
    ensures { (result, (buffer.new, out.new))
        ≡ given_in buffer.old key message.now out.old (announces (sender_at buffer.old) key pgn (length message.now)) }
{
    let reply = announced(buffer, key, pgn, message.len());
    send_announcement(out, reply)
}

// Announces the message under the destination and the session number: the RTS or BAM is laid into out, with the bytes after it as they were.
#[tactic(auto, unfolding(crate::specs::Calls::announce_in, crate::specs::Transfers::ready_in))]
pub fn announce(
    buffer: &mut [u8],
    da: Address,
    session: SessionNumber,
    pgn: u32,
    message: &[u8],
    out: &mut [u8],
) -> Sent
    ensures { (result, (buffer.new, out.new)) ≡ announce_in buffer.old da session pgn message.now out.old }
{
    let Some(record) = buffer.as_mut_array::<RECORD_BYTES>() else {
        return quiet(Reply::Refused(Refusal::OutOfBounds));
    };
    if !is_in_bounds(record) || out.len() != FRAME_BYTES {
        return quiet(Reply::Refused(Refusal::OutOfBounds));
    }
    announce_ready(record, key_in(record, da, session), pgn, message, out)
}
