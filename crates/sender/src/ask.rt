// The next frame of a transfer: 23, 16, 26 (02, E2).
ghost use Rattle.std.specs.Prelude.{◌≡◌, true, length};
ghost use Rattle.sender_bytes.specs.Places.{record_length};
ghost use Rattle.sender_bytes.specs.Layout.{sender_at};
ghost use Rattle.sender.specs.Transfers.{ready_in};
ghost use Rattle.sender.specs.Calls.{decided_in, asks, given_in, ask_in};

use super::announce::key_in;
use super::apply::apply;
use super::ready::is_in_bounds;
use super::search::{find_key, held_in};
use super::send::{quiet, send};
use super::{FRAME_BYTES, Sent};
use frame::refusal::Refusal;
use frame::{Address, SessionNumber};
use sender_bytes::places::{LAST_AT, RECORD_BYTES};
use transfer::{Reply, next};
use transport::Key;
use words::word_at;

// The transfer of the key is found, it decides, and its change is applied.
#[tactic(auto, using(crate::specs::Facts::state_ok_lem, transfer::specs::Kept::next_fits))]
fn asked(buffer: &mut [u8; RECORD_BYTES], key: Key, len: usize) -> Reply
    requires { ready_in buffer.old ≡ true }
    ensures { (result, buffer.new) ≡ decided_in buffer.old (asks (sender_at buffer.old) key len) }
{
    let f = find_key(buffer, key);
    let x = held_in(buffer, f);
    let step = next::ask(x, len, word_at(buffer, LAST_AT));
    apply(buffer, f, step)
}

// The same, with the frame laid into out.
#[tactic(auto, using(crate::specs::Facts::ask_sendable, crate::specs::Facts::state_ok_lem))]
fn ask_ready(buffer: &mut [u8; RECORD_BYTES], key: Key, message: &[u8], out: &mut [u8]) -> Sent
    requires { (length out.old ≡ 64) × (ready_in buffer.old ≡ true) }
    ensures { (result, (buffer.new, out.new))
        ≡ given_in buffer.old key message.now out.old (asks (sender_at buffer.old) key (length message.now)) }
{
    let reply = asked(buffer, key, message.len());
    send(out, key, message, reply)
}

// Asked for the next frame of the transfer to the destination under the session number, with its message lent: a data frame or an EOMS is
// laid into out, or nothing is due.
#[tactic(auto, unfolding(crate::specs::Calls::ask_in, crate::specs::Transfers::ready_in))]
pub fn next_frame(
    buffer: &mut [u8],
    da: Address,
    session: SessionNumber,
    message: &[u8],
    out: &mut [u8],
) -> Sent
    ensures { (result, (buffer.new, out.new)) ≡ ask_in buffer.old da session message.now out.old }
{
    let Some(record) = buffer.as_mut_array::<RECORD_BYTES>() else {
        return quiet(Reply::Refused(Refusal::OutOfBounds));
    };
    if !is_in_bounds(record) || out.len() != FRAME_BYTES {
        return quiet(Reply::Refused(Refusal::OutOfBounds));
    }
    ask_ready(record, key_in(record, da, session), message, out)
}
