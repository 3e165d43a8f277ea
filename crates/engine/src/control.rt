// Control frames over the record's bytes: the slot of the key is found, its session decides, and its step is applied (01, "Announcement"
// and "End").
ghost use Rattle.std.specs.Prelude.{◌≡◌, length};
ghost use Rattle.receiver.specs.Calls.{slot_of, announce_step, status_step, abort_step, control_step};
ghost use Rattle.record_bytes.specs.Layout.{record_at};
ghost use Rattle.record_bytes.specs.Places.{record_length};
ghost use Rattle.engine.specs.InBytes.{Holds, stepped_in};

use super::apply::apply;
use answer::Answer;
use frame::judge::Route;
use lent_record::search::{slot_for, state_in};
use record_bytes::places::{LAST_AT, RECORD_BYTES};
use session::{announcement, end};
use transport::Key;
use transport::announcement::Announcement;
use transport::control::{Control, read_control};
use transport::eoms::Status;
use transport::head::key_of;
use words::word_at;

// The slot's number, for the place of a message's bytes.
fn slot_of(f: Option<usize>) -> usize
    ensures { result ≡ slot_of f }
{
    match f {
        Some(i) => i,
        None => 0,
    }
}

// An RTS or a BAM of the key; a session that it opens is marked with the last reading.
fn announce(buffer: &mut [u8; RECORD_BYTES], k: Key, a: Announcement) -> Answer
    requires { Holds buffer.old }
    ensures { (result, buffer.new) ≡ stepped_in buffer.old (announce_step (record_at buffer.old) k a) }
{
    let f = slot_for(buffer, k);
    let x = state_in(buffer, f);
    let step = announcement::announce(x, f.is_some(), k, a, word_at(buffer, LAST_AT));
    apply(buffer, f, step)
}

// An EOMS of the key; a session that asks for missing segments is marked with the last reading.
fn status(buffer: &mut [u8; RECORD_BYTES], k: Key, st: Status) -> Answer
    requires { Holds buffer.old }
    ensures { (result, buffer.new) ≡ stepped_in buffer.old (status_step (record_at buffer.old) k st) }
{
    let f = slot_for(buffer, k);
    let x = state_in(buffer, f);
    let step = end::status(x, slot_of(f), st, word_at(buffer, LAST_AT));
    apply(buffer, f, step)
}

// An originator's Abort of the key.
fn abort(buffer: &mut [u8; RECORD_BYTES], k: Key, pgn: u32) -> Answer
    requires { Holds buffer.old }
    ensures { (result, buffer.new) ≡ stepped_in buffer.old (abort_step (record_at buffer.old) k pgn) }
{
    let f = slot_for(buffer, k);
    let x = state_in(buffer, f);
    let step = end::abort(x, pgn);
    apply(buffer, f, step)
}

pub fn control(buffer: &mut [u8; RECORD_BYTES], route: Route, bytes: &[u8]) -> Answer
    requires { Holds buffer.old }
    ensures { (result, buffer.new) ≡ stepped_in buffer.old (control_step (record_at buffer.old) route bytes.now) }
{
    let k = key_of(route, bytes);
    match read_control(bytes) {
        Ok(Control::Announce(a)) => announce(buffer, k, a),
        Ok(Control::EndOfMessage(st)) => status(buffer, k, st),
        Ok(Control::Abort(pgn)) => abort(buffer, k, pgn),
        Err(n) => Answer::Refused(n),
    }
}
