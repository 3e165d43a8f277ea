// A reading of the clock over the record's bytes (01, "Clock"): a session that was silent for the limit of its wait ends, and only its
// slot and the last reading are written.
ghost use Rattle.std.specs.Prelude.{◌≡◌, true, [], ◌<◌, length, get_or, Some};
ghost use Rattle.slots.specs.Slots.{free_slot};
ghost use Rattle.record_bytes.specs.Layout.{pieces_of, slots_at};
ghost use Rattle.record_bytes.specs.Kept.{Good};
ghost use Rattle.record_bytes.specs.Places.{record_length};
ghost use Rattle.lent_record.specs.Ready.{ready_in};
ghost use Rattle.engine.specs.InBytes.{Holds};
ghost use Rattle.engine.specs.Elapsing.{slot_elapsed, slots_elapsed, reading_in};

use answer::Ending;
use frame::refusal::Refusal;
use lent_record::ready::{is_in_bounds, limits_of};
use lent_record::search::slot_in;
use progress::wait::IdleLimits;
use record_bytes::places::RECORD_BYTES;
use record_bytes::put::{put_last, put_slot};
use session::Session;
use session::clock::at_reading;
use slots::SLOTS;

// What a reading answers, and the ending of each slot.
#[derive(Clone, Copy)]
pub struct ReadingAnswer {
    pub answer: Result<(), Refusal>,
    pub ends: [Option<Ending>; 8],
}

// The session s of slot i at the reading t.
fn expire_open(
    buffer: &mut [u8; RECORD_BYTES],
    i: usize,
    s: Session,
    limits: IdleLimits,
    t: u32,
) -> Option<Ending>
    requires { (i < 8) × Good (get_or (pieces_of buffer.old) i []) × ((get_or (slots_at buffer.old) i free_slot) ≡ Some s) }
    ensures { (result, buffer.new) ≡ slot_elapsed buffer.old i limits t }
{
    match at_reading(s, limits, t) {
        None => None,
        Some(e) => {
            put_slot(buffer, i, None);
            Some(e)
        }
    }
}

// Slot i at the reading t.
fn expire(buffer: &mut [u8; RECORD_BYTES], i: usize, limits: IdleLimits, t: u32) -> Option<Ending>
    requires { (i < 8) × Good (get_or (pieces_of buffer.old) i []) }
    ensures { (result, buffer.new) ≡ slot_elapsed buffer.old i limits t }
{
    match slot_in(buffer, i) {
        None => None,
        Some(s) => expire_open(buffer, i, s, limits, t),
    }
}

fn expire_all(buffer: &mut [u8; RECORD_BYTES], limits: IdleLimits, t: u32) -> [Option<Ending>; 8]
    requires { Holds buffer.old }
    ensures { (result, buffer.new) ≡ slots_elapsed buffer.old limits t }
{
    let mut ends = [None; 8];
    for i in 0..SLOTS {
        ends[i] = expire(buffer, i, limits, t);
    }
    ends
}

// Takes one reading, of a record that is in bounds.
fn read_ready(buffer: &mut [u8; RECORD_BYTES], t: u32, store: &[u8]) -> ReadingAnswer
    requires { ready_in buffer.old (length store.now) ≡ true }
    ensures { (result, buffer.new) ≡ reading_in buffer.old t store.now }
{
    let limits = limits_of(buffer);
    let ends = expire_all(buffer, limits, t);
    put_last(buffer, t);
    ReadingAnswer {
        answer: Ok(()),
        ends,
    }
}

// Takes one reading of the clock: 23, else each session judged, then the reading kept as the last.
pub fn take_reading(buffer: &mut [u8], t: u32, store: &[u8]) -> ReadingAnswer
    ensures { (result, buffer.new) ≡ reading_in buffer.old t store.now }
{
    let refused = ReadingAnswer {
        answer: Err(Refusal::OutOfBounds),
        ends: [None; 8],
    };
    match buffer.as_mut_array::<RECORD_BYTES>() {
        Some(record) => {
            if !is_in_bounds(record, store.len()) {
                return refused;
            }
            read_ready(record, t, store)
        }
        None => refused,
    }
}
