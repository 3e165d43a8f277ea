// The record as bytes of a fixed layout in a lent buffer: own address, both idle limits, last reading, then the eight slots.
ghost use Rattle.std.specs.Prelude.{◌≡◌, length};
ghost use Rattle.record_bytes.specs.Layout.{written, stored_in};
ghost use Rattle.record_bytes.specs.Places.{record_length};

use super::places::RECORD_BYTES;
use super::put::{put_head, put_slot};
use receiver::Receiver;
use session::Session;
use slots::SLOTS;

// The slots, after the head.
fn write_slots(slots: [Option<Session>; 8], out: &mut [u8; RECORD_BYTES])
    ensures { out.new ≡ written slots out.old }
{
    for i in 0..SLOTS {
        put_slot(out, i, slots[i]);
    }
}

// Writes the record into a buffer of RECORD_BYTES; one of another length is left as it is, and false is the answer.
#[tactic(auto, unfolding(crate::specs::Layout::stored_in), using(crate::proofs::Slots::record_stored))]
pub fn write_record(r: Receiver, out: &mut [u8]) -> bool
    ensures { (result, out.new) ≡ stored_in r out.old }
{
    let Some(record) = out.as_mut_array::<RECORD_BYTES>() else {
        return false;
    };
    put_head(record, r);
    write_slots(r.slots, record);
    true
}
