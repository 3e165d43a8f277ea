// What a call changes of a sender's record, put into its bytes; what did not change is not written.
ghost use Rattle.std.specs.Prelude.{◌≡◌, [], ◌∷◌, ◌+◌, ◌<◌, ◌≤◌, length};
ghost use Rattle.std.proofs.Math.Seq.{paste};
ghost use Rattle.words.specs.Words.{low4};
ghost use Rattle.sender_bytes.specs.Layout.{offer_bytes, course_bytes, transfer_bytes, changed, opened_in};
ghost use Rattle.sender_bytes.specs.Places.{record_length, transfer_length, offer_length, course_length, transfer_place, course_place, last_place};

use super::places::{
    COMPLETE_AT, GRANTED_AT, HEAD_BYTES, LAST_AT, LIMIT_AT, MARK_AT, NEXT_AT, OWN_AT, PGN_AT,
    RECORD_BYTES, TOTAL_AT, TRANSFER_BYTES, TRANSFERS, transfer_place,
};
use frame::Address;
use octets::copy;
use session::Change;
use transfer::{Course, Offer, Transfer};
use words::put_word;

// Writes what was announced, as an open transfer begins; it begins at at.
fn put_offer(out: &mut [u8], at: usize, o: Offer)
    requires { at + offer_length ≤ length out.old }
    ensures { out.new ≡ paste out.old at (offer_bytes o) offer_length }
{
    let front = [1, o.key.da.0, o.key.session.0];
    copy(out, at, &front, 0, TOTAL_AT);
    put_word(out, at + TOTAL_AT, o.total.0);
    put_word(out, at + PGN_AT, o.pgn);
}

// Writes how far transfer i has come, after the bytes that stay as they were announced.
fn put_course(out: &mut [u8; RECORD_BYTES], i: usize, c: Course)
    requires { i < 4 }
    ensures { out.new ≡ paste out.old (course_place i) (course_bytes c) course_length }
{
    let at = transfer_place(i);
    let flags = [u8::from(c.complete), u8::from(c.reported), u8::from(c.owed)];
    copy(out, at + COMPLETE_AT, &flags, 0, 3);
    put_word(out, at + NEXT_AT, c.next.0);
    put_word(out, at + GRANTED_AT, c.granted.0);
    put_word(out, at + MARK_AT, c.mark);
}

// Writes transfer i.
fn put_transfer(out: &mut [u8; RECORD_BYTES], i: usize, t: Transfer)
    requires { i < 4 }
    ensures { out.new ≡ paste out.old (transfer_place i) (transfer_bytes t) transfer_length }
{
    put_offer(out, transfer_place(i), t.offer);
    put_course(out, i, t.course);
}

// A change of transfer i. One that ends leaves its other bytes, which then have no meaning.
pub fn put_change(out: &mut [u8; RECORD_BYTES], i: usize, change: Change<Transfer, Course>)
    requires { i < 4 }
    ensures { out.new ≡ changed out.old i change }
{
    match change {
        Change::Stays => {}
        Change::Opens(t) => put_transfer(out, i, t),
        Change::Moves(c) => put_course(out, i, c),
        Change::Ends => {
            let free = [0u8];
            copy(out, transfer_place(i), &free, 0, 1);
        }
    }
}

// Writes the last reading.
pub fn put_last(out: &mut [u8; RECORD_BYTES], reading: u32)
    ensures { out.new ≡ paste out.old last_place (low4 reading []) 4 }
{
    put_word(out, LAST_AT, reading);
}

// Writes a record with no transfer open into a buffer of RECORD_BYTES; one of another length is left as it is, and false is the answer.
#[tactic(auto, unfolding(crate::specs::Layout::opened_in), using(crate::proofs::Opened::opened))]
pub fn put_opened(out: &mut [u8], own: Address, limit: u32, reading: u32) -> bool
    ensures { (result, out.new) ≡ opened_in own limit reading out.old }
{
    let Some(record) = out.as_mut_array::<RECORD_BYTES>() else {
        return false;
    };
    let front = [own.0];
    copy(record, OWN_AT, &front, 0, 1);
    put_word(record, LIMIT_AT, limit);
    put_last(record, reading);
    let free = [0u8; TRANSFERS * TRANSFER_BYTES];
    copy(record, HEAD_BYTES, &free, 0, TRANSFERS * TRANSFER_BYTES);
    true
}
