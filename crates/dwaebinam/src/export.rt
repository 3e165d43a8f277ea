// The calls that a program in C links: numbers and lent bytes go in and out (include/dwaebinam.h).
ghost use Rattle.std.specs.Prelude.{◌≡◌};
ghost use Rattle.frame.specs.Lengths.{least_length};
ghost use Rattle.dwaebinam.specs.Calls.{boundary_version, least_or, opened_in, framed_in};

use answer::{acceptance_number, number};
use answer_bytes::places::ANSWER_BYTES;
use answer_bytes::write_answer;
use engine::call::take_frame;
use frame::length::least_length;
use frame::refusal::Refusal;
use frame::{Address, refusal};
use progress::wait::IdleLimits;
use receiver::Receiver;
use record_bytes::layout::write_record;
use record_bytes::places::RECORD_BYTES;

// The version of these calls, of their lengths, places and codes: what include/dwaebinam.h says must be the archive's.
pub const VERSION: u32 = 5;

pub fn dwb_version() -> u32
    ensures { result ≡ boundary_version }
{
    VERSION
}

// The least length of a frame that holds need bytes; 255 for more than 64.
pub fn dwb_least_length(need: usize) -> usize
    ensures { result ≡ least_or (least_length need) }
{
    least_length(need).unwrap_or(255)
}

// Opens a receiver in a buffer of RECORD_BYTES; first and second are its idle limits. An opening that is refused with 23 gives a record that
// every call refuses; a buffer of another length stays as it was.
#[tactic(auto, unfolding(crate::specs::Calls::opened_in))]
pub fn dwb_open(buffer: &mut [u8], own: u8, first: u32, second: u32, reading: u32) -> u8
    ensures { (result, buffer.new) ≡ opened_in own (record { first = first; second = second }) reading buffer.old }
{
    if buffer.len() != RECORD_BYTES {
        return refusal::number(Refusal::OutOfBounds);
    }
    let limits = IdleLimits { first, second };
    let opened = Receiver::open(Address(own), limits, reading);
    write_record(opened.receiver, buffer);
    acceptance_number(opened.answer)
}

// Takes one frame: the answer's number, with the answer written, and the record and the store as the answer says. 23 with all as it was
// where the answer's buffer has another length.
#[tactic(auto, unfolding(crate::specs::Calls::framed_in))]
pub fn dwb_frame(
    buffer: &mut [u8],
    id: u32,
    bytes: &[u8],
    store: &mut [u8],
    answer: &mut [u8],
) -> u8
    ensures { (result, (buffer.new, (store.new, answer.new)))
        ≡ framed_in buffer.old id bytes.now store.old answer.old }
{
    if answer.len() != ANSWER_BYTES {
        return refusal::number(Refusal::OutOfBounds);
    }
    let a = take_frame(buffer, id, bytes, store);
    write_answer(a, answer);
    number(a)
}
