// A reading of the clock for a program in C (include/dwaebinam.h).
ghost use Rattle.std.specs.Prelude.{◌≡◌};
ghost use Rattle.dwaebinam.specs.Reading.{read_in};

use answer::acceptance_number;
use answer_bytes::ends::write_ends;
use answer_bytes::places::ANSWERS_BYTES;
use engine::reading::take_reading;
use frame::refusal;
use frame::refusal::Refusal;

// Takes one reading: the record and the answers are written. 23 with zeros in answers where the buffer is no record in bounds, and with
// all as it was where answers has another length.
#[tactic(auto, unfolding(crate::specs::Reading::read_in))]
pub fn dwb_reading(buffer: &mut [u8], reading: u32, store: &[u8], answers: &mut [u8]) -> u8
    ensures { (result, (buffer.new, answers.new)) ≡ read_in buffer.old reading store.now answers.old }
{
    if answers.len() != ANSWERS_BYTES {
        return refusal::number(Refusal::OutOfBounds);
    }
    let taken = take_reading(buffer, reading, store);
    write_ends(taken.ends, answers);
    acceptance_number(taken.answer)
}
