// The answers of a reading as bytes: one for each slot, in the slots' order.
ghost use Rattle.std.specs.Prelude.{◌≡◌, ◌+◌, ◌≤◌, length};
ghost use Rattle.std.proofs.Math.Seq.{paste};
ghost use Rattle.answer_bytes.specs.Ends.{end_bytes, ends_bytes};
ghost use Rattle.answer_bytes.specs.Places.{answer_length, answers_length};

use super::places::ANSWER_BYTES;
use super::{put_fields, put_sending, session_ended};
use answer::Ending;
use answer::sent::response_of_end;
use octets::copy;

// Writes the answer of one slot at at: as a frame's that ends a session, or zeros where none ended.
fn put_end(s: Option<Ending>, out: &mut [u8], at: usize)
    requires { at + answer_length ≤ length out.old }
    ensures { out.new ≡ paste out.old at (end_bytes s) answer_length }
{
    match s {
        None => copy(out, at, &[0u8; ANSWER_BYTES], 0, ANSWER_BYTES),
        Some(e) => {
            put_fields(session_ended(e), out, at);
            put_sending(response_of_end(Some(e)), out, at);
        }
    }
}

// Writes the answers of all slots over a buffer of ANSWERS_BYTES.
pub fn write_ends(ends: [Option<Ending>; 8], out: &mut [u8])
    requires { length out.old ≡ answers_length }
    ensures { out.new ≡ ends_bytes ends }
{
    for (i, end) in ends.iter().enumerate() {
        put_end(*end, out, ANSWER_BYTES * i);
    }
}
