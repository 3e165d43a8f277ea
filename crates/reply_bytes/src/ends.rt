// The answers of a sender's reading as bytes: one for each transfer, in their order.
ghost use Rattle.std.specs.Prelude.{◌≡◌, ◌+◌, ◌≤◌, length};
ghost use Rattle.std.proofs.Math.Seq.{paste};
ghost use Rattle.answer_bytes.specs.Places.{answer_length};
ghost use Rattle.reply_bytes.specs.Places.{transfer_answers_length};
ghost use Rattle.reply_bytes.specs.Replies.{transfer_end_bytes, transfer_ends_bytes};

use super::goes::going_of_end;
use answer::Ending;
use answer_bytes::places::ANSWER_BYTES;
use answer_bytes::{ended_fields, put_fields, put_outgoing};
use octets::copy;

// The answers of a sender's reading.
pub const TRANSFER_ANSWERS_BYTES: usize = 144;

// Writes the answer of one transfer at at: as a control frame's that ends one, or zeros where none ended.
fn put_end(s: Option<Ending>, out: &mut [u8], at: usize)
    requires { at + answer_length ≤ length out.old }
    ensures { out.new ≡ paste out.old at (transfer_end_bytes s) answer_length }
{
    match s {
        None => copy(out, at, &[0u8; ANSWER_BYTES], 0, ANSWER_BYTES),
        Some(e) => {
            put_fields(ended_fields(17, 0, e), out, at);
            put_outgoing(going_of_end(e), out, at);
        }
    }
}

// Writes the answers of all transfers over a buffer of TRANSFER_ANSWERS_BYTES.
pub fn write_ends(ends: [Option<Ending>; 4], out: &mut [u8])
    requires { length out.old ≡ transfer_answers_length }
    ensures { out.new ≡ transfer_ends_bytes ends }
{
    // answer_bytes has the same loop over eight ends; one function of both would be longer, since it would take put_end and its clause.
    for (i, end) in ends.iter().enumerate() {
        put_end(*end, out, ANSWER_BYTES * i);
    }
}
