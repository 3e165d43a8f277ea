// A reading of the clock at the sender (02, E2; 01, "Clock"): a transfer that was silent for the idle limit ends with 22.
ghost use Rattle.std.specs.Prelude.{◌≡◌, ◌<◌, length};
ghost use Rattle.sender_bytes.specs.Places.{record_length};
ghost use Rattle.sender.specs.Clock.{elapsed_of, one_elapsed, reading_in};

use super::ready::is_in_bounds;
use super::search::transfer_in;
use answer::Ending;
use frame::refusal::Refusal;
use sender_bytes::places::{LIMIT_AT, RECORD_BYTES, TRANSFERS};
use sender_bytes::put::{put_change, put_last};
use session::Change;
use transfer::Transfer;
use transfer::clock::at_reading;
use words::word_at;

// Transfer i, which is open, at the reading t.
fn expire_open(
    buffer: &mut [u8; RECORD_BYTES],
    i: usize,
    x: Transfer,
    limit: u32,
    t: u32,
) -> Option<Ending>
    requires { i < 4 }
    ensures { (result, buffer.new) ≡ elapsed_of buffer.old i x limit t }
{
    let e = at_reading(x, limit, t)?;
    put_change(buffer, i, Change::Ends);
    Some(e)
}

// Transfer i at the reading t.
fn expire(buffer: &mut [u8; RECORD_BYTES], i: usize, limit: u32, t: u32) -> Option<Ending>
    requires { i < 4 }
    ensures { (result, buffer.new) ≡ one_elapsed buffer.old i limit t }
{
    let x = transfer_in(buffer, i)?;
    expire_open(buffer, i, x, limit, t)
}

// Takes one reading: 23, else each transfer judged, then the reading kept as the last. Answers the ending of each transfer.
#[tactic(auto, unfolding(crate::specs::Clock::reading_in, crate::specs::Clock::elapsed_in, crate::specs::Transfers::ready_in))]
pub fn take_reading(buffer: &mut [u8], t: u32) -> Result<[Option<Ending>; TRANSFERS], Refusal>
    ensures { (result, buffer.new) ≡ reading_in buffer.old t }
{
    let Some(record) = buffer.as_mut_array::<RECORD_BYTES>() else {
        return Err(Refusal::OutOfBounds);
    };
    if !is_in_bounds(record) {
        return Err(Refusal::OutOfBounds);
    }
    let limit = word_at(record, LIMIT_AT);
    let ends = [
        expire(record, 0, limit, t),
        expire(record, 1, limit, t),
        expire(record, 2, limit, t),
        expire(record, 3, limit, t),
    ];
    put_last(record, t);
    Ok(ends)
}
