// All groups of a Multi-PG frame in one call (01, "Groups in one frame"; 02, E5).
#![tactic(auto)]

ghost use Rattle.std.specs.Prelude.{◌≡◌};
ghost use Rattle.unpacking.specs.Unpacking.{unpacked};

use fill::{fill, first_only};
use frame::length::is_length;
use frame::refusal::Refusal;
use place::first_is_last;
use row::GROUPS_WORDS;

mod fill;
mod place;
mod row;

// Writes the numbers of each group into a list of GROUPS_WORDS, which holds the groups of any CAN FD frame, and answers how many groups
// there are: the first numbers are theirs, six for each. The numbers after them, and on a refusal all, stay as they were.
#[tactic(auto, using(frame::proofs::LengthLaws::length_to), unfolding(crate::specs::Unpacking::unpacked))]
pub fn unpack(frame: &[u8], out: &mut [u32]) -> Result<usize, Refusal>
    ensures { (result, out.new) ≡ unpacked frame.now out.old }
{
    if out.len() != GROUPS_WORDS {
        return Err(Refusal::OutOfBounds);
    }
    if !is_length(frame.len()) {
        return Err(Refusal::FrameLength);
    }
    if first_is_last(frame) {
        return first_only(frame, out);
    }
    fill(frame, out)
}
