// A sender opened in a lent buffer (02, E2; 01, "Numbered refusals", of the opening values).
ghost use Rattle.std.specs.Prelude.{◌≡◌};
ghost use Rattle.sender.specs.Calls.{open_in};

use frame::Address;
use frame::refusal::Refusal;
use sender_bytes::put::put_opened;
use slots::bounds::opening_ok;

// No transfer open; 23 for own above 253 or a limit not 1 to 60,000, with a record that every call refuses, and for a buffer of another
// length, which stays as it was.
#[tactic(auto, unfolding(crate::specs::Calls::open_in))]
pub fn open(buffer: &mut [u8], own: Address, limit: u32, reading: u32) -> Result<(), Refusal>
    ensures { (result, buffer.new) ≡ open_in own limit reading buffer.old }
{
    if !put_opened(buffer, own, limit, reading) {
        return Err(Refusal::OutOfBounds);
    }
    if !opening_ok(own, limit) {
        return Err(Refusal::OutOfBounds);
    }
    Ok(())
}
