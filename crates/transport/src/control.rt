// Control frames that a receiver takes: those of an originator.
ghost use Rattle.std.specs.Prelude.{◌≡◌};
ghost use Rattle.transport.specs.Control.{is_response, not_receivers, abort_of, control_of};

use super::Kind;
use super::abort::role_in;
use super::announcement::{Announcement, read_announcement};
use super::eoms::{Status, read_status};
use frame::octet::low24_at;
use frame::refusal::Refusal;

#[derive(Clone, Copy)]
pub enum Control {
    Announce(Announcement),
    EndOfMessage(Status),
    // an originator's Abort, with the PGN
    Abort(u32),
}

// Whether a frame is a responder's: a CTS, an EOMA or an Abort in its role. It goes to a sender.
pub fn is_response(bytes: &[u8; 12]) -> bool
    ensures { result ≡ is_response bytes.now }
{
    let control = bytes[0] % 16;
    (control == 1) | (control == 3) | ((control == 15) & (role_in(bytes) == 1))
}

// What a receiver does not take: 16 for a responder's frame, since a receiver has no transfer, 10 for what neither end takes.
fn not_receivers(bytes: &[u8; 12]) -> Refusal
    ensures { result ≡ not_receivers bytes.now }
{
    if is_response(bytes) {
        return Refusal::KeyNotOpen;
    }
    Refusal::NeitherTakes
}

// An Abort: the originator's, or not a receiver's.
fn read_abort(bytes: &[u8; 12]) -> Result<Control, Refusal>
    ensures { result ≡ abort_of bytes.now }
{
    if role_in(bytes) == 0 {
        return Ok(Control::Abort(low24_at(bytes, 9)));
    }
    Err(not_receivers(bytes))
}

// What a control frame says: 9 for one not of 12 bytes, 16 for a responder's, 10 for what neither end takes. The controls are the wire's
// own numbers.
#[tactic(auto, unfolding(crate::specs::Control::control_of))]
pub fn read_control(bytes: &[u8]) -> Result<Control, Refusal>
    ensures { result ≡ control_of bytes.now }
{
    let bytes = bytes.as_array::<12>().ok_or(Refusal::TransferLength)?;
    match bytes[0] % 16 {
        0 => Ok(Control::Announce(read_announcement(Kind::Rts, bytes))),
        4 => Ok(Control::Announce(read_announcement(Kind::Bam, bytes))),
        2 => Ok(Control::EndOfMessage(read_status(bytes))),
        15 => read_abort(bytes),
        _ => Err(not_receivers(bytes)),
    }
}
