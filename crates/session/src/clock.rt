// The idle limits on a clock that runs round (01, "Clock"; 02, E4).
ghost use Rattle.std.specs.Prelude.{◌≡◌};
ghost use Rattle.session.specs.Ends.{is_idle};
ghost use Rattle.session.specs.Decisions.{end_at};

use super::Session;
use super::end::ending_of;
use answer::Ending;
use frame::refusal::Refusal;
use progress::wait::{IdleLimits, limit_in};

// Whether a session has been silent from its mark to the reading for at least the limit.
#[tactic(auto, unfolding(crate::specs::Ends::elapsed))]
pub fn is_idle(limit: u32, mark: u32, reading: u32) -> bool
    ensures { result ≡ is_idle limit mark reading }
{
    limit <= reading.wrapping_sub(mark)
}

// What becomes of a session at a reading: it stays, or ends with 22 by the limit of its wait.
pub fn at_reading(s: Session, limits: IdleLimits, reading: u32) -> Option<Ending>
    ensures { result ≡ end_at limits reading s }
{
    let p = s.progress;
    is_idle(limit_in(limits, p.wait), p.mark, reading).then(|| ending_of(s, Refusal::Silence))
}
