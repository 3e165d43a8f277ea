// The idle limit (02, E2: by 22 as a session does).
ghost use Rattle.std.specs.Prelude.{◌≡◌};
ghost use Rattle.transfer.specs.Decisions.{ending_of, end_at};

use super::{Offer, Transfer, kind_of};
use answer::Ending;
use frame::refusal::Refusal;
use session::clock::is_idle;

// A transfer that a refusal ends.
pub fn ending_of(o: Offer, refusal: Refusal) -> Ending
    ensures { result ≡ ending_of o refusal }
{
    Ending {
        key: o.key,
        kind: kind_of(o.key.da),
        refusal,
        pgn: o.pgn,
    }
}

// What becomes of a transfer at a reading: it stays, or ends with 22.
pub fn at_reading(t: Transfer, limit: u32, reading: u32) -> Option<Ending>
    ensures { result ≡ end_at limit reading t }
{
    is_idle(limit, t.course.mark, reading).then(|| ending_of(t.offer, Refusal::Silence))
}
