// What is asked for when segments are missing at the end of an RTS message (02, E6).
ghost use Rattle.std.specs.Prelude.{◌≡◌, ◌<◌};
ghost use Rattle.progress.specs.Requests.{asked_count, last_asked, requested_by};

use super::grant::most;
use super::wait::Wait;
use super::{Announced, Progress};
use frame::SegmentNumber;
use segments::Segments;

// How often missing segments may be asked for.
pub const REQUESTS: u8 = 5;

// How many are missing in a row from the first missing one on, as far as one CTS may ask.
pub fn asked_count(taken: Segments, segments: u32, max: u8) -> u8
    ensures { result ≡ asked_count taken segments max }
{
    taken.run(taken.first_missing(segments), segments, most(max))
}

// The last of them.
#[tactic(auto, using(crate::specs::Asked::asked_from, crate::specs::Asked::asked_to_lem))]
fn last_asked(taken: Segments, segments: u32, max: u8) -> u32
    ensures { result ≡ last_asked taken segments max }
{
    taken.first_missing(segments) - 1 + u32::from(asked_count(taken, segments, max))
}

// The progress after a request: one more is made, the mark is the last reading, and the first wait is on.
pub fn requested(p: Progress, a: Announced, last: u32) -> Progress
    requires { p.requests < 5 }
    ensures { result ≡ requested_by p a last }
{
    Progress {
        requests: p.requests + 1,
        granted: SegmentNumber(last_asked(p.taken, a.segments.0, a.max)),
        mark: last,
        wait: Wait::First,
        ..p
    }
}
