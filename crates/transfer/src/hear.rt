// What the responder's frames make of a transfer (02, E2, "to a control frame"; 001, 6.6.3.2).
ghost use Rattle.std.specs.Prelude.{◌≡◌, ◌+◌, ◌≤◌, ◌<◌};
ghost use Rattle.transfer.specs.Decisions.{ended, granted_by, stopped, bad_grant, cts_open, eoma_open, of_pgn, cts_to, eoma_to, abort_to, hears};

use super::clock::ending_of;
use super::{Course, Offer, Reply, Step, Transfer, segments};
use frame::SegmentNumber;
use frame::refusal::Refusal;
use session::Change;
use transport::cts::{Cts, CtsRead};
use transport::eoma::Eoma;
use transport::response::ResponseRead;

// A CTS for segments replaces the grant before it, and no EOMS is owed.
fn granting(c: Course, f: Cts, last: u32) -> Course
    requires { (0 < f.next.0) × (f.next.0 + f.count ≤ 4294967295) }
    ensures { result ≡ granted_by c f last }
{
    Course {
        next: f.next,
        granted: SegmentNumber(f.next.0 + u32::from(f.count) - 1),
        owed: false,
        mark: last,
        ..c
    }
}

// A CTS for none: what is left of the grant is dropped.
fn stopping(c: Course, owed: bool, last: u32) -> Course
    ensures { result ≡ stopped c owed last }
{
    Course {
        granted: SegmentNumber(c.next.0.saturating_sub(1)),
        owed,
        mark: last,
        ..c
    }
}

// Whether a CTS asks for a segment that the message does not have.
fn is_bad_grant(segments: u32, f: Cts) -> bool
    ensures { result ≡ bad_grant segments f }
{
    f.next.0 == 0 || u64::from(segments) + 1 < u64::from(f.next.0) + u64::from(f.count)
}

// A transfer that a refusal ends.
fn end_by(o: Offer, n: Refusal) -> Step
    ensures { result ≡ ended o n }
{
    Step {
        change: Change::Ends,
        reply: Reply::Ended(ending_of(o, n)),
    }
}

// A CTS of the transfer. After the last segment, request code 1 asks for the EOMS once more, whatever else it says.
#[tactic(auto, unfolding(crate::specs::Decisions::cts_open), using(crate::specs::Laws::grant_facts))]
fn cts_open(t: Transfer, f: CtsRead, last: u32) -> Step
    ensures { result ≡ cts_open t f last }
{
    let c = t.course;
    let course = if c.complete && f.request == 1 {
        stopping(c, true, last)
    } else if f.cts.count == 0 {
        stopping(c, c.owed, last)
    } else if is_bad_grant(segments(t.offer.total), f.cts) {
        return end_by(t.offer, Refusal::GrantRange);
    } else {
        granting(c, f.cts, last)
    };
    Step {
        change: Change::Moves(course),
        reply: Reply::Granted,
    }
}

// An EOMA of the transfer: it has ended well where an EOMS has gone out and the totals are ours.
#[tactic(auto, unfolding(crate::specs::Decisions::eoma_open))]
fn eoma_open(t: Transfer, f: Eoma) -> Step
    ensures { result ≡ eoma_open t f }
{
    let o = t.offer;
    if t.course.reported && f.total == o.total && f.segments.0 == segments(o.total) {
        Step {
            change: Change::Ends,
            reply: Reply::Acknowledged(o.key),
        }
    } else {
        Step::refused(Refusal::KeyNotOpen)
    }
}

// The transfer, if it is of the PGN.
fn of_pgn(x: Option<Transfer>, pgn: u32) -> Option<Transfer>
    ensures { result ≡ of_pgn x pgn }
{
    x.filter(|t| t.offer.pgn == pgn)
}

fn cts(x: Option<Transfer>, f: CtsRead, last: u32) -> Step
    ensures { result ≡ cts_to x f last }
{
    match x {
        Some(t) => cts_open(t, f, last),
        None => Step::refused(Refusal::KeyNotOpen),
    }
}

fn eoma(x: Option<Transfer>, f: Eoma) -> Step
    ensures { result ≡ eoma_to x f }
{
    match x {
        Some(t) => eoma_open(t, f),
        None => Step::refused(Refusal::KeyNotOpen),
    }
}

// The responder's Abort ends the transfer, whatever its reason.
fn abort(x: Option<Transfer>) -> Step
    ensures { result ≡ abort_to x }
{
    match x {
        Some(t) => Step {
            change: Change::Ends,
            reply: Reply::Aborted(t.offer.key),
        },
        None => Step::refused(Refusal::KeyNotOpen),
    }
}

// A responder's frame for what is known of its key; 16 where no transfer of its PGN is open.
#[tactic(auto, unfolding(crate::specs::Decisions::hears))]
pub fn hear(x: Option<Transfer>, f: Result<ResponseRead, Refusal>, last: u32) -> Step
    ensures { result ≡ hears x f last }
{
    match f {
        Ok(ResponseRead::Cts(c)) => cts(of_pgn(x, c.cts.pgn), c, last),
        Ok(ResponseRead::Eoma(e)) => eoma(of_pgn(x, e.pgn), e),
        Ok(ResponseRead::Abort(a)) => abort(of_pgn(x, a.pgn)),
        Err(n) => Step::refused(n),
    }
}
