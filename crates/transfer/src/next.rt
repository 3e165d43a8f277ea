// The next frame of a transfer (02, E2; 001, 6.6.2): an EOMS that is owed, else the next segment where it is granted.
ghost use Rattle.std.specs.Prelude.{◌≡◌, ◌<◌};
ghost use Rattle.transfer.specs.Decisions.{NextFits, after_segment, after_status, status_goes, next_frame, asked_to};

use super::{Course, Reply, Step, Transfer, kind_of, segments};
use frame::SegmentNumber;
use frame::refusal::Refusal;
use session::Change;
use transport::Kind;

// Once the next segment has gone out. An EOMS is owed where it spends a grant and the last one has gone out by then.
fn after_segment(t: Transfer, last: u32) -> Course
    requires { t.course.next.0 < 16777216 }
    ensures { result ≡ after_segment t last }
{
    let c = t.course;
    let complete = c.complete || c.next.0 == segments(t.offer.total);
    Course {
        next: SegmentNumber(c.next.0 + 1),
        complete,
        owed: c.next == c.granted && complete,
        mark: last,
        ..c
    }
}

// Once an EOMS has gone out.
fn after_status(c: Course, last: u32) -> Course
    ensures { result ≡ after_status c last }
{
    Course {
        reported: true,
        owed: false,
        mark: last,
        ..c
    }
}

// The EOMS goes out: an RTS waits for its EOMA, a BAM has ended.
fn status_goes(t: Transfer, last: u32) -> Step
    ensures { result ≡ status_goes t last }
{
    Step {
        change: match kind_of(t.offer.key.da) {
            Kind::Rts => Change::Moves(after_status(t.course, last)),
            Kind::Bam => Change::Ends,
        },
        reply: Reply::Status(t.offer),
    }
}

// What is due. A frame that goes out renews the mark; nothing due changes nothing.
#[tactic(auto, unfolding(crate::specs::Decisions::next_frame))]
fn next_frame(t: Transfer, last: u32) -> Step
    requires { t.course.next.0 < 16777216 }
    ensures { result ≡ next_frame t last }
{
    if t.course.owed {
        return status_goes(t, last);
    }
    if t.course.granted.0 < t.course.next.0 {
        return Step {
            change: Change::Stays,
            reply: Reply::NothingDue,
        };
    }
    Step {
        change: Change::Moves(after_segment(t, last)),
        reply: Reply::Segment(t.course.next),
    }
}

// Asked for the next frame of what is known of a key, with a message of len bytes: 16 where no transfer is open, 26 unless len is the
// length announced.
#[tactic(auto, unfolding(crate::specs::Decisions::asked_to))]
pub fn ask(x: Option<Transfer>, len: usize, last: u32) -> Step
    requires { NextFits x }
    ensures { result ≡ asked_to x len last }
{
    match x {
        Some(t) if t.offer.total.0 as usize == len => next_frame(t, last),
        Some(_) => Step::refused(Refusal::MessageLength),
        None => Step::refused(Refusal::KeyNotOpen),
    }
}
