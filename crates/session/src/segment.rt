// A segment judged, and the session brought forward by it (01, "Segment"; 02, E6).
ghost use Rattle.std.specs.Prelude.{◌≡◌, ◌<◌, if◌then◌else◌};
ghost use Rattle.frame.specs.declared.refusal.Refusal.TheVariants.{AlreadyTaken, OutOfSequence};
ghost use Rattle.session.specs.declared.segment.Judged.TheVariants.{Refused, Ends};
ghost use Rattle.session.specs.Segments.{due_of, already_in, out_of_turn, judged_of, next_cts};
ghost use Rattle.session.specs.Decisions.{taken, segment_open, segment_to};

use super::end::end_by;
use super::{Change, Session, Step};
use answer::{Answer, Taken};
use frame::refusal::Refusal;
use frame::{ByteCount, SegmentNumber};
use progress::Announced;
use progress::forward::{brought_forward, is_cts_due, next_count};
use transport::Kind;
use transport::cts::Cts;
use transport::segment::Segment;

// A judgement: two of the three carry a refusal, so a Result would need a second enum for its error, and say no more.
#[derive(Clone, Copy)]
pub enum Judged {
    // the session stays as it is
    Refused(Refusal),
    // the session ends
    Ends(Refusal),
    Takes,
}

// The bytes due in a segment, for any two numbers; in 64 bits, where no product wraps.
#[tactic(auto, unfolding(crate::specs::Segments::due_of))]
pub fn due(total: ByteCount, n: SegmentNumber) -> u32
    ensures { result ≡ due_of total.0 n.0 }
{
    let before = 60 * u64::from(n.0.saturating_sub(1));
    u64::from(total.0).saturating_sub(before).min(60) as u32
}

// Whether a segment is in: by the record of an RTS; a BAM's come in sequence.
fn is_already_in(s: Session, n: SegmentNumber) -> bool
    ensures { result ≡ already_in s n.0 }
{
    match s.announced.kind {
        Kind::Rts => s.progress.taken.is_in(n.0),
        Kind::Bam => n.0 < s.progress.next.0,
    }
}

// Whether a BAM's segment is beyond the next one.
fn is_out_of_turn(s: Session, n: SegmentNumber) -> bool
    ensures { result ≡ out_of_turn s n.0 }
{
    s.announced.kind == Kind::Bam && s.progress.next.0 < n.0
}

// A segment judged by its turn, 18 or 19; else as given.
fn judge_turn(s: Session, n: SegmentNumber, otherwise: Judged) -> Judged
    ensures { result ≡ (if already_in s n.0 then Refused AlreadyTaken else (if out_of_turn s n.0 then Ends OutOfSequence else otherwise)) }
{
    if is_already_in(s, n) {
        return Judged::Refused(Refusal::AlreadyTaken);
    }
    if is_out_of_turn(s, n) {
        return Judged::Ends(Refusal::OutOfSequence);
    }
    otherwise
}

// A segment judged by its number and by the bytes that the frame has for data: 18, 19, 20. Count and length are looked at first and
// answer last: so the kind is asked next to where the segment is taken, which asks it too.
#[tactic(auto, unfolding(crate::specs::Segments::judged_of))]
fn judge_segment(s: Session, n: SegmentNumber, room: usize) -> Judged
    ensures { result ≡ judged_of s n.0 room }
{
    if n.0 == 0 {
        return Judged::Refused(Refusal::AlreadyTaken);
    }
    if s.announced.segments.0 < n.0 {
        return judge_turn(s, n, Judged::Ends(Refusal::OutOfSequence));
    }
    if room < due(s.announced.total, n) as usize {
        return judge_turn(s, n, Judged::Refused(Refusal::SegmentCut));
    }
    judge_turn(s, n, Judged::Takes)
}

// The CTS after segment n. A segment number is read off three bytes (progress/src/forward.rt).
fn next_cts(a: Announced, n: SegmentNumber) -> Cts
    requires { n.0 < 16777216 }
    ensures { result ≡ next_cts a n.0 }
{
    Cts {
        key: a.key,
        next: SegmentNumber(n.0 + 1),
        count: next_count(a, n),
        pgn: a.pgn,
    }
}

// Segment n is taken: a CTS where a grant is used up and segments remain.
fn take(s: Session, n: SegmentNumber, last: u32) -> Step
    requires { n.0 < 16777216 }
    ensures { result ≡ taken s n.0 last }
{
    let a = s.announced;
    Step {
        change: Change::Moves(brought_forward(s.progress, a, n, last)),
        answer: if is_cts_due(s.progress, a, n) {
            Answer::Grant(next_cts(a, n))
        } else {
            Answer::Taken(Taken {
                key: a.key,
                number: n,
            })
        },
    }
}

// A segment of an open session: 18, 19, 20, else it is taken.
fn segment_open(s: Session, n: SegmentNumber, room: usize, last: u32) -> Step
    requires { n.0 < 16777216 }
    ensures { result ≡ segment_open s n.0 room last }
{
    match judge_segment(s, n, room) {
        Judged::Refused(x) => Step::refused(x),
        Judged::Ends(x) => end_by(s, x),
        Judged::Takes => take(s, n, last),
    }
}

// A segment for a key: 17, 16, then the open session's judgement.
#[tactic(auto, unfolding(crate::specs::Decisions::segment_to))]
pub fn segment(x: Option<Session>, sg: Segment, last: u32) -> Step
    requires { sg.number.0 < 16777216 }
    ensures { result ≡ segment_to x sg last }
{
    if sg.format != 0 {
        return Step::refused(Refusal::FormatIndicator);
    }
    match x {
        Some(s) => segment_open(s, sg.number, sg.room, last),
        None => Step::refused(Refusal::KeyNotOpen),
    }
}
