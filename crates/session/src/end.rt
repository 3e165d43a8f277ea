// The end of a session by its originator, and what is missing then (01, "End"; 02, E6).
ghost use Rattle.std.specs.Prelude.{◌≡◌, ◌<◌};
ghost use Rattle.session.specs.Ends.{status_matches, all_in, lacking, request_cts};
ghost use Rattle.session.specs.Decisions.{ending_of, ended, message_of, asks, lacks, status_open, status_to, abort_to};

use super::{Change, Session, Step};
use answer::{Answer, Ending, Message};
use frame::SegmentNumber;
use frame::refusal::Refusal;
use progress::Announced;
use progress::request::{REQUESTS, asked_count, requested};
use transport::Kind;
use transport::cts::Cts;
use transport::eoms::Status;

// A session that a refusal ends.
pub fn ending_of(s: Session, refusal: Refusal) -> Ending
    ensures { result ≡ ending_of s refusal }
{
    let Announced { key, kind, pgn, .. } = s.announced;
    Ending {
        key,
        kind,
        refusal,
        pgn,
    }
}

pub fn end_by(s: Session, n: Refusal) -> Step
    ensures { result ≡ ended s n }
{
    Step {
        change: Change::Ends,
        answer: Answer::Ended(ending_of(s, n)),
    }
}

// Whether an EOMS says what was announced.
fn status_matches(s: Session, st: Status) -> bool
    ensures { result ≡ status_matches s st }
{
    st.total == s.announced.total
        && st.segments == s.announced.segments
        && st.assurance == 0
        && st.pgn == s.announced.pgn
}

// Whether every segment is in; in 64 bits, where no sum wraps.
fn is_all_in(s: Session) -> bool
    ensures { result ≡ all_in s }
{
    match s.announced.kind {
        Kind::Rts => s.progress.missing == 0,
        Kind::Bam => u64::from(s.progress.next.0) == u64::from(s.announced.segments.0) + 1,
    }
}

// How many segments are not in; in 64 bits, where no sum wraps.
pub fn missing_in(s: Session) -> u64
    ensures { result ≡ lacking s }
{
    match s.announced.kind {
        Kind::Rts => u64::from(s.progress.missing),
        Kind::Bam => (u64::from(s.announced.segments.0) + 1).saturating_sub(u64::from(
            s.progress.next.0,
        )),
    }
}

// The CTS for the first missing run.
fn request_cts(s: Session) -> Cts
    ensures { result ≡ request_cts s }
{
    let a = s.announced;
    let taken = s.progress.taken;
    Cts {
        key: a.key,
        next: SegmentNumber(taken.first_missing(a.segments.0)),
        count: asked_count(taken, a.segments.0, a.max),
        pgn: a.pgn,
    }
}

// Missing segments are asked for.
fn ask(s: Session, last: u32) -> Step
    requires { s.progress.requests < 5 }
    ensures { result ≡ asks s last }
{
    Step {
        change: Change::Moves(requested(s.progress, s.announced, last)),
        answer: Answer::Grant(request_cts(s)),
    }
}

// An EOMS with segments missing: an RTS asks for them as often as it may, a BAM is 21.
fn lack(s: Session, last: u32) -> Step
    ensures { result ≡ lacks s last }
{
    match s.announced.kind {
        Kind::Rts if s.progress.requests < REQUESTS => ask(s, last),
        Kind::Rts => end_by(s, Refusal::RequestsSpent),
        Kind::Bam => end_by(s, Refusal::StatusMismatch),
    }
}

// The message of a session, whose bytes are in the slot.
fn message_of(s: Session, slot: usize) -> Message
    ensures { result ≡ message_of slot s }
{
    let Announced {
        key,
        kind,
        total,
        segments,
        pgn,
        ..
    } = s.announced;
    Message {
        key,
        kind,
        total,
        segments,
        pgn,
        slot,
    }
}

// An EOMS for an open session: 21 if it is not as announced; the message is handed over, or what is missing is asked for.
fn status_open(s: Session, slot: usize, st: Status, last: u32) -> Step
    ensures { result ≡ status_open s slot st last }
{
    if !status_matches(s, st) {
        return end_by(s, Refusal::StatusMismatch);
    }
    if !is_all_in(s) {
        return lack(s, last);
    }
    Step {
        change: Change::Ends,
        answer: Answer::HandedOver(message_of(s, slot)),
    }
}

// An EOMS for a key, with the slot where its data is; 16 where no session is open.
#[tactic(auto, unfolding(crate::specs::Decisions::status_to))]
pub fn status(x: Option<Session>, slot: usize, st: Status, last: u32) -> Step
    ensures { result ≡ status_to x slot st last }
{
    match x {
        Some(s) => status_open(s, slot, st, last),
        None => Step::refused(Refusal::KeyNotOpen),
    }
}

// An originator's Abort for a key; 16 where no session of its PGN is open.
#[tactic(auto, unfolding(crate::specs::Decisions::abort_to))]
pub fn abort(x: Option<Session>, pgn: u32) -> Step
    ensures { result ≡ abort_to x pgn }
{
    match x {
        Some(s) if pgn == s.announced.pgn => Step {
            change: Change::Ends,
            answer: Answer::Aborted(s.announced.key),
        },
        _ => Step::refused(Refusal::KeyNotOpen),
    }
}
