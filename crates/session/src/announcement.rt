// An announcement judged, and the session that it opens (01, "Announcement").
ghost use Rattle.std.specs.Prelude.{◌≡◌};
ghost use Rattle.session.specs.Announcements.{misdirected, bad_numbers, form_of, first_granted, session_of, first_cts};
ghost use Rattle.session.specs.Decisions.{rejection, opening, accepted_if, is_restart, for_key, announced_to};

use super::{Change, Session, Step};
use answer::{Answer, Rejection};
use frame::refusal::Refusal;
use frame::{Address, SegmentNumber, pgn};
use progress::grant::grant;
use progress::wait::wait_after;
use progress::{Announced, Progress};
use segments::Segments;
use transport::announcement::Announcement;
use transport::cts::Cts;
use transport::{Key, Kind};

// Whether an announcement goes to a destination that its kind does not go to: 11, and nothing is sent.
fn is_misdirected(da: Address, kind: Kind) -> bool
    ensures { result ≡ misdirected da kind }
{
    match kind {
        Kind::Rts => da.0 == 255,
        Kind::Bam => da.0 != 255,
    }
}

// Whether Total Bytes, segments and MAX SGMTS do not agree; in 64 bits, where no sum wraps.
fn bad_numbers(a: Announcement) -> bool
    ensures { result ≡ bad_numbers a }
{
    a.total.0 == 0
        || u64::from(a.segments.0) != (u64::from(a.total.0) + 59) / 60
        || (a.kind == Kind::Rts && a.max == 0)
}

// The numbers judged: 11, 12, 13, 8.
#[tactic(auto, unfolding(crate::specs::Announcements::form_of))]
pub fn judge_form(a: Announcement) -> Result<(), Refusal>
    ensures { result ≡ form_of a }
{
    if bad_numbers(a) {
        return Err(Refusal::AnnouncementForm);
    }
    if 4096 < a.total.0 {
        return Err(Refusal::TooLong);
    }
    if a.assurance != 0 {
        return Err(Refusal::Assurance);
    }
    if !pgn::is_pgn(a.pgn) {
        return Err(Refusal::PgnForm);
    }
    Ok(())
}

// The last segment of the first grant; 0 for a BAM.
fn first_granted(a: Announcement) -> u32
    ensures { result ≡ first_granted a }
{
    match a.kind {
        Kind::Rts => u32::from(grant(a.max, a.segments.0)),
        Kind::Bam => 0,
    }
}

// The session that an announcement opens, marked with the last reading: a BAM waits for segment 1, an RTS misses all.
fn open_session(key: Key, a: Announcement, last: u32) -> Session
    ensures { result ≡ session_of key a last }
{
    let (next, missing) = match a.kind {
        Kind::Rts => (0, a.segments.0),
        Kind::Bam => (1, 0),
    };
    Session {
        announced: Announced {
            key,
            kind: a.kind,
            total: a.total,
            segments: a.segments,
            max: a.max,
            pgn: a.pgn,
        },
        progress: Progress {
            next: SegmentNumber(next),
            taken: Segments::none(),
            missing,
            requests: 0,
            granted: SegmentNumber(first_granted(a)),
            mark: last,
            wait: wait_after(a.kind == Kind::Rts),
        },
    }
}

// The CTS that answers an RTS.
fn first_cts(key: Key, a: Announcement) -> Cts
    ensures { result ≡ first_cts key a }
{
    Cts {
        key,
        next: SegmentNumber(1),
        count: grant(a.max, a.segments.0),
        pgn: a.pgn,
    }
}

// A refusal of an announcement to the right destination: an RTS is answered by Abort.
fn reject(key: Key, a: Announcement, refusal: Refusal) -> Answer
    ensures { result ≡ rejection key a refusal }
{
    match a.kind {
        Kind::Rts => Answer::RefusedRts(Rejection {
            key,
            refusal,
            pgn: a.pgn,
        }),
        Kind::Bam => Answer::Refused(refusal),
    }
}

// The session is opened: an RTS is answered by CTS.
fn accept(k: Key, a: Announcement, last: u32) -> Step
    ensures { result ≡ opening k a last }
{
    Step {
        change: Change::Opens(open_session(k, a, last)),
        answer: match a.kind {
            Kind::Rts => Answer::Grant(first_cts(k, a)),
            Kind::Bam => Answer::Opened(k),
        },
    }
}

// It is accepted, or refused with n.
fn accept_if(admitted: bool, n: Refusal, k: Key, a: Announcement, last: u32) -> Step
    ensures { result ≡ accepted_if admitted n k a last }
{
    if admitted {
        accept(k, a, last)
    } else {
        Step::stays(reject(k, a, n))
    }
}

// Whether an announcement is the RTS of an open session once more: it starts the session anew (02, E1).
fn is_restart(s: Session, a: Announcement) -> bool
    ensures { result ≡ is_restart s a }
{
    a.kind == Kind::Rts && a.pgn == s.announced.pgn
}

// An announcement of good form. For an open key a restart, else 14; for a closed one 15 where there is no slot.
fn for_key(x: Option<Session>, room: bool, k: Key, a: Announcement, last: u32) -> Step
    ensures { result ≡ for_key x room k a last }
{
    match x {
        Some(s) => accept_if(is_restart(s, a), Refusal::KeyOpen, k, a, last),
        None => accept_if(room, Refusal::SlotsFull, k, a, last),
    }
}

// An announcement for a key; room says whether there is a slot for it. 11 with nothing sent for a wrong destination; 11, 12, 13, 8; then by
// the key's session: a restart, 14, 15.
#[tactic(auto, unfolding(crate::specs::Decisions::announced_to))]
pub fn announce(x: Option<Session>, room: bool, k: Key, a: Announcement, last: u32) -> Step
    ensures { result ≡ announced_to x room k a last }
{
    if is_misdirected(k.da, a.kind) {
        return Step::refused(Refusal::AnnouncementForm);
    }
    match judge_form(a) {
        Ok(()) => for_key(x, room, k, a, last),
        Err(n) => Step::stays(reject(k, a, n)),
    }
}
