// What the calls answer, with 01's number, the frame that is sent and the place of the bytes (01, "Life of a session" and "Numbered
// refusals").
#![tactic(auto)]

ghost use Rattle.std.specs.Prelude.{◌≡◌};
ghost use Rattle.answer.specs.Answers.{answer_number, acceptance_number};

pub mod place;
pub mod sent;

use frame::judge::Route;
use frame::refusal::Refusal;
use frame::{ByteCount, SegmentNumber, refusal};
use transport::cts::Cts;
use transport::{Key, Kind};

// A message handed over: its first total bytes are in the slot.
#[derive(Clone, Copy)]
pub struct Message {
    pub key: Key,
    pub kind: Kind,
    pub total: ByteCount,
    pub segments: SegmentNumber,
    pub pgn: u32,
    pub slot: usize,
}

// A session that a refusal ended.
#[derive(Clone, Copy)]
pub struct Ending {
    pub key: Key,
    pub kind: Kind,
    pub refusal: Refusal,
    pub pgn: u32,
}

// An RTS to the own address that was refused, with its PGN as it came.
#[derive(Clone, Copy)]
pub struct Rejection {
    pub key: Key,
    pub refusal: Refusal,
    pub pgn: u32,
}

// A segment that was taken with no CTS due.
#[derive(Clone, Copy)]
pub struct Taken {
    pub key: Key,
    pub number: SegmentNumber,
}

#[derive(Clone, Copy)]
pub enum Answer {
    // a Multi-PG frame judged good, with where it came from and went: its groups are the reader's to give
    Groups(Route),
    // a BAM was accepted
    Opened(Key),
    Taken(Taken),
    // an RTS was accepted, or a grant was used up: the CTS to send
    Grant(Cts),
    // for RTS an EOMA is sent
    HandedOver(Message),
    // the originator's Abort ended the session
    Aborted(Key),
    // 19 or 21 ended the session; for RTS an Abort is sent
    Ended(Ending),
    // an Abort is sent
    RefusedRts(Rejection),
    Refused(Refusal),
}

// 01's number of an answer; 0 where nothing is refused.
pub fn number(a: Answer) -> u8
    ensures { result ≡ answer_number a }
{
    match a {
        Answer::Ended(e) => refusal::number(e.refusal),
        Answer::RefusedRts(j) => refusal::number(j.refusal),
        Answer::Refused(n) => refusal::number(n),
        Answer::Groups(_)
        | Answer::Opened(_)
        | Answer::Taken(_)
        | Answer::Grant(_)
        | Answer::HandedOver(_)
        | Answer::Aborted(_) => 0,
    }
}

// The same of an opening or a reading, which are accepted or refused.
pub fn acceptance_number(a: Result<(), Refusal>) -> u8
    ensures { result ≡ acceptance_number a }
{
    match a {
        Ok(()) => 0,
        Err(n) => refusal::number(n),
    }
}
