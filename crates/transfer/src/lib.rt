// One message on its way out, by value: what goes out next, and what the responder's frames and the clock make of it (02, E2). No record
// and no byte of the message is known here.
#![tactic(auto)]

ghost use Rattle.std.specs.Prelude.{◌≡◌, ◌<◌};
ghost use Rattle.transfer.specs.Decisions.{refused};
ghost use Rattle.transfer.specs.Transfers.{segments_of, kind_of, max_of, announcement_of, status_of};

pub mod announce;
pub mod bounds;
pub mod clock;
pub mod hear;
pub mod next;

use answer::Ending;
use frame::octet::low_byte;
use frame::refusal::Refusal;
use frame::{Address, ByteCount, SegmentNumber};
use session::Change;
use transport::announcement::Announcement;
use transport::eoms::Status;
use transport::{Key, Kind};

// What was announced: it stays. The key's SA is the own address, its DA the destination.
#[derive(Clone, Copy)]
pub struct Offer {
    pub key: Key,
    pub total: ByteCount,
    pub pgn: u32,
}

// How far it has come.
#[derive(Clone, Copy)]
pub struct Course {
    // the next segment to go out
    pub next: SegmentNumber,
    // the last segment granted; all of them in a BAM
    pub granted: SegmentNumber,
    // the last segment has gone out
    pub complete: bool,
    // an EOMS has gone out
    pub reported: bool,
    // an EOMS is to go out next
    pub owed: bool,
    // the reading of the clock from which silence counts
    pub mark: u32,
}

#[derive(Clone, Copy)]
pub struct Transfer {
    pub offer: Offer,
    pub course: Course,
}

// What is answered, and with it what goes out.
#[derive(Clone, Copy)]
pub enum Reply {
    // the RTS or the BAM
    Announced(Offer),
    // that data frame
    Segment(SegmentNumber),
    // the EOMS; a BAM has then ended well
    Status(Offer),
    NothingDue,
    // a CTS was taken, for segments or for none
    Granted,
    // the EOMA ended the transfer well
    Acknowledged(Key),
    // the responder's Abort ended it
    Aborted(Key),
    // 22 or 27 ended it; for RTS an Abort goes out
    Ended(Ending),
    Refused(Refusal),
}

// What becomes of the transfer, and what is answered. A session's step is a struct of its own (session/src/lib.rt).
#[derive(Clone, Copy)]
pub struct Step {
    pub change: Change<Transfer, Course>,
    pub reply: Reply,
}

impl Step {
    pub fn refused(n: Refusal) -> Step
        ensures { result ≡ refused n }
    {
        Step {
            change: Change::Stays,
            reply: Reply::Refused(n),
        }
    }
}

// The segments of so many bytes; in 64 bits, where no sum wraps.
#[tactic(auto, unfolding(crate::specs::Transfers::segments_of))]
pub fn segments(total: ByteCount) -> u32
    ensures { (result ≡ segments_of total.0) × (result < 71582790) }
{
    ((u64::from(total.0) + 59) / 60) as u32
}

// To 255 a message is broadcast.
pub fn kind_of(da: Address) -> Kind
    ensures { result ≡ kind_of da }
{
    if da.0 == 255 { Kind::Bam } else { Kind::Rts }
}

// The MAX SGMTS of an announcement: as many as there are (001, 6.6.3.1.5); reserved in a BAM.
fn max_of(kind: Kind, segments: u32) -> u8
    ensures { result ≡ max_of kind segments }
{
    match kind {
        Kind::Rts => low_byte(segments),
        Kind::Bam => 255,
    }
}

// What the RTS or the BAM says.
pub fn announcement_of(o: Offer) -> Announcement
    ensures { result ≡ announcement_of o }
{
    let kind = kind_of(o.key.da);
    let count = segments(o.total);
    Announcement {
        kind,
        total: o.total,
        segments: SegmentNumber(count),
        max: max_of(kind, count),
        assurance: 0,
        pgn: o.pgn,
    }
}

// What the EOMS says.
pub fn status_of(o: Offer) -> Status
    ensures { result ≡ status_of o }
{
    Status {
        total: o.total,
        segments: SegmentNumber(segments(o.total)),
        assurance: 0,
        pgn: o.pgn,
    }
}
