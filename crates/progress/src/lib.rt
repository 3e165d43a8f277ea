// A session in its two parts: what was announced, which stays, and how far it has come (01, "Announcement" and "Segment").
#![tactic(auto)]

pub mod forward;
pub mod grant;
pub mod request;
pub mod wait;

use frame::{ByteCount, SegmentNumber};
use segments::Segments;
use transport::{Key, Kind};
use wait::Wait;

// What was announced, with the key of the session.
#[derive(Clone, Copy)]
pub struct Announced {
    pub key: Key,
    pub kind: Kind,
    pub total: ByteCount,
    pub segments: SegmentNumber,
    // MAX SGMTS, of which a BAM has none
    pub max: u8,
    pub pgn: u32,
}

#[derive(Clone, Copy)]
pub struct Progress {
    // the next segment of a BAM, whose segments come in sequence; 0 in an RTS, which has the record below in its place (02, E6)
    pub next: SegmentNumber,
    // which segments of an RTS are in, and how many are not; a BAM has none of the two
    pub taken: Segments,
    pub missing: u32,
    // how often missing segments were asked for
    pub requests: u8,
    // the last segment that a CTS granted; 0 in a BAM, which has no grants
    pub granted: SegmentNumber,
    // the reading of the clock from which silence counts
    pub mark: u32,
    // which limit that silence has
    pub wait: Wait,
}
