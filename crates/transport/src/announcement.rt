// RTS and BAM: a message is announced (001, Figures 31 and 36).
ghost use Rattle.std.specs.Prelude.{◌≡◌};
ghost use Rattle.transport.specs.Announcements.{control_for, announcement_at, announcement_bytes};

use super::head::head_byte;
use super::{Key, Kind};
use frame::octet::low24_at;
use frame::{ByteCount, SegmentNumber};

#[derive(Clone, Copy)]
pub struct Announcement {
    pub kind: Kind,
    pub total: ByteCount,
    pub segments: SegmentNumber,
    // MAX SGMTS; reserved in a BAM
    pub max: u8,
    pub assurance: u8,
    pub pgn: u32,
}

pub fn read_announcement(kind: Kind, bytes: &[u8; 12]) -> Announcement
    ensures { result ≡ announcement_at kind bytes.now }
{
    Announcement {
        kind,
        total: ByteCount(low24_at(bytes, 1)),
        segments: SegmentNumber(low24_at(bytes, 4)),
        max: bytes[7],
        assurance: bytes[8],
        pgn: low24_at(bytes, 9),
    }
}

fn control_for(kind: Kind) -> u8
    ensures { result ≡ control_for kind }
{
    match kind {
        Kind::Rts => 0,
        Kind::Bam => 4,
    }
}

pub fn announcement_bytes(key: Key, a: Announcement) -> [u8; 12]
    ensures { result ≡ announcement_bytes key a }
{
    let total = a.total.0.to_le_bytes();
    let segments = a.segments.0.to_le_bytes();
    let pgn = a.pgn.to_le_bytes();
    [
        head_byte(control_for(a.kind), key),
        total[0],
        total[1],
        total[2],
        segments[0],
        segments[1],
        segments[2],
        a.max,
        a.assurance,
        pgn[0],
        pgn[1],
        pgn[2],
    ]
}
