// EOMA: the responder says that the message has come (001, Figure 34).
ghost use Rattle.std.specs.Prelude.{◌≡◌};
ghost use Rattle.transport.specs.Eoma.{eoma_at, eoma_bytes};

use super::Key;
use super::head::head_byte;
use frame::octet::low24_at;
use frame::{ByteCount, SegmentNumber};

#[derive(Clone, Copy)]
pub struct Eoma {
    pub key: Key,
    pub total: ByteCount,
    pub segments: SegmentNumber,
    pub pgn: u32,
}

pub fn read_eoma(key: Key, frame: &[u8; 12]) -> Eoma
    ensures { result ≡ eoma_at key frame.now }
{
    Eoma {
        key,
        total: ByteCount(low24_at(frame, 1)),
        segments: SegmentNumber(low24_at(frame, 4)),
        pgn: low24_at(frame, 9),
    }
}

pub fn eoma_bytes(f: Eoma) -> [u8; 12]
    ensures { result ≡ eoma_bytes f }
{
    let total = f.total.0.to_le_bytes();
    let segments = f.segments.0.to_le_bytes();
    let pgn = f.pgn.to_le_bytes();
    [
        head_byte(3, f.key),
        total[0],
        total[1],
        total[2],
        segments[0],
        segments[1],
        segments[2],
        255,
        255,
        pgn[0],
        pgn[1],
        pgn[2],
    ]
}
