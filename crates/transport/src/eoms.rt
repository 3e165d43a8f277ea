// EOMS: the originator says that all segments have gone out (001, Figure 33).
ghost use Rattle.std.specs.Prelude.{◌≡◌};
ghost use Rattle.transport.specs.Eoms.{status_at, status_bytes};

use super::Key;
use super::head::head_byte;
use frame::octet::low24_at;
use frame::{ByteCount, SegmentNumber};

#[derive(Clone, Copy)]
pub struct Status {
    pub total: ByteCount,
    pub segments: SegmentNumber,
    pub assurance: u8,
    pub pgn: u32,
}

pub fn read_status(bytes: &[u8; 12]) -> Status
    ensures { result ≡ status_at bytes.now }
{
    Status {
        total: ByteCount(low24_at(bytes, 1)),
        segments: SegmentNumber(low24_at(bytes, 4)),
        assurance: bytes[8],
        pgn: low24_at(bytes, 9),
    }
}

pub fn status_bytes(key: Key, st: Status) -> [u8; 12]
    ensures { result ≡ status_bytes key st }
{
    let total = st.total.0.to_le_bytes();
    let segments = st.segments.0.to_le_bytes();
    let pgn = st.pgn.to_le_bytes();
    [
        head_byte(2, key),
        total[0],
        total[1],
        total[2],
        segments[0],
        segments[1],
        segments[2],
        0,
        st.assurance,
        pgn[0],
        pgn[1],
        pgn[2],
    ]
}
