// CTS: the responder grants segments (001, Figure 32).
ghost use Rattle.std.specs.Prelude.{◌≡◌};
ghost use Rattle.transport.specs.Cts.{cts_at, cts_bytes};

use super::Key;
use super::head::head_byte;
use frame::SegmentNumber;
use frame::octet::low24_at;

// As we send it, with request code 0.
#[derive(Clone, Copy)]
pub struct Cts {
    pub key: Key,
    pub next: SegmentNumber,
    pub count: u8,
    pub pgn: u32,
}

// As it comes: with its request code, by which a responder may ask for the EOMS once more.
#[derive(Clone, Copy)]
pub struct CtsRead {
    pub cts: Cts,
    pub request: u8,
}

pub fn read_cts(key: Key, frame: &[u8; 12]) -> CtsRead
    ensures { result ≡ cts_at key frame.now }
{
    CtsRead {
        cts: Cts {
            key,
            next: SegmentNumber(low24_at(frame, 4)),
            count: frame[7],
            pgn: low24_at(frame, 9),
        },
        request: frame[8],
    }
}

pub fn cts_bytes(f: Cts) -> [u8; 12]
    ensures { result ≡ cts_bytes f }
{
    let next = f.next.0.to_le_bytes();
    let pgn = f.pgn.to_le_bytes();
    [
        head_byte(1, f.key),
        255,
        255,
        255,
        next[0],
        next[1],
        next[2],
        f.count,
        0,
        pgn[0],
        pgn[1],
        pgn[2],
    ]
}
