// Groups and padding, written into the output.
ghost use Rattle.std.specs.Prelude.{◌≡◌, ◌++◌, ◌+◌, ◌≤◌, length, drop};
ghost use Rattle.std.proofs.Math.Seq.{paste};
ghost use Rattle.packing.specs.Packing.{request_of, asked, needed, header_of, body, pad_byte, padding};
ghost use Rattle.packing.specs.Shapes.{EvenOf};

use super::Request;
use frame::octet::low_byte;
use octets::copy;

// A header: TOS, TF, the PGN with its high byte first, the length byte.
fn header(service: u8, format: u8, pgn: u32, payload: u8) -> [u8; 4]
    ensures { result ≡ header_of service format pgn payload }
{
    [
        low_byte(32 * u32::from(service) + 4 * u32::from(format) + pgn / 65536 % 4),
        low_byte(pgn / 256),
        low_byte(pgn),
        payload,
    ]
}

impl<'a> Request<'a> {
    // The groups back to back, from the first byte of out: header, data, trailer.
    pub(crate) fn write_groups(self, out: &mut [u8])
        requires even { EvenOf (request_of self) }
        requires trailers_in_bounds { (needed (request_of self) ≤ length out.old) × (length out.old ≤ 64) }
        ensures { out.new ≡ body (asked (request_of self.entry)) ++ drop (needed (request_of self.entry)) out.old }
    {
        let mut at: usize = 0;
        let mut from: usize = 0;
        let mut taken: usize = 0;
        for i in 0..self.pgns.len() {
            let n = usize::from(self.lengths[i]);
            let m = usize::from(self.trailers[i]);
            let head = header(
                self.services[i],
                self.formats[i],
                self.pgns[i],
                self.lengths[i] + self.trailers[i],
            );
            copy(out, at, &head, 0, 4);
            copy(out, at + 4, self.data, from, n);
            copy(out, at + 4 + n, self.assured, taken, m);
            at += 4 + n + m;
            from += n;
            taken += m;
        }
    }
}

// The byte of a padding at an index: three zeros, then AA hex.
fn pad_byte(k: usize) -> u8
    ensures { result ≡ pad_byte k }
{
    if k < 3 { 0 } else { 170 }
}

// A padding of gap bytes, from the index at on. Byte by byte, since `fill` of the zeros and of the rest is two calls of memset and takes 15
// instructions more for a frame of one group.
pub fn pad(out: &mut [u8], at: usize, gap: usize)
    requires { at + gap ≤ length out.old }
    ensures { out.new ≡ paste out.old at (padding gap) gap }
{
    for j in 0..gap {
        out[at + j] = pad_byte(j);
    }
}
