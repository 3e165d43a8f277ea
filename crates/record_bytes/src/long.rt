// Numbers of 64 bits in bytes, low byte first: two words of 32 bits, the low one first.
ghost use Rattle.std.specs.Prelude.{◌≡◌, [], ◌+◌, ◌<◌, ◌≤◌, length};
ghost use Rattle.std.proofs.Math.Seq.{paste};
ghost use Rattle.record_bytes.specs.Longs.{low8, low64};

use words::{put_word, word_at};

// Eight bytes of s from at on, as a number.
pub fn long_at(s: &[u8], at: usize) -> u64
    requires { at + 7 < length s.now }
    ensures { result ≡ low64 s.now at }
{
    word_at(s, at) as u64 + 4294967296 * (word_at(s, at + 4) as u64)
}

// Puts a number into eight bytes of out, from at on.
pub fn put_long(out: &mut [u8], at: usize, n: u64)
    requires { at + 8 ≤ length out.old }
    ensures { out.new ≡ paste out.old at (low8 n []) 8 }
{
    put_word(out, at, (n % 4294967296) as u32);
    put_word(out, at + 4, (n / 4294967296) as u32);
}
