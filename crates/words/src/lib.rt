// Numbers of 32 bits in bytes, low byte first, as records and answers have them.
#![tactic(auto)]

ghost use Rattle.std.specs.Prelude.{◌≡◌, [], ◌+◌, ◌<◌, ◌≤◌, length};
ghost use Rattle.std.proofs.Math.Seq.{paste};
ghost use Rattle.words.specs.Words.{low4, low32};

use octets::copy;

// Four bytes of s from at on, as a number.
pub fn word_at(s: &[u8], at: usize) -> u32
    requires { at + 3 < length s.now }
    ensures { result ≡ low32 s.now at }
{
    u32::from_le_bytes([s[at], s[at + 1], s[at + 2], s[at + 3]])
}

// Puts a number into four bytes of out, from at on.
pub fn put_word(out: &mut [u8], at: usize, n: u32)
    requires { at + 4 ≤ length out.old }
    ensures { out.new ≡ paste out.old at (low4 n []) 4 }
{
    copy(out, at, &n.to_le_bytes(), 0, 4);
}
