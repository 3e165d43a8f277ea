// Bytes and the numbers that they make.
ghost use Rattle.std.specs.Prelude.{◌≡◌, ◌+◌, ◌%◌, ◌<◌, length};
ghost use Rattle.frame.specs.Octets.{low24};

// The lowest byte of a number.
pub fn low_byte(x: u32) -> u8
    ensures { result ≡ x % 256 }
{
    (x % 256) as u8
}

// Three bytes of s from at on, low byte first, as control and data frames have their numbers.
pub fn low24_at(s: &[u8], at: usize) -> u32
    requires { at + 2 < length s.now }
    ensures { (result ≡ low24 s.now at) × (result < 16777216) }
{
    u32::from(s[at]) + 256 * u32::from(s[at + 1]) + 65536 * u32::from(s[at + 2])
}
