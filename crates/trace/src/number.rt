// Numbers: groups of seven bits, low group first, top bit set when more follow, shortest form only, below 4,294,967,296.
ghost use Rattle.std.specs.Prelude.{◌≡◌, ◌+◌, ◌*◌, ◌^◌, ◌<◌, ◌≤◌, length, get_or, drop, MatchResult};
ghost use Rattle.trace.specs.declared.Fault.TheVariants.{Cut};
ghost use Rattle.trace.specs.Numbers.{number_at, later_groups, last_group, onto, number_bytes};
ghost use Rattle.trace.specs.Outputs.{Put, NumberWritten};

use super::output::WriteError;
use super::{Fault, output};

// The byte at a place: seven bits, and 128 more where another group follows.
fn group(s: &[u8], at: usize) -> Result<u32, Fault>
    ensures { MatchResult result (λ b. (at < length s.now) × (b ≡ get_or s.now at 0) × (b < 256)) (λ f. (length s.now ≤ at) × (f ≡ Cut)) }
{
    match s.get(at) {
        Some(&b) => Ok(u32::from(b)),
        None => Err(Fault::Cut),
    }
}

// The number at a place, and the place after it.
pub fn read(s: &[u8], at: usize) -> Result<(u32, usize), Fault>
    ensures { result ≡ number_at s.now at }
{
    let b = group(s, at)?;
    if b < 128 {
        return Ok((b, at + 1));
    }
    later_groups(s, at + 1, b - 128)
}

// The groups after the first, whose seven bits are low.
fn later_groups(s: &[u8], start: usize, low: u32) -> Result<(u32, usize), Fault>
    requires { low < 128 }
    ensures { result ≡ onto low 128 (later_groups 3 start (drop start s.now)) }
{
    let mut value = low;
    let mut at = start;
    for scale in [128, 16384, 2097152] {
        let b = group(s, at)?;
        if b < 128 {
            return last_group(b, at, value, scale);
        }
        value += scale * (b - 128);
        at += 1;
    }
    fifth_group(s, at, value)
}

// A fifth group has the top four of 32 bits and no more.
fn fifth_group(s: &[u8], at: usize, value: u32) -> Result<(u32, usize), Fault>
    requires { value < 268435456 }
    ensures { result ≡ onto value 268435456 (later_groups 0 at (drop at s.now)) }
{
    let b = group(s, at)?;
    if 15 < b {
        return Err(Fault::TooLarge);
    }
    last_group(b, at, value, 268435456)
}

// A last group that is not the first, above value.
fn last_group(b: u32, at: usize, value: u32, scale: u32) -> Result<(u32, usize), Fault>
    requires { (at + 1 < 2 ^ 64) × (value + scale * b < 2 ^ 32) }
    ensures { result ≡ onto value scale (last_group at b) }
{
    if b == 0 {
        return Err(Fault::NotShortest);
    }
    Ok((value + scale * b, at + 1))
}

// How many bytes a number has.
pub fn size(n: u32) -> usize
    ensures { (result ≡ length (number_bytes n)) × (result ≤ 5) }
{
    if n < 128 {
        return 1;
    }
    if n < 16384 {
        return 2;
    }
    if n < 2097152 {
        return 3;
    }
    if n < 268435456 {
        return 4;
    }
    5
}

// Writes a number at a place that has room for it.
pub(crate) fn put(out: &mut [u8], at: usize, n: u32) -> usize
    requires { at + length (number_bytes n) ≤ length out.old }
    ensures { Put out.old at (number_bytes n) result out.new }
{
    let mut i: usize = 0;
    let mut rest = n;
    // a while: the number itself says when its groups end, and a for would have to count them first
    while 128 <= rest {
        out[at + i] = (rest % 128 + 128) as u8;
        rest /= 128;
        i += 1;
    }
    out[at + i] = rest as u8;
    at + i + 1
}

// Writes a number at a place, if there is room, and answers the place after it.
pub fn write(out: &mut [u8], at: usize, n: u32) -> Result<usize, WriteError>
    ensures { NumberWritten out.old at (number_bytes n) result out.new }
{
    output::check_room(out.len(), at, size(n))?;
    Ok(put(out, at, n))
}
