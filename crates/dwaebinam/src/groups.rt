// The groups of a frame for a program in C (include/dwaebinam.h).
ghost use Rattle.std.specs.Prelude.{◌≡◌};
ghost use Rattle.dwaebinam.specs.Unpacking.{unpacked_in};

use super::pack::refused;
use unpacking::unpack;

// The groups of a frame into the front of groups, six numbers for each: how many, or 256 times the number of the refusal.
pub fn dwb_groups(bytes: &[u8], groups: &mut [u32]) -> usize
    ensures { (result, groups.new) ≡ unpacked_in bytes.now groups.old }
{
    unpack(bytes, groups).unwrap_or_else(refused)
}
