// A frame of a CAN FD length, read into a list of 96 numbers.
ghost use Rattle.std.specs.Prelude.{◌≡◌, true, ◌≤◌, length};
ghost use Rattle.multi_pg.specs.Groups.{groups_read};
ghost use Rattle.unpacking.specs.Unpacking.{unpacked_by};
ghost use Rattle.unpacking.specs.Places.{first_is_last};

use super::row::{GROUP_WORDS, GROUPS_WORDS, keep, put_back, write};
use frame::refusal::Refusal;
use multi_pg::read::step;

// A frame whose first group, if it has one, is its last.
pub fn first_only(frame: &[u8], out: &mut [u32]) -> Result<usize, Refusal>
    requires { (first_is_last frame.now ≡ true) × (length frame.now ≤ 64) × (length out.old ≡ 96) }
    ensures { (result, out.new) ≡ unpacked_by (groups_read frame.now) out.old }
{
    let Some(group) = step(frame, 0)? else {
        return Ok(0);
    };
    write(out, 0, group);
    Ok(1)
}

// Any frame. One pass writes each group where it is met and keeps what was there. A fault puts it all back, so that the caller is
// given no group of a frame that is not good as a whole.
pub fn fill(frame: &[u8], out: &mut [u32]) -> Result<usize, Refusal>
    requires { (length frame.now ≤ 64) × (length out.old ≡ 96) }
    ensures { (result, out.new) ≡ unpacked_by (groups_read frame.now) out.old }
{
    // any number will do; zeros would be written by a call, which costs more than a group
    let mut kept = [1u32; GROUPS_WORDS];
    let mut count: usize = 0;
    let mut at: usize = 0;
    loop {
        match step(frame, at) {
            Ok(Some(group)) => {
                keep(out, GROUP_WORDS * count, &mut kept);
                write(out, GROUP_WORDS * count, group);
                count += 1;
                at = group.end();
            }
            Ok(None) => return Ok(count),
            Err(refusal) => {
                put_back(out, &kept, GROUP_WORDS * count);
                return Err(refusal);
            }
        }
    }
}
