// A group's numbers in a list: written, kept and put back.
ghost use Rattle.std.specs.Prelude.{◌≡◌, ◌++◌, ◌+◌, ◌≤◌, length, take, drop};
ghost use Rattle.std.proofs.lemmas.List.Edits.{sets};
ghost use Rattle.multi_pg.specs.Groups.{end_of};
ghost use Rattle.unpacking.specs.Unpacking.{row};

use multi_pg::Group;

// A group has six numbers, a CAN FD frame at most 16 groups.
pub const GROUP_WORDS: usize = 6;

pub const GROUPS_WORDS: usize = 16 * GROUP_WORDS;

fn row(group: Group) -> [u32; GROUP_WORDS]
    requires { end_of group ≤ 64 }
    ensures { result ≡ row group }
{
    [
        group.pgn,
        u32::from(group.service),
        u32::from(group.format),
        group.start as u32,
        group.len as u32,
        group.trailer as u32,
    ]
}

// Writes a group's numbers from the index i on.
pub fn write(out: &mut [u32], i: usize, group: Group)
    requires { (i + 6 ≤ length out.old) × (end_of group ≤ 64) }
    ensures { out.new ≡ sets out.old i (row group) }
{
    out[i..i + GROUP_WORDS].copy_from_slice(&row(group));
}

// Keeps the six numbers that are there, by way of an array: a copy from slice to slice would ask whether the two overlap, group by group.
pub fn keep(out: &[u32], i: usize, kept: &mut [u32])
    requires { (i + 6 ≤ length out.now) × (i + 6 ≤ length kept.old) }
    ensures { kept.new ≡ sets kept.old i (take 6 (drop i out.now)) }
{
    let mut there = [0u32; GROUP_WORDS];
    there.copy_from_slice(&out[i..i + GROUP_WORDS]);
    kept[i..i + GROUP_WORDS].copy_from_slice(&there);
}

// Puts the first n numbers back.
pub fn put_back(out: &mut [u32], kept: &[u32], n: usize)
    requires { (n ≤ length out.old) × (n ≤ length kept.now) }
    ensures { out.new ≡ take n kept.now ++ drop n out.old }
{
    out[..n].copy_from_slice(&kept[..n]);
}
