// A segment's data into the store: each slot has its own 4,096 bytes of it (01, "Segment").
ghost use Rattle.std.specs.Prelude.{◌≡◌, ◌+◌, ◌*◌, ◌≤◌, ◌<◌, length};
ghost use Rattle.std.proofs.Math.Seq.{paste};
ghost use Rattle.transport.specs.Segments.{data_at};

use super::SLOT_BYTES;
use octets::{copy, copy_sixty};

// The data of every segment but the last.
const SEGMENT_BYTES: usize = 60;

// A data frame's data into part from at on.
fn copy_in(part: &mut [u8], at: usize, bytes: &[u8], n: usize)
    requires { (at + n ≤ length part.old) × (4 + n ≤ length bytes.now) }
    ensures { part.new ≡ paste part.old at (data_at bytes.now) n }
{
    if n == SEGMENT_BYTES {
        copy_sixty(part, at, bytes, 4);
        return;
    }
    copy(part, at, bytes, 4, n);
}

// Copies n bytes of a data frame's data to the place at of a slot.
pub fn store_segment(store: &mut [u8], slot: usize, at: usize, bytes: &[u8], n: usize)
    requires { (slot < 8) × (at + n ≤ 4096) × (4 + n ≤ length bytes.now) × (length store.old ≡ 32768) }
    ensures { store.new ≡ paste store.old (4096 * slot + at) (data_at bytes.now) n }
{
    let base = SLOT_BYTES * slot;
    let end = base + SLOT_BYTES;
    copy_in(&mut store[base..end], at, bytes, n);
}
