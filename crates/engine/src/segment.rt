// Data frames over the record's bytes (01, "Segment"): the data of a segment that is taken goes to its place in the slot, and its session
// moves on.
ghost use Rattle.std.specs.Prelude.{◌≡◌, true, ◌+◌, ◌≤◌, ◌<◌, length};
ghost use Rattle.transport.specs.Heads.{key_of};
ghost use Rattle.transport.specs.Segments.{data_frame_of};
ghost use Rattle.slots.specs.Slots.{Within};
ghost use Rattle.receiver.specs.Bounds.{in_bounds};
ghost use Rattle.receiver.specs.Calls.{stored, stored_by, segment_step, on_data};
ghost use Rattle.record_bytes.specs.Layout.{record_at};
ghost use Rattle.record_bytes.specs.Places.{record_length};
ghost use Rattle.engine.specs.InBytes.{Holds, outcome_in};
ghost use Rattle.engine.specs.Placed.{Placed, PlacedBy};

use super::apply::apply;
use answer::Answer;
use frame::SegmentNumber;
use frame::judge::Route;
use lent_record::search::{find_key, state_in};
use progress::Progress;
use record_bytes::places::{LAST_AT, RECORD_BYTES};
use session::{Change, Session, segment};
use slots::store::store_segment;
use transport::Key;
use transport::head::key_of;
use transport::segment::{Segment, read_segment};
use words::word_at;

// The data due of segment n, to its place in slot i.
fn store_due(store: &mut [u8], i: usize, s: Session, n: SegmentNumber, bytes: &[u8])
    requires { (i < 8) × Placed s n.0 bytes.now × (length store.old ≡ 32768) }
    ensures { store.new ≡ stored i s n.0 bytes.now store.old }
{
    let total = s.announced.total;
    let count = segment::due(total, n) as usize;
    let at = 60 * (n.0 as usize - 1);
    store_segment(store, i, at, bytes, count);
}

// A segment that moves its session on is one that was taken: only its data is stored.
fn store_taken(
    store: &mut [u8],
    change: Change<Session, Progress>,
    f: Option<usize>,
    x: Option<Session>,
    n: SegmentNumber,
    bytes: &[u8],
)
    requires { Within f 8 × PlacedBy change x n.0 bytes.now × (length store.old ≡ 32768) }
    ensures { store.new ≡ stored_by change f x n.0 bytes.now store.old }
{
    if let (Change::Moves(_), Some(i), Some(s)) = (change, f, x) {
        store_due(store, i, s, n, bytes);
    }
}

// A segment of the key. One whose key is not open changes nothing, so no free slot is looked for.
fn segment(
    buffer: &mut [u8; RECORD_BYTES],
    k: Key,
    sg: Segment,
    bytes: &[u8],
    store: &mut [u8],
) -> Answer
    requires { (in_bounds (record_at buffer.old) ≡ true) × (sg.number.0 < 16777216) × (4 + sg.room ≤ length bytes.now)
        × (length store.old ≡ 32768) × Holds buffer.old }
    ensures { (result, (buffer.new, store.new))
        ≡ outcome_in buffer.old (segment_step (record_at buffer.old) k sg bytes.now store.old) }
{
    let f = find_key(buffer, k);
    let x = state_in(buffer, f);
    let step = segment::segment(x, sg, word_at(buffer, LAST_AT));
    let change = step.change;
    let n = sg.number;
    store_taken(store, change, f, x, n, bytes);
    apply(buffer, f, step)
}

pub fn data_frame(
    buffer: &mut [u8; RECORD_BYTES],
    route: Route,
    bytes: &[u8],
    store: &mut [u8],
) -> Answer
    requires { (in_bounds (record_at buffer.old) ≡ true) × (length store.old ≡ 32768) × Holds buffer.old }
    ensures { (result, (buffer.new, store.new))
        ≡ outcome_in buffer.old
        (on_data (data_frame_of bytes.now) (record_at buffer.old) (key_of route bytes.now) bytes.now
        store.old) }
{
    let k = key_of(route, bytes);
    match read_segment(bytes) {
        Ok(sg) => segment(buffer, k, sg, bytes, store),
        Err(n) => Answer::Refused(n),
    }
}
