// Searches over the slots in a record's bytes (01, "Announcement" and "Segment").
ghost use Rattle.std.specs.Prelude.{◌≡◌, ◌+◌, ◌≤◌, ◌<◌, length, get_or, drop};
ghost use Rattle.slots.specs.Slots.{free_slot, is_free, holds_key, first_free, key_place, slot_for, state_in, Within};
ghost use Rattle.slots.specs.Bounds.{any_holds};
ghost use Rattle.record_bytes.specs.Layout.{slots_at};
ghost use Rattle.record_bytes.specs.Places.{record_length};
ghost use Rattle.lent_record.specs.Judged.{slots_before};

use record_bytes::places::{DA_AT, HEAD_BYTES, RECORD_BYTES, SA_AT, SESSION_AT, SLOT_BYTES};
use record_bytes::slot::slot_at;
use session::Session;
use slots::SLOTS;
use transport::Key;

// Whether slot i is free.
fn is_free(bytes: &[u8; RECORD_BYTES], i: usize) -> bool
    requires { i < 8 }
    ensures { result ≡ is_free (get_or (slots_at bytes.now) i free_slot) }
{
    bytes[HEAD_BYTES + SLOT_BYTES * i] != 1
}

// Whether slot i has the key open.
fn holds_key(bytes: &[u8; RECORD_BYTES], i: usize, k: Key) -> bool
    requires { i < 8 }
    ensures { result ≡ holds_key k (get_or (slots_at bytes.now) i free_slot) }
{
    let at = HEAD_BYTES + SLOT_BYTES * i;
    if bytes[at] != 1 {
        return false;
    }
    if bytes[at + SA_AT] != k.sa.0 {
        return false;
    }
    (bytes[at + DA_AT] == k.da.0) & (bytes[at + SESSION_AT] == k.session.0)
}

// Whether a slot before slot i has the key open. Bounded by the number of slots, the loop is laid out flat.
pub fn any_before(bytes: &[u8; RECORD_BYTES], i: usize, k: Key) -> bool
    requires { i ≤ 8 }
    ensures { result ≡ any_holds k (slots_before bytes.now i) }
{
    for j in 0..SLOTS {
        if j == i {
            return false;
        }
        if holds_key(bytes, j, k) {
            return true;
        }
    }
    false
}

// The lowest free slot. A loop that breaks with what it finds and no `find`: a form that is asked for here (docs/DECISIONS.md).
pub fn find_free(bytes: &[u8; RECORD_BYTES]) -> Option<usize>
    ensures { (result ≡ first_free (slots_at bytes.now)) × Within result 8 }
{
    let mut i: usize = 0;
    let found = loop {
        if i == SLOTS {
            break None;
        }
        if is_free(bytes, i) {
            break Some(i);
        }
        i = i + 1;
    };
    found
}

// The slot that has the key open.
pub fn find_key(bytes: &[u8; RECORD_BYTES], k: Key) -> Option<usize>
    ensures { (result ≡ key_place k (slots_at bytes.now)) × Within result 8 }
{
    (0..SLOTS).find(|&i| holds_key(bytes, i, k))
}

// The slot for a key: the one that has it open, else the lowest that is free.
pub fn slot_for(bytes: &[u8; RECORD_BYTES], k: Key) -> Option<usize>
    ensures { (result ≡ slot_for k (slots_at bytes.now)) × Within result 8 }
{
    find_key(bytes, k).or_else(|| find_free(bytes))
}

// Slot i.
pub fn slot_in(bytes: &[u8; RECORD_BYTES], i: usize) -> Option<Session>
    requires { i < 8 }
    ensures { result ≡ get_or (slots_at bytes.now) i free_slot }
{
    let at = HEAD_BYTES + SLOT_BYTES * i;
    let end = at + SLOT_BYTES;
    slot_at(&bytes[at..end])
}

// What is known of the key that a slot was found for.
pub fn state_in(bytes: &[u8; RECORD_BYTES], f: Option<usize>) -> Option<Session>
    requires { Within f 8 }
    ensures { result ≡ state_in f (slots_at bytes.now) }
{
    f.and_then(|i| slot_in(bytes, i))
}
