// What is where in a record's bytes: the lengths and the places, named once.
ghost use Rattle.std.specs.Prelude.{◌≡◌, ◌≤◌};
ghost use Rattle.record_bytes.specs.Places.{slot_place};

// The record, its head, and a slot.
pub const RECORD_BYTES: usize = 373;

pub const HEAD_BYTES: usize = 13;

pub const SLOT_BYTES: usize = 45;

// In the head: own address, both idle limits, last reading.
pub const OWN_AT: usize = 0;

pub const FIRST_LIMIT_AT: usize = 1;

pub const SECOND_LIMIT_AT: usize = 5;

pub const LAST_AT: usize = 9;

// In a slot: the codes of its state and of its kind, then the rest of what was announced.
pub const STATE_AT: usize = 0;

pub const KIND_AT: usize = 1;

pub const SA_AT: usize = 2;

pub const DA_AT: usize = 3;

pub const SESSION_AT: usize = 4;

pub const TOTAL_AT: usize = 5;

pub const SEGMENTS_AT: usize = 9;

pub const MAX_AT: usize = 13;

pub const PGN_AT: usize = 14;

// A session's progress: the last bytes of its slot.
pub const NEXT_AT: usize = 18;

pub const GRANTED_AT: usize = 22;

pub const MARK_AT: usize = 26;

pub const WAIT_AT: usize = 30;

// Of an RTS: which of segments 1 to 64 are in, and which of 65 to 69; how many are not; the requests made for them.
pub const TAKEN_AT: usize = 31;

pub const TAKEN_HIGH_AT: usize = 39;

pub const MISSING_AT: usize = 40;

pub const REQUESTS_AT: usize = 44;

// Where slot i is.
pub fn slot_place(i: usize) -> usize
    requires { i ≤ 8 }
    ensures { result ≡ slot_place i }
{
    HEAD_BYTES + SLOT_BYTES * i
}
