// What is where in a sender's record: the lengths and the places, named once.
ghost use Rattle.std.specs.Prelude.{◌≡◌, ◌≤◌};
ghost use Rattle.sender_bytes.specs.Places.{transfer_place};

pub const TRANSFERS: usize = 4;

// The record, its head, and a transfer.
pub const RECORD_BYTES: usize = 113;

pub const HEAD_BYTES: usize = 9;

pub const TRANSFER_BYTES: usize = 26;

// In the head: own address, idle limit, last reading.
pub const OWN_AT: usize = 0;

pub const LIMIT_AT: usize = 1;

pub const LAST_AT: usize = 5;

// In a transfer: whether it is open, then what was announced.
pub const STATE_AT: usize = 0;

pub const DA_AT: usize = 1;

pub const SESSION_AT: usize = 2;

pub const TOTAL_AT: usize = 3;

pub const PGN_AT: usize = 7;

// How far it has come: the rest of its bytes.
pub const COMPLETE_AT: usize = 11;

pub const REPORTED_AT: usize = 12;

pub const OWED_AT: usize = 13;

pub const NEXT_AT: usize = 14;

pub const GRANTED_AT: usize = 18;

pub const MARK_AT: usize = 22;

// Where transfer i is.
pub fn transfer_place(i: usize) -> usize
    requires { i ≤ 4 }
    ensures { result ≡ transfer_place i }
{
    HEAD_BYTES + TRANSFER_BYTES * i
}
