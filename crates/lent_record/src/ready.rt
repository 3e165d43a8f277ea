// Whether a lent buffer is a record in bounds: each call asks it first (01, "Numbered refusals", 23).
ghost use Rattle.std.specs.Prelude.{◌≡◌, ℕ, ◌+◌, ◌<◌, ◌≤◌, [], length, get_or, drop};
ghost use Rattle.record_bytes.specs.Layout.{pieces_of, limits_at};
ghost use Rattle.record_bytes.specs.Places.{record_length, own_place, last_place};
ghost use Rattle.lent_record.specs.Ready.{ready_in};
ghost use Rattle.lent_record.specs.Judged.{open_ready, two_ready, pieces_before, pieces_ready};

use super::search::any_before;
use frame::Address;
use progress::wait::IdleLimits;
use receiver::Receiver;
use record_bytes::places::{
    FIRST_LIMIT_AT, HEAD_BYTES, KIND_AT, OWN_AT, RECORD_BYTES, SECOND_LIMIT_AT, SLOT_BYTES, WAIT_AT,
};
use record_bytes::slot::{codes_ok, session_at};
use slots::bounds::{session_ok, values_ok};
use words::word_at;

// The own address. What is lent are bytes: each is below 256.
pub fn own_of(bytes: &[u8]) -> Address
    requires { 1 ≤ length bytes.now }
    ensures { (result.0 ≡ get_or bytes.now own_place 0) × ((i : ℕ) → get_or bytes.now i 0 < 256) }
{
    Address(bytes[OWN_AT])
}

// Both idle limits.
pub fn limits_of(bytes: &[u8]) -> IdleLimits
    requires { last_place ≤ length bytes.now }
    ensures { result ≡ limits_at bytes.now }
{
    IdleLimits {
        first: word_at(bytes, FIRST_LIMIT_AT),
        second: word_at(bytes, SECOND_LIMIT_AT),
    }
}

// Whether slot i, which is not free, has codes, is in bounds, and has no twin before it.
fn open_ready(bytes: &[u8; RECORD_BYTES], i: usize, own: Address) -> bool
    requires { i < 8 }
    ensures { result ≡ open_ready own (get_or (pieces_of bytes.now) i []) (pieces_before bytes.now i) }
{
    let at = HEAD_BYTES + SLOT_BYTES * i;
    if !codes_ok(bytes[at], bytes[at + KIND_AT], bytes[at + WAIT_AT]) {
        return false;
    }
    let end = at + SLOT_BYTES;
    let s = session_at(&bytes[at..end]);
    if !session_ok(s, own) {
        return false;
    }
    !any_before(bytes, i, s.announced.key)
}

// Slots i and i + 1: a free one costs one byte's test.
fn two_ready(bytes: &[u8; RECORD_BYTES], i: usize, own: Address) -> bool
    requires { i < 7 }
    ensures { result ≡ two_ready own bytes.now i }
{
    let at = HEAD_BYTES + SLOT_BYTES * i;
    if bytes[at] != 0 {
        if !open_ready(bytes, i, own) {
            return false;
        }
    }
    if bytes[at + SLOT_BYTES] == 0 {
        return true;
    }
    open_ready(bytes, i + 1, own)
}

// All eight, by twos and not in a loop: the place of each slot is then known where this is compiled.
fn slots_ready(bytes: &[u8; RECORD_BYTES], own: Address) -> bool
    ensures { result ≡ pieces_ready own [] (pieces_of bytes.now) }
{
    if !two_ready(bytes, 0, own) {
        return false;
    }
    if !two_ready(bytes, 2, own) {
        return false;
    }
    if !two_ready(bytes, 4, own) {
        return false;
    }
    two_ready(bytes, 6, own)
}

// Whether what has a record's length is a record in bounds, and a store of so many bytes has the right length.
pub fn is_in_bounds(bytes: &[u8; RECORD_BYTES], store: usize) -> bool
    ensures { result ≡ ready_in bytes.now store }
{
    if store != Receiver::SLOTS * Receiver::SLOT_BYTES {
        return false;
    }
    let own = Address(bytes[OWN_AT]);
    if !values_ok(own, limits_of(bytes)) {
        return false;
    }
    slots_ready(bytes, own)
}

// The same of any buffer.
pub fn is_ready(bytes: &[u8], store: usize) -> bool
    ensures { result ≡ ready_in bytes.now store }
{
    match bytes.as_array::<RECORD_BYTES>() {
        Some(record) => is_in_bounds(record, store),
        None => false,
    }
}
