// Whether a lent buffer is a sender's record in bounds: each call asks it first (02, E2, "Sender's state in bounds").
ghost use Rattle.std.specs.Prelude.{◌≡◌, ◌+◌, ◌<◌, length, get_or, drop, None};
ghost use Rattle.sender_bytes.specs.Places.{record_length};
ghost use Rattle.sender_bytes.specs.Layout.{transfers_at};
ghost use Rattle.sender.specs.Transfers.{one_ok, transfers_ok, ready_in};

use super::search::{any_holds, transfer_in};
use frame::Address;
use sender_bytes::places::{LIMIT_AT, OWN_AT, RECORD_BYTES, TRANSFERS};
use slots::bounds::opening_ok;
use transfer::bounds::transfer_ok;
use words::word_at;

// Whether transfer i is free, or in bounds with no twin after it.
fn one_ready(bytes: &[u8; RECORD_BYTES], i: usize) -> bool
    requires { i < 4 }
    ensures { result ≡ one_ok (get_or (transfers_at bytes.now) i None) (drop (i + 1) (transfers_at bytes.now)) }
{
    transfer_in(bytes, i).is_none_or(|t| transfer_ok(t) && !any_holds(bytes, i + 1, t.offer.key))
}

fn all_ready(bytes: &[u8; RECORD_BYTES]) -> bool
    ensures { result ≡ transfers_ok (transfers_at bytes.now) }
{
    (0..TRANSFERS).all(|i| one_ready(bytes, i))
}

// Whether what has a record's length is one in bounds.
#[tactic(auto, unfolding(crate::specs::Transfers::ready_in, crate::specs::Transfers::in_bounds))]
pub fn is_in_bounds(bytes: &[u8; RECORD_BYTES]) -> bool
    ensures { result ≡ ready_in bytes.now }
{
    opening_ok(Address(bytes[OWN_AT]), word_at(bytes, LIMIT_AT)) && all_ready(bytes)
}

#[tactic(auto, unfolding(crate::specs::Transfers::ready_in))]
pub fn is_ready(bytes: &[u8]) -> bool
    ensures { result ≡ ready_in bytes.now }
{
    match bytes.as_array::<RECORD_BYTES>() {
        None => false,
        Some(record) => is_in_bounds(record),
    }
}
