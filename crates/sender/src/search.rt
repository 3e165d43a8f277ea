// Searches over the transfers in a record's bytes.
ghost use Rattle.std.specs.Prelude.{◌≡◌, false, not, ◌≤◌, ◌<◌, length, get_or, drop, None, Some};
ghost use Rattle.slots.specs.Slots.{Within};
ghost use Rattle.sender_bytes.specs.Places.{record_length};
ghost use Rattle.sender_bytes.specs.Layout.{transfers_at};
ghost use Rattle.sender.specs.Transfers.{is_free, holds, first_free, key_place, slot_for, state_in, OpenAt, any_holds};

use frame::Address;
use sender_bytes::layout::{state_at, transfer_at};
use sender_bytes::places::{
    DA_AT, OWN_AT, RECORD_BYTES, SESSION_AT, TRANSFER_BYTES, TRANSFERS, transfer_place,
};
use transfer::Transfer;
use transport::Key;

#[tactic(auto, using(crate::specs::Held::freed))]
fn is_free(bytes: &[u8; RECORD_BYTES], i: usize) -> bool
    requires { i < 4 }
    ensures { result ≡ is_free (get_or (transfers_at bytes.now) i None) }
{
    bytes[transfer_place(i)] != 1
}

// Whether transfer i is open under the key. Its SA is the record's own address.
#[tactic(auto, using(crate::specs::Held::not_held, crate::specs::Held::held))]
fn holds_key(bytes: &[u8; RECORD_BYTES], i: usize, k: Key) -> bool
    requires { i < 4 }
    ensures { result ≡ holds k (get_or (transfers_at bytes.now) i None) }
{
    let at = transfer_place(i);
    if bytes[at] != 1 {
        return false;
    }
    (bytes[OWN_AT] == k.sa.0)
        & (bytes[at + DA_AT] == k.da.0)
        & (bytes[at + SESSION_AT] == k.session.0)
}

// Whether a transfer from the one given on is open under the key.
pub fn any_holds(bytes: &[u8; RECORD_BYTES], from: usize, k: Key) -> bool
    requires { from ≤ 4 }
    ensures { result ≡ any_holds k (drop from (transfers_at bytes.now)) }
{
    (from..TRANSFERS).any(|i| holds_key(bytes, i, k))
}

// The lowest free one.
fn find_free(bytes: &[u8; RECORD_BYTES]) -> Option<usize>
    ensures { (result ≡ first_free (transfers_at bytes.now)) × Within result 4 }
{
    (0..TRANSFERS).find(|&i| is_free(bytes, i))
}

// The one that is open under the key.
pub fn find_key(bytes: &[u8; RECORD_BYTES], k: Key) -> Option<usize>
    ensures { (result ≡ key_place k (transfers_at bytes.now)) × Within result 4 × OpenAt result (transfers_at bytes.now) }
{
    (0..TRANSFERS).find(|&i| holds_key(bytes, i, k))
}

// The one for a key: the one that is open under it, else the lowest that is free.
pub fn slot_for(bytes: &[u8; RECORD_BYTES], k: Key) -> Option<usize>
    ensures { (result ≡ slot_for k (transfers_at bytes.now)) × Within result 4 }
{
    find_key(bytes, k).or_else(|| find_free(bytes))
}

// Transfer i.
pub fn transfer_in(bytes: &[u8; RECORD_BYTES], i: usize) -> Option<Transfer>
    requires { i < 4 }
    ensures { result ≡ get_or (transfers_at bytes.now) i None }
{
    let own = Address(bytes[OWN_AT]);
    let at = transfer_place(i);
    state_at(own, &bytes[at..at + TRANSFER_BYTES])
}

// Transfer i, which is open.
fn open_in(bytes: &[u8; RECORD_BYTES], i: usize) -> Transfer
    requires { (i < 4) × (is_free (get_or (transfers_at bytes.now) i None) ≡ false) }
    ensures { Some result ≡ get_or (transfers_at bytes.now) i None }
{
    let own = Address(bytes[OWN_AT]);
    let at = transfer_place(i);
    transfer_at(own, &bytes[at..at + TRANSFER_BYTES])
}

// What is known of the key that it was found for by find_key: a transfer that was found is open, and its first byte is not asked again.
pub fn held_in(bytes: &[u8; RECORD_BYTES], f: Option<usize>) -> Option<Transfer>
    requires { Within f 4 × OpenAt f (transfers_at bytes.now) }
    ensures { result ≡ state_in f (transfers_at bytes.now) }
{
    f.map(|i| open_in(bytes, i))
}

// What is known of the key that it was found for.
pub fn state_in(bytes: &[u8; RECORD_BYTES], f: Option<usize>) -> Option<Transfer>
    requires { Within f 4 }
    ensures { result ≡ state_in f (transfers_at bytes.now) }
{
    f.and_then(|i| transfer_in(bytes, i))
}
