// Whether a transfer is in bounds (02, E2, "Sender's state in bounds").
ghost use Rattle.std.specs.Prelude.{◌≡◌};
ghost use Rattle.transfer.specs.Bounds.{destination_ok, length_ok, offer_ok, course_ok, transfer_ok};

use super::{Course, Offer, Transfer, segments};
use frame::pgn;
use transport::Key;

// A destination that is neither 254 nor the own address, and a session number to 15.
pub fn destination_ok(key: Key) -> bool
    ensures { result ≡ destination_ok key }
{
    key.da.0 != 254 && key.da != key.sa && key.session.0 <= 15
}

pub fn length_ok(len: usize) -> bool
    ensures { result ≡ length_ok len }
{
    1 <= len && len <= 4096
}

// Length, destination, session number and PGN are as an announcement allows; the length first, which takes fewer instructions.
fn offer_ok(o: Offer) -> bool
    ensures { result ≡ offer_ok o }
{
    length_ok(o.total.0 as usize) && destination_ok(o.key) && pgn::is_pgn(o.pgn)
}

// The last granted is at most the count, and the count in a BAM; the next is 1 to one more than the last granted.
fn course_ok(o: Offer, c: Course) -> bool
    ensures { result ≡ course_ok o c }
{
    let count = segments(o.total);
    c.granted.0 <= count
        && (o.key.da.0 != 255 || c.granted.0 == count)
        && 1 <= c.next.0
        && u64::from(c.next.0) <= u64::from(c.granted.0) + 1
}

pub fn transfer_ok(t: Transfer) -> bool
    ensures { result ≡ transfer_ok t }
{
    offer_ok(t.offer) && course_ok(t.offer, t.course)
}
