// A message announced (02, E2, "Refusals to an announcement").
ghost use Rattle.std.specs.Prelude.{◌≡◌};
ghost use Rattle.transfer.specs.Transfers.{first_granted, transfer_of};
ghost use Rattle.transfer.specs.Bounds.{destination_ok, length_ok};
ghost use Rattle.transfer.specs.Decisions.{for_key, announced_to};

use super::bounds::{destination_ok, length_ok};
use super::{Course, Offer, Reply, Step, Transfer, kind_of, segments};
use frame::refusal::Refusal;
use frame::{ByteCount, SegmentNumber, pgn};
use session::Change;
use transport::{Key, Kind};

// An RTS waits for its first CTS; a BAM may send all.
fn first_granted(o: Offer) -> u32
    ensures { result ≡ first_granted o }
{
    match kind_of(o.key.da) {
        Kind::Rts => 0,
        Kind::Bam => segments(o.total),
    }
}

// The transfer of an announcement that has just gone out.
fn open_transfer(offer: Offer, last: u32) -> Transfer
    ensures { result ≡ transfer_of offer last }
{
    Transfer {
        offer,
        course: Course {
            next: SegmentNumber(1),
            granted: SegmentNumber(first_granted(offer)),
            complete: false,
            reported: false,
            owed: false,
            mark: last,
        },
    }
}

// By what is open: 14, 25, else it goes out.
fn for_key(x: Option<Transfer>, room: bool, o: Offer, last: u32) -> Step
    ensures { result ≡ for_key x room o last }
{
    match x {
        Some(_) => Step::refused(Refusal::KeyOpen),
        None if !room => Step::refused(Refusal::TransfersFull),
        None => Step {
            change: Change::Opens(open_transfer(o, last)),
            reply: Reply::Announced(o),
        },
    }
}

// A message of len bytes announced under the key: 3, 8, 26, then by what is open; room says whether a transfer is free.
#[tactic(auto, unfolding(crate::specs::Decisions::announced_to))]
pub fn announce(x: Option<Transfer>, room: bool, key: Key, pgn: u32, len: usize, last: u32) -> Step
    ensures { result ≡ announced_to x room key pgn len last }
{
    if !destination_ok(key) {
        return Step::refused(Refusal::NotTaken);
    }
    if !pgn::is_pgn(pgn) {
        return Step::refused(Refusal::PgnForm);
    }
    if !length_ok(len) {
        return Step::refused(Refusal::MessageLength);
    }
    let offer = Offer {
        key,
        total: ByteCount(len as u32),
        pgn,
    };
    for_key(x, room, offer, last)
}
