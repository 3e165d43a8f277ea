// A transfer read off its bytes.
ghost use Rattle.std.specs.Prelude.{◌≡◌, length};
ghost use Rattle.sender_bytes.specs.Layout.{transfer_at, state_at};
ghost use Rattle.sender_bytes.specs.Places.{transfer_length};

use super::places::{
    COMPLETE_AT, DA_AT, GRANTED_AT, MARK_AT, NEXT_AT, OWED_AT, PGN_AT, REPORTED_AT, SESSION_AT,
    STATE_AT, TOTAL_AT,
};
use frame::{Address, ByteCount, SegmentNumber, SessionNumber};
use transfer::{Course, Offer, Transfer};
use transport::Key;
use words::word_at;

// The transfer that the piece of an open one says. Its SA is the record's own address.
pub fn transfer_at(own: Address, piece: &[u8]) -> Transfer
    requires { length piece.now ≡ transfer_length }
    ensures { result ≡ transfer_at own piece.now }
{
    Transfer {
        offer: Offer {
            key: Key {
                sa: own,
                da: Address(piece[DA_AT]),
                session: SessionNumber(piece[SESSION_AT]),
            },
            total: ByteCount(word_at(piece, TOTAL_AT)),
            pgn: word_at(piece, PGN_AT),
        },
        course: Course {
            next: SegmentNumber(word_at(piece, NEXT_AT)),
            granted: SegmentNumber(word_at(piece, GRANTED_AT)),
            complete: piece[COMPLETE_AT] == 1,
            reported: piece[REPORTED_AT] == 1,
            owed: piece[OWED_AT] == 1,
            mark: word_at(piece, MARK_AT),
        },
    }
}

// What a piece says.
pub fn state_at(own: Address, piece: &[u8]) -> Option<Transfer>
    requires { length piece.now ≡ transfer_length }
    ensures { result ≡ state_at own piece.now }
{
    (piece[STATE_AT] == 1).then(|| transfer_at(own, piece))
}
