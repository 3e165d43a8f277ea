// Where the bytes of an answer are (01, "Clock", last paragraph): a group's in the frame, a message's in the store.
ghost use Rattle.std.specs.Prelude.{◌≡◌};
ghost use Rattle.answer.specs.Places.{cut_of, message_cut, place_of, place_bytes};

use super::{Answer, Message};
use frame::ByteCount;

pub const SLOTS: usize = 8;

// Slot i's part of the store starts at i times this.
pub const SLOT_BYTES: usize = 4096;

#[derive(Clone, Copy)]
pub enum Place {
    // a group's data, or its trailer, in the frame
    Group { start: usize, len: usize },
    // a message, from the start of its slot
    Message { slot: usize, total: ByteCount },
}

// The place of the message that an answer hands over. The groups of a frame are the reader's to give, each with its own place.
pub fn place_of(a: Answer) -> Option<Place>
    ensures { result ≡ place_of a }
{
    match a {
        Answer::HandedOver(Message { slot, total, .. }) => Some(Place::Message { slot, total }),
        Answer::Groups(_)
        | Answer::Opened(_)
        | Answer::Taken(_)
        | Answer::Grant(_)
        | Answer::Aborted(_)
        | Answer::Ended(_)
        | Answer::RefusedRts(_)
        | Answer::Refused(_) => None,
    }
}

// The len bytes of s from start on; none where they do not lie in s.
pub fn cut(s: &[u8], start: usize, len: usize) -> &[u8]
    ensures { result.now ≡ cut_of s.now start len }
{
    s.get(start..)
        .and_then(|rest| rest.get(..len))
        .unwrap_or(&[])
}

// The total bytes of a slot; none where they do not lie in one of the eight.
fn cut_message(store: &[u8], slot: usize, total: ByteCount) -> &[u8]
    ensures { result.now ≡ message_cut store.now slot total.0 }
{
    if SLOTS <= slot || 4096 < total.0 {
        return &[];
    }
    cut(store, SLOT_BYTES * slot, total.0 as usize)
}

// The bytes of a place: a part of the frame or of the store; none where there is no place.
pub fn bytes_of<'a>(place: Option<Place>, frame: &'a [u8], store: &'a [u8]) -> &'a [u8]
    ensures { result.now ≡ place_bytes place frame.now store.now }
{
    match place {
        Some(Place::Group { start, len }) => cut(frame, start, len),
        Some(Place::Message { slot, total }) => cut_message(store, slot, total),
        None => &[],
    }
}
