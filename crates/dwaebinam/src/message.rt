// A message that is handed over, for a program in C (include/dwaebinam.h).
ghost use Rattle.std.specs.Prelude.{◌≡◌};
ghost use Rattle.dwaebinam.specs.Message.{place_in, copied_in};

use answer::place::{Place, bytes_of};
use answer_bytes::places::{ANSWER_BYTES, CODE_AT, EXTRA_AT, TOTAL_AT};
use frame::ByteCount;
use octets::copy;
use words::word_at;

// The code of an answer that hands a message over (docs/WIRE.md).
pub const HANDED_OVER: u8 = 5;

// Where the message of an answer is; none for an answer that hands none over.
#[tactic(auto, unfolding(crate::specs::Message::place_in))]
fn place_in(answer: &[u8]) -> Option<Place>
    ensures { result ≡ place_in answer.now }
{
    if answer.len() != ANSWER_BYTES || answer[CODE_AT] != HANDED_OVER {
        return None;
    }
    Some(Place::Message {
        slot: usize::from(answer[EXTRA_AT]),
        total: ByteCount(word_at(answer, TOTAL_AT)),
    })
}

// Copies the message of an answer into the front of out: its length. 0, with out as it was, where there is none or out is too short.
pub fn dwb_message(answer: &[u8], store: &[u8], out: &mut [u8]) -> usize
    ensures { (result, out.new) ≡ copied_in answer.now store.now out.old }
{
    let bytes = bytes_of(place_in(answer), &[], store);
    let n = bytes.len();
    if out.len() < n {
        return 0;
    }
    copy(out, 0, bytes, 0, n);
    n
}
