// The node's frame call for a program in C that receives and sends (include/dwaebinam.h; 02, E2).
ghost use Rattle.std.specs.Prelude.{◌≡◌};
ghost use Rattle.dwaebinam.specs.Node.{node_framed_in};

use super::export::dwb_frame;
use super::sending::dwb_sender_frame;
use answer_bytes::places::ANSWER_BYTES;
use frame::refusal;
use frame::refusal::Refusal;
use node::is_senders;

// Takes one frame: the call of the end that it is for. 23 with all as it was where the answer's buffer has another length.
#[tactic(auto, unfolding(crate::specs::Node::node_framed_in))]
pub fn dwb_node_frame(
    buffer: &mut [u8],
    id: u32,
    bytes: &[u8],
    store: &mut [u8],
    sender: &mut [u8],
    answer: &mut [u8],
) -> u8
    ensures { (result, (buffer.new, (store.new, (sender.new, answer.new))))
        ≡ node_framed_in buffer.old id bytes.now store.old sender.old answer.old }
{
    if answer.len() != ANSWER_BYTES {
        return refusal::number(Refusal::OutOfBounds);
    }
    if is_senders(buffer, store.len(), sender, id, bytes) {
        return dwb_sender_frame(sender, id, bytes, answer);
    }
    dwb_frame(buffer, id, bytes, store, answer)
}
