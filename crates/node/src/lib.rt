// A receiver and a sender at one address: a frame goes to the end that it is for (02, E2).
#![tactic(auto)]

ghost use Rattle.std.specs.Prelude.{◌≡◌};
ghost use Rattle.node.specs.Node.{is_responders, is_senders, node_in};

use answer::Answer;
use frame::identifier;
use transfer::Reply;
use transport::control::is_response;

// What a frame answers, and which end answered.
#[derive(Clone, Copy)]
pub enum NodeAnswer {
    Receiver(Answer),
    Sender(Reply),
}

// Whether a frame is for the sender: a CTS, an EOMA, or an Abort in the responder's role, in a control frame of 12 bytes.
pub fn is_responders(id: u32, bytes: &[u8]) -> bool
    ensures { result ≡ is_responders id bytes.now }
{
    bytes.as_array::<12>().is_some_and(|frame| (identifier::read(id).pf == 77) & is_response(frame))
}

// Whether a frame becomes the sender's call: one for it, or one that its record must refuse, where the receiver's record and store are in
// bounds. A receiver's frame asks nothing of the receiver here: its own call does.
#[tactic(auto, unfolding(crate::specs::Node::is_senders))]
pub fn is_senders(receiver: &[u8], store: usize, sender: &[u8], id: u32, bytes: &[u8]) -> bool
    ensures { result ≡ is_senders receiver.now store sender.now id bytes.now }
{
    (!sender::ready::is_ready(sender) || is_responders(id, bytes))
        && lent_record::ready::is_ready(receiver, store)
}

// Takes one frame: the call of the end that it is for, with its 23.
pub fn take_frame(
    receiver: &mut [u8],
    store: &mut [u8],
    sender: &mut [u8],
    id: u32,
    bytes: &[u8],
) -> NodeAnswer
    ensures { (result, (receiver.new, (store.new, sender.new)))
        ≡ node_in receiver.old store.old sender.old id bytes.now }
{
    if is_senders(receiver, store.len(), sender, id, bytes) {
        return NodeAnswer::Sender(sender::hear::take_frame(sender, id, bytes));
    }
    NodeAnswer::Receiver(engine::call::take_frame(receiver, id, bytes, store))
}
