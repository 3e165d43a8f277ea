// The sender's calls, and the node's.
ghost use Rattle.std.specs.Prelude.{◌≡◌};
ghost use Rattle.dwaebinam.specs.Node.{node_framed_in};
ghost use Rattle.dwaebinam.specs.Sending.{sender_opened_in, announced_in, asked_in, heard_in, sender_read_in};

use dwaebinam::{both, sending};

#[unsafe(no_mangle)]
pub extern "C" fn dwb_sender_open(buffer: &mut [u8], own: u8, limit: u32, reading: u32) -> u8
    ensures { (result, buffer.new) ≡ sender_opened_in own limit reading buffer.old }
{
    sending::dwb_sender_open(buffer, own, limit, reading)
}

#[unsafe(no_mangle)]
pub extern "C" fn dwb_announce(
    buffer: &mut [u8],
    da: u8,
    session: u8,
    pgn: u32,
    message: &[u8],
    out: &mut [u8],
    answer: &mut [u8],
) -> u8
    ensures { (result, (buffer.new, (out.new, answer.new)))
        ≡ announced_in buffer.old da session pgn message.now out.old answer.old }
{
    sending::dwb_announce(buffer, da, session, pgn, message, out, answer)
}

#[unsafe(no_mangle)]
pub extern "C" fn dwb_next_frame(
    buffer: &mut [u8],
    da: u8,
    session: u8,
    message: &[u8],
    out: &mut [u8],
    answer: &mut [u8],
) -> u8
    ensures { (result, (buffer.new, (out.new, answer.new)))
        ≡ asked_in buffer.old da session message.now out.old answer.old }
{
    sending::dwb_next_frame(buffer, da, session, message, out, answer)
}

#[unsafe(no_mangle)]
pub extern "C" fn dwb_sender_frame(
    buffer: &mut [u8],
    id: u32,
    bytes: &[u8],
    answer: &mut [u8],
) -> u8
    ensures { (result, (buffer.new, answer.new)) ≡ heard_in buffer.old id bytes.now answer.old }
{
    sending::dwb_sender_frame(buffer, id, bytes, answer)
}

#[unsafe(no_mangle)]
pub extern "C" fn dwb_sender_reading(buffer: &mut [u8], reading: u32, answers: &mut [u8]) -> u8
    ensures { (result, (buffer.new, answers.new)) ≡ sender_read_in buffer.old reading answers.old }
{
    sending::dwb_sender_reading(buffer, reading, answers)
}

#[unsafe(no_mangle)]
pub extern "C" fn dwb_node_frame(
    buffer: &mut [u8],
    id: u32,
    bytes: &[u8],
    store: &mut [u8],
    sender: &mut [u8],
    answer: &mut [u8],
) -> u8
    ensures { (result, (buffer.new, (store.new, (sender.new, answer.new))))
        ≡ node_framed_in buffer.old id bytes.now store.old sender.old answer.old }
{
    both::dwb_node_frame(buffer, id, bytes, store, sender, answer)
}
