// The sender's calls for a program in C (include/dwaebinam.h; 02, E2).
ghost use Rattle.std.specs.Prelude.{◌≡◌};
ghost use Rattle.dwaebinam.specs.Sending.{sender_opened_in, announced_in, asked_in, heard_in, sender_read_in};

use answer::acceptance_number;
use answer_bytes::places::ANSWER_BYTES;
use frame::refusal::Refusal;
use frame::{Address, SessionNumber, refusal};
use reply_bytes::ends::{TRANSFER_ANSWERS_BYTES, write_ends};
use reply_bytes::{number, write_reply, write_sent};
use sender::announce::announce;
use sender::ask::next_frame;
use sender::hear::take_frame;
use sender::open::open;
use sender::reading::take_reading;
use sender_bytes::places::TRANSFERS;

// Opens a sender in a buffer of a record's length. An opening that is refused with 23 gives a record that every call refuses; a buffer of
// another length stays as it was.
pub fn dwb_sender_open(buffer: &mut [u8], own: u8, limit: u32, reading: u32) -> u8
    ensures { (result, buffer.new) ≡ sender_opened_in own limit reading buffer.old }
{
    acceptance_number(open(buffer, Address(own), limit, reading))
}

// Announces a message: the RTS or BAM is laid into out. 23 with all as it was where the answer's buffer has another length.
#[tactic(auto, unfolding(crate::specs::Sending::announced_in))]
pub fn dwb_announce(
    buffer: &mut [u8],
    da: u8,
    session: u8,
    pgn: u32,
    message: &[u8],
    out: &mut [u8],
    answer: &mut [u8],
) -> u8
    ensures { (result, (buffer.new, (out.new, answer.new)))
        ≡ announced_in buffer.old da session pgn message.now out.old answer.old }
{
    if answer.len() != ANSWER_BYTES {
        return refusal::number(Refusal::OutOfBounds);
    }
    let sent = announce(
        buffer,
        Address(da),
        SessionNumber(session),
        pgn,
        message,
        out,
    );
    write_sent(sent, answer);
    number(sent.reply)
}

// The next frame of a transfer, laid into out, or nothing due.
#[tactic(auto, unfolding(crate::specs::Sending::asked_in))]
pub fn dwb_next_frame(
    buffer: &mut [u8],
    da: u8,
    session: u8,
    message: &[u8],
    out: &mut [u8],
    answer: &mut [u8],
) -> u8
    ensures { (result, (buffer.new, (out.new, answer.new)))
        ≡ asked_in buffer.old da session message.now out.old answer.old }
{
    if answer.len() != ANSWER_BYTES {
        return refusal::number(Refusal::OutOfBounds);
    }
    let sent = next_frame(buffer, Address(da), SessionNumber(session), message, out);
    write_sent(sent, answer);
    number(sent.reply)
}

// Takes one control frame where there is no receiver beside the sender.
#[tactic(auto, unfolding(crate::specs::Sending::heard_in))]
pub fn dwb_sender_frame(buffer: &mut [u8], id: u32, bytes: &[u8], answer: &mut [u8]) -> u8
    ensures { (result, (buffer.new, answer.new)) ≡ heard_in buffer.old id bytes.now answer.old }
{
    if answer.len() != ANSWER_BYTES {
        return refusal::number(Refusal::OutOfBounds);
    }
    let reply = take_frame(buffer, id, bytes);
    write_reply(reply, answer);
    number(reply)
}

// Takes one reading: an answer for each transfer that has ended.
#[tactic(auto, unfolding(crate::specs::Sending::sender_read_in))]
pub fn dwb_sender_reading(buffer: &mut [u8], reading: u32, answers: &mut [u8]) -> u8
    ensures { (result, (buffer.new, answers.new)) ≡ sender_read_in buffer.old reading answers.old }
{
    if answers.len() != TRANSFER_ANSWERS_BYTES {
        return refusal::number(Refusal::OutOfBounds);
    }
    let taken = take_reading(buffer, reading);
    write_ends(taken.unwrap_or([None; TRANSFERS]), answers);
    acceptance_number(taken.map(|_| ()))
}
