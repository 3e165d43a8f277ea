// An answer as bytes of a fixed layout, for a caller that is not Rattle (01, "Life of a session"): its fields, then the control frame
// that is due.
#![tactic(auto)]

ghost use Rattle.std.specs.Prelude.{◌≡◌, ◌+◌, ◌%◌, ◌≤◌, ◌∷◌, length, Some};
ghost use Rattle.std.proofs.Math.Seq.{paste};
ghost use Rattle.words.specs.Words.{low4};
ghost use Rattle.answer_bytes.specs.Answers.{no_key, keyed, taken_fields, grant_fields, message_fields, ended_fields, session_ended, rejection_fields, refused_fields, fields_of, fields_bytes, outgoing_bytes, response_sent, sent_bytes, answer_bytes};
ghost use Rattle.answer_bytes.specs.Places.{answer_length, sent_place, sent_length};

pub mod ends;
pub mod places;

use answer::sent::response_of;
use answer::{Answer, Ending, Message, Rejection, Taken};
use frame::refusal::Refusal;
use frame::{Address, SessionNumber, refusal};
use octets::copy;
use places::{
    DATA_AT, DATA_BYTES, IDENTIFIER_AT, PGN_AT, SEGMENT_AT, SENT_AT, SENT_BYTES, TOTAL_AT,
};
use record_bytes::slot::kind_byte;
use transport::cts::Cts;
use transport::response::Response;
use transport::{Key, response};
use words::put_word;

// The fields of an answer; those that it does not have are 0. The codes, 1 to 9 here and 10 to 18 in reply_bytes, and the kinds are bytes of
// the C interface (docs/WIRE.md), so they are numbers.
#[derive(Clone, Copy)]
pub struct Fields {
    pub number: u8,
    pub code: u8,
    pub key: Key,
    pub kind: u8,
    // the count of a grant, the slot of a message, or which refusal of number 21 it is
    pub extra: u8,
    pub pgn: u32,
    pub total: u32,
    // the segment taken, the next one of a grant, or the count of a message
    pub segment: u32,
}

// A frame that goes out: its identifier, and the data of a control frame.
#[derive(Clone, Copy)]
pub struct Outgoing {
    pub id: u32,
    pub data: [u8; 12],
}

pub fn no_key() -> Key
    ensures { result ≡ no_key }
{
    Key {
        sa: Address(0),
        da: Address(0),
        session: SessionNumber(0),
    }
}

pub fn keyed_fields(code: u8, number: u8, key: Key) -> Fields
    ensures { result ≡ keyed code number key }
{
    Fields {
        number,
        code,
        key,
        kind: 0,
        extra: 0,
        pgn: 0,
        total: 0,
        segment: 0,
    }
}

fn taken_fields(t: Taken) -> Fields
    ensures { result ≡ taken_fields t }
{
    Fields {
        segment: t.number.0,
        ..keyed_fields(3, 0, t.key)
    }
}

fn grant_fields(c: Cts) -> Fields
    ensures { result ≡ grant_fields c }
{
    Fields {
        kind: 1,
        extra: c.count,
        pgn: c.pgn,
        segment: c.next.0,
        ..keyed_fields(4, 0, c.key)
    }
}

fn message_fields(m: Message) -> Fields
    ensures { result ≡ message_fields m }
{
    Fields {
        kind: kind_byte(m.kind),
        extra: (m.slot % 256) as u8,
        pgn: m.pgn,
        total: m.total.0,
        segment: m.segments.0,
        ..keyed_fields(5, 0, m.key)
    }
}

// A session or a transfer that a refusal has ended, under the code of the end that answers; extra is 0 for a transfer.
pub fn ended_fields(code: u8, extra: u8, e: Ending) -> Fields
    ensures { result ≡ ended_fields code extra e }
{
    Fields {
        kind: kind_byte(e.kind),
        extra,
        pgn: e.pgn,
        ..keyed_fields(code, refusal::number(e.refusal), e.key)
    }
}

// A session's ending says whether its requests were spent.
pub fn session_ended(e: Ending) -> Fields
    ensures { result ≡ session_ended e }
{
    ended_fields(7, refusal::spent(e.refusal), e)
}

fn rejection_fields(j: Rejection) -> Fields
    ensures { result ≡ rejection_fields j }
{
    Fields {
        kind: 1,
        extra: refusal::spent(j.refusal),
        pgn: j.pgn,
        ..keyed_fields(8, refusal::number(j.refusal), j.key)
    }
}

fn refused_fields(n: Refusal) -> Fields
    ensures { result ≡ refused_fields n }
{
    Fields {
        extra: refusal::spent(n),
        ..keyed_fields(9, refusal::number(n), no_key())
    }
}

fn fields_of(a: Answer) -> Fields
    ensures { result ≡ fields_of a }
{
    match a {
        Answer::Groups(_) => keyed_fields(1, 0, no_key()),
        Answer::Opened(k) => keyed_fields(2, 0, k),
        Answer::Taken(t) => taken_fields(t),
        Answer::Grant(c) => grant_fields(c),
        Answer::HandedOver(m) => message_fields(m),
        Answer::Aborted(k) => keyed_fields(6, 0, k),
        Answer::Ended(e) => session_ended(e),
        Answer::RefusedRts(j) => rejection_fields(j),
        Answer::Refused(n) => refused_fields(n),
    }
}

// Writes the fields of an answer that begins at at.
pub fn put_fields(f: Fields, out: &mut [u8], at: usize)
    requires { at + answer_length ≤ length out.old }
    ensures { out.new ≡ paste out.old at (fields_bytes f) sent_place }
{
    let front = [
        f.number,
        f.code,
        f.key.sa.0,
        f.key.da.0,
        f.key.session.0,
        f.kind,
        f.extra,
    ];
    copy(out, at, &front, 0, PGN_AT);
    put_word(out, at + PGN_AT, f.pgn);
    put_word(out, at + TOTAL_AT, f.total);
    put_word(out, at + SEGMENT_AT, f.segment);
}

// What goes out, after the fields: 1 where a frame does, its identifier, a control frame's data. The 1 is a byte of the layout.
pub fn put_frame(sends: u8, id: u32, bytes: [u8; 12], out: &mut [u8], at: usize)
    requires { at + answer_length ≤ length out.old }
    ensures { out.new ≡ paste out.old (at + sent_place) (sends ∷ low4 id bytes) sent_length }
{
    out[at + SENT_AT] = sends;
    put_word(out, at + IDENTIFIER_AT, id);
    copy(out, at + DATA_AT, &bytes, 0, DATA_BYTES);
}

// The frame that goes out, after the fields; zeros where none does.
pub fn put_outgoing(frame: Option<Outgoing>, out: &mut [u8], at: usize)
    requires { at + answer_length ≤ length out.old }
    ensures { out.new ≡ paste out.old (at + sent_place) (outgoing_bytes frame) sent_length }
{
    match frame {
        None => copy(out, at + SENT_AT, &[0u8; SENT_BYTES], 0, SENT_BYTES),
        Some(f) => put_frame(1, f.id, f.data, out, at),
    }
}

fn frame_of(f: Response) -> Outgoing
    ensures { outgoing_bytes (Some result) ≡ response_sent f }
{
    Outgoing {
        id: response::identifier(f),
        data: response::bytes(f),
    }
}

// The control frame that is sent, after the fields; zeros where none is.
pub fn put_sending(s: Option<Response>, out: &mut [u8], at: usize)
    requires { at + answer_length ≤ length out.old }
    ensures { out.new ≡ paste out.old (at + sent_place) (sent_bytes s) sent_length }
{
    put_outgoing(s.map(frame_of), out, at);
}

// Writes an answer over a buffer of ANSWER_BYTES.
pub fn write_answer(a: Answer, out: &mut [u8])
    requires { length out.old ≡ answer_length }
    ensures { out.new ≡ answer_bytes a }
{
    put_fields(fields_of(a), out, 0);
    put_sending(response_of(a), out, 0);
}
