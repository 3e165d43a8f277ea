// A sender's reply as bytes, in the layout of an answer (answer_bytes), for a caller that is not Rattle. Its codes are its own, 10 to 18, so
// that the code alone says which end answered: numbers of the C interface (docs/WIRE.md).
#![tactic(auto)]

ghost use Rattle.std.specs.Prelude.{◌≡◌, ◌%◌, length};
ghost use Rattle.answer_bytes.specs.Places.{answer_length};
ghost use Rattle.reply_bytes.specs.Replies.{offer_fields, segment_fields, laid_length, reply_fields, reply_number, reply_bytes, given_bytes};

pub mod ends;
pub mod goes;

use answer_bytes::{Fields, ended_fields, keyed_fields, no_key, put_fields, put_outgoing};
use frame::{SegmentNumber, refusal};
use goes::{going_of_reply, going_of_sent};
use record_bytes::slot::kind_byte;
use sender::{Laid, Sent};
use transfer::{Offer, Reply, kind_of, segments};

// Extra is the frame's length, at most 64.
fn offer_fields(code: u8, o: Offer, len: usize) -> Fields
    ensures { result ≡ offer_fields code o len }
{
    Fields {
        kind: kind_byte(kind_of(o.key.da)),
        extra: (len % 256) as u8,
        pgn: o.pgn,
        total: o.total.0,
        segment: segments(o.total),
        ..keyed_fields(code, 0, o.key)
    }
}

fn segment_fields(n: SegmentNumber, len: usize) -> Fields
    ensures { result ≡ segment_fields n.0 len }
{
    Fields {
        extra: (len % 256) as u8,
        segment: n.0,
        ..keyed_fields(11, 0, no_key())
    }
}

fn reply_fields(r: Reply, len: usize) -> Fields
    ensures { result ≡ reply_fields r len }
{
    match r {
        Reply::Announced(o) => offer_fields(10, o, len),
        Reply::Segment(n) => segment_fields(n, len),
        Reply::Status(o) => offer_fields(12, o, len),
        Reply::NothingDue => keyed_fields(13, 0, no_key()),
        Reply::Granted => keyed_fields(14, 0, no_key()),
        Reply::Acknowledged(k) => keyed_fields(15, 0, k),
        Reply::Aborted(k) => keyed_fields(16, 0, k),
        Reply::Ended(e) => ended_fields(17, 0, e),
        Reply::Refused(n) => keyed_fields(18, refusal::number(n), no_key()),
    }
}

// The refusal's number, 0 where nothing is refused.
pub fn number(r: Reply) -> u8
    ensures { result ≡ reply_number r }
{
    match r {
        Reply::Ended(e) => refusal::number(e.refusal),
        Reply::Refused(n) => refusal::number(n),
        _ => 0,
    }
}

// Writes what a control frame was answered over a buffer of ANSWER_BYTES.
pub fn write_reply(r: Reply, out: &mut [u8])
    requires { length out.old ≡ answer_length }
    ensures { out.new ≡ reply_bytes r }
{
    put_fields(reply_fields(r, 0), out, 0);
    put_outgoing(going_of_reply(r), out, 0);
}

// The length of the frame that goes out, 0 where none does.
fn laid_length(frame: Option<Laid>) -> usize
    ensures { result ≡ laid_length frame }
{
    frame.map_or(0, |f| f.len)
}

// Writes what an announcement or a call for a frame was answered over a buffer of ANSWER_BYTES.
pub fn write_sent(s: Sent, out: &mut [u8])
    requires { length out.old ≡ answer_length }
    ensures { out.new ≡ given_bytes s }
{
    put_fields(reply_fields(s.reply, laid_length(s.frame)), out, 0);
    put_outgoing(going_of_sent(s), out, 0);
}
