// The control frame that an answer sends (01, "Life of a session").
ghost use Rattle.std.specs.Prelude.{◌≡◌};
ghost use Rattle.answer.specs.Answers.{abort_for, ending_sends, message_sends, answer_sends, end_sends};

use super::{Answer, Ending, Message};
use frame::refusal::Refusal;
use transport::abort::Abort;
use transport::eoma::Eoma;
use transport::reason::wire_reason;
use transport::response::Response;
use transport::{Key, Kind};

fn abort_for(key: Key, n: Refusal, pgn: u32) -> Response
    ensures { result ≡ abort_for key n pgn }
{
    Response::Abort(Abort {
        key,
        reason: wire_reason(n),
        pgn,
    })
}

// An RTS session that ends sends Abort, a BAM nothing.
fn ending_sends(e: Ending) -> Option<Response>
    ensures { result ≡ ending_sends e }
{
    match e.kind {
        Kind::Rts => Some(abort_for(e.key, e.refusal, e.pgn)),
        Kind::Bam => None,
    }
}

// A message by RTS is acknowledged, a BAM not.
fn message_sends(m: Message) -> Option<Response>
    ensures { result ≡ message_sends m }
{
    match m.kind {
        Kind::Rts => Some(Response::Eoma(Eoma {
            key: m.key,
            total: m.total,
            segments: m.segments,
            pgn: m.pgn,
        })),
        Kind::Bam => None,
    }
}

// The frame that an answer sends.
pub fn response_of(a: Answer) -> Option<Response>
    ensures { result ≡ answer_sends a }
{
    match a {
        Answer::Grant(c) => Some(Response::Cts(c)),
        Answer::HandedOver(m) => message_sends(m),
        Answer::Ended(e) => ending_sends(e),
        Answer::RefusedRts(j) => Some(abort_for(j.key, j.refusal, j.pgn)),
        Answer::Groups(_)
        | Answer::Opened(_)
        | Answer::Taken(_)
        | Answer::Aborted(_)
        | Answer::Refused(_) => None,
    }
}

// The frame that a session's end at a reading sends.
pub fn response_of_end(e: Option<Ending>) -> Option<Response>
    ensures { result ≡ end_sends e }
{
    e.and_then(ending_sends)
}
