// The frame that goes out, after the fields of a sender's reply.
ghost use Rattle.std.specs.Prelude.{◌≡◌};
ghost use Rattle.transfer.specs.Sends.{ending_wire};
ghost use Rattle.answer_bytes.specs.Answers.{outgoing_bytes};
ghost use Rattle.reply_bytes.specs.Replies.{abort_of, wire_bytes, laid_bytes};

use answer::Ending;
use answer_bytes::Outgoing;
use sender::Sent;
use transfer::Reply;
use transport::Kind;
use transport::abort::{Abort, Role, abort_bytes};
use transport::head::to_responder;
use transport::reason::wire_reason;

// The Abort of a transfer that 22 or 27 has ended, in the originator's role; a BAM ends without one.
pub fn going_of_end(e: Ending) -> Option<Outgoing>
    ensures { outgoing_bytes result ≡ wire_bytes (ending_wire e) }
{
    match e.kind {
        Kind::Rts => Some(Outgoing {
            id: to_responder(e.key),
            data: abort_bytes(
                Role::Originator,
                Abort {
                    key: e.key,
                    reason: wire_reason(e.refusal),
                    pgn: e.pgn,
                },
            ),
        }),
        Kind::Bam => None,
    }
}

pub fn going_of_reply(r: Reply) -> Option<Outgoing>
    ensures { outgoing_bytes result ≡ wire_bytes (abort_of r) }
{
    match r {
        Reply::Ended(e) => going_of_end(e),
        _ => None,
    }
}

// A frame in the lent output, of which the answer says the identifier.
pub fn going_of_sent(s: Sent) -> Option<Outgoing>
    ensures { outgoing_bytes result ≡ laid_bytes s.frame }
{
    s.frame.map(|f| Outgoing {
        id: f.id,
        data: [0u8; 12],
    })
}
