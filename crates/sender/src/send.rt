// The frame that a reply sends, laid into a lent output (docs/WIRE.md).
ghost use Rattle.std.specs.Prelude.{◌≡◌, ℕ, ◌+◌, ◌-◌, ◌*◌, ◌≤◌, List, length, Some};
ghost use Rattle.transport.specs.declared.Key.{Key};
ghost use Rattle.transport.specs.Heads.{laid_in};
ghost use Rattle.transport.specs.Segments.{segment_bytes};
ghost use Rattle.transfer.specs.Sends.{piece_of, segment_wire};
ghost use Rattle.transfer.specs.declared.Reply.TheVariants as reply;
ghost use Rattle.sender.specs.Calls.{Announces, Sendable, quietly, sent_by, sent_in};

use super::{Laid, Sent};
use frame::SegmentNumber;
use octets::copy;
use transfer::{Reply, announcement_of, status_of};
use transport::Key;
use transport::announcement::announcement_bytes;
use transport::eoms::status_bytes;
use transport::head::{data_id, to_responder};
use transport::segment::{write_segment, write_whole};

// Nothing goes out.
pub fn quiet(reply: Reply) -> Sent
    ensures { result ≡ quietly reply }
{
    Sent { reply, frame: None }
}

// A control frame.
fn send_control(out: &mut [u8], reply: Reply, id: u32, bytes: [u8; 12]) -> Sent
    requires { length out.old ≡ 64 }
    ensures { (result, out.new) ≡ sent_by (Some (id, bytes)) reply out.old }
{
    copy(out, 0, &bytes, 0, 12);
    Sent {
        reply,
        frame: Some(Laid { id, len: 12 }),
    }
}

// Lays the data frame of segment n into out: its length. Most segments are whole.
#[tactic(auto, unfolding(session::specs::Segments::due_of), using(crate::proofs::Pieces::piece_laid))]
fn lay_segment(out: &mut [u8], key: Key, n: SegmentNumber, message: &[u8]) -> usize
    requires { (length out.old ≡ 64) × Sendable message.now (reply.Segment n) }
    ensures { (result, out.new) ≡ laid_in (segment_bytes key n.0 (piece_of message.now n.0)) out.old }
{
    let from = 60 * (n.0 as usize - 1);
    let left = message.len() - from;
    if 60 <= left {
        return write_whole(out, key, n, message, from);
    }
    write_segment(out, key, n, message, from, left)
}

// The data frame of segment n.
fn send_segment(out: &mut [u8], key: Key, n: SegmentNumber, message: &[u8]) -> Sent
    requires { (length out.old ≡ 64) × Sendable message.now (reply.Segment n) }
    ensures { (result, out.new) ≡ sent_by (Some (segment_wire key message.now n.0)) (reply.Segment n) out.old }
{
    let len = lay_segment(out, key, n, message);
    Sent {
        reply: Reply::Segment(n),
        frame: Some(Laid {
            id: data_id(key),
            len,
        }),
    }
}

// What goes out at an announcement: the RTS or BAM.
pub fn send_announcement(out: &mut [u8], reply: Reply) -> Sent
    requires { (length out.old ≡ 64) × Announces reply }
    ensures { (k : Key) → (m : List ℕ) → (result, out.new) ≡ sent_in k m reply out.old }
{
    match reply {
        Reply::Announced(o) => send_control(
            out,
            reply,
            to_responder(o.key),
            announcement_bytes(o.key, announcement_of(o)),
        ),
        _ => quiet(reply),
    }
}

// What goes out of a transfer of the key that is asked for its next frame.
pub fn send(out: &mut [u8], key: Key, message: &[u8], reply: Reply) -> Sent
    requires { (length out.old ≡ 64) × Sendable message.now reply }
    ensures { (result, out.new) ≡ sent_in key message.now reply out.old }
{
    match reply {
        Reply::Segment(n) => send_segment(out, key, n, message),
        Reply::Status(o) => send_control(
            out,
            reply,
            to_responder(o.key),
            status_bytes(o.key, status_of(o)),
        ),
        _ => quiet(reply),
    }
}
