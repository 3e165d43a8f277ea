// What a transfer decided, written into the record's bytes: only what it changes.
ghost use Rattle.std.specs.Prelude.{◌≡◌, length};
ghost use Rattle.slots.specs.Slots.{Within};
ghost use Rattle.sender_bytes.specs.Places.{record_length};
ghost use Rattle.sender.specs.Calls.{applied_in};

use sender_bytes::places::RECORD_BYTES;
use sender_bytes::put::put_change;
use transfer::{Reply, Step};

// A step of the transfer that was found; where none was, nothing is written.
pub fn apply(buffer: &mut [u8; RECORD_BYTES], f: Option<usize>, step: Step) -> Reply
    requires { Within f 4 }
    ensures { (result ≡ step.reply) × (buffer.new ≡ applied_in buffer.old f step.change) }
{
    if let Some(i) = f {
        put_change(buffer, i, step.change);
    }
    step.reply
}
