// How many segments of a session are still missing: asked of the record, which stays as it is (02, E6).
ghost use Rattle.std.specs.Prelude.{◌≡◌, true};
ghost use Rattle.lent_record.specs.Ready.{ready_in};
ghost use Rattle.engine.specs.Missing.{missing_in};

use frame::refusal::Refusal;
use lent_record::ready::is_in_bounds;
use lent_record::search::{find_key, state_in};
use record_bytes::places::RECORD_BYTES;
use session::end::missing_in;
use transport::Key;

// Of a record in bounds.
fn missing_ready(buffer: &[u8; RECORD_BYTES], k: Key) -> Result<u64, Refusal>
    requires { ready_in buffer.now 32768 ≡ true }
    ensures { result ≡ missing_in buffer.now k }
{
    match state_in(buffer, find_key(buffer, k)) {
        Some(s) => Ok(missing_in(s)),
        None => Err(Refusal::KeyNotOpen),
    }
}

// The number missing of the key's session.
pub fn missing(buffer: &[u8], k: Key) -> Result<u64, Refusal>
    ensures { result ≡ missing_in buffer.now k }
{
    match buffer.as_array::<RECORD_BYTES>() {
        Some(record) => {
            if !is_in_bounds(record, 32768) {
                return Err(Refusal::OutOfBounds);
            }
            missing_ready(record, k)
        }
        None => Err(Refusal::OutOfBounds),
    }
}
