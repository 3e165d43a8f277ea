// A control frame taken by the sender (02, E2, "to a control frame").
ghost use Rattle.std.specs.Prelude.{◌≡◌, true, length};
ghost use Rattle.sender_bytes.specs.Places.{record_length};
ghost use Rattle.sender_bytes.specs.Layout.{sender_at};
ghost use Rattle.sender.specs.Transfers.{ready_in};
ghost use Rattle.sender.specs.Calls.{decided_in, hears_from, hear_in};

use super::apply::apply;
use super::ready::is_in_bounds;
use super::search::{find_key, held_in};
use frame::Address;
use frame::judge::{Content, Route, judge};
use frame::refusal::Refusal;
use sender_bytes::places::{LAST_AT, OWN_AT, RECORD_BYTES};
use transfer::{Reply, hear};
use transport::head::session_key;
use transport::response::read_response;
use words::word_at;

// A control frame by its route: 9, 10, then by the transfer to its SA, if it goes to the own address; what goes to 255 meets none.
pub fn control(buffer: &mut [u8; RECORD_BYTES], route: Route, bytes: &[u8]) -> Reply
    ensures { (result, buffer.new) ≡ decided_in buffer.old (hears_from (sender_at buffer.old) route bytes.now) }
{
    let key = session_key(route, bytes);
    let f = find_key(buffer, key);
    let x = held_in(buffer, f);
    let step = hear::hear(x, read_response(route, bytes), word_at(buffer, LAST_AT));
    apply(buffer, f, step)
}

// Takes one frame of a record in bounds: 2, 1, 3 for all but a control frame, then 9, 10, 16, 27.
#[tactic(auto, unfolding(crate::specs::Calls::hear_in))]
fn take_ready(buffer: &mut [u8; RECORD_BYTES], id: u32, bytes: &[u8]) -> Reply
    requires { ready_in buffer.old ≡ true }
    ensures { (result, buffer.new) ≡ hear_in buffer.old id bytes.now }
{
    let own = Address(buffer[OWN_AT]);
    match judge(id, bytes.len(), own) {
        Ok(Content::Control(route)) => control(buffer, route, bytes),
        Ok(Content::MultiPg(_) | Content::Data(_)) => Reply::Refused(Refusal::NotTaken),
        Err(n) => Reply::Refused(n),
    }
}

// Takes one frame where there is no receiver: 23, then as above.
#[tactic(auto, unfolding(crate::specs::Calls::hear_in, crate::specs::Transfers::ready_in))]
pub fn take_frame(buffer: &mut [u8], id: u32, bytes: &[u8]) -> Reply
    ensures { (result, buffer.new) ≡ hear_in buffer.old id bytes.now }
{
    let Some(record) = buffer.as_mut_array::<RECORD_BYTES>() else {
        return Reply::Refused(Refusal::OutOfBounds);
    };
    if !is_in_bounds(record) {
        return Reply::Refused(Refusal::OutOfBounds);
    }
    take_ready(record, id, bytes)
}
