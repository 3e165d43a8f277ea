// A frame taken by the record that a lent buffer holds: 23, 2, 1, 3, then 9 and the rest by kind (01, "Numbered refusals").
ghost use Rattle.std.specs.Prelude.{◌≡◌, true, length};
ghost use Rattle.lent_record.specs.Ready.{ready_in};
ghost use Rattle.multi_pg.specs.Groups.{judgement_of, groups_read};
ghost use Rattle.engine.specs.InBytes.{groups_answer, frame_in};

use super::control::control;
use super::segment::data_frame;
use answer::Answer;
use frame::judge::{Content, Route, judge};
use frame::refusal::Refusal;
use lent_record::ready::{is_in_bounds, own_of};
use multi_pg::read;
use record_bytes::places::RECORD_BYTES;

// A Multi-PG frame, judged whole; the record is not looked at.
fn groups(route: Route, bytes: &[u8]) -> Answer
    ensures { result ≡ groups_answer (judgement_of (groups_read bytes.now)) route }
{
    match read::judge(bytes) {
        Ok(()) => Answer::Groups(route),
        Err(n) => Answer::Refused(n),
    }
}

// Takes one frame, of a record that is in bounds and a store of its length: 2, 1, 3, then 9 and the rest by kind.
fn take_ready(buffer: &mut [u8; RECORD_BYTES], id: u32, bytes: &[u8], store: &mut [u8]) -> Answer
    requires { ready_in buffer.old (length store.old) ≡ true }
    ensures { (result, (buffer.new, store.new)) ≡ frame_in buffer.old id bytes.now store.old }
{
    let own = own_of(buffer);
    match judge(id, bytes.len(), own) {
        Ok(Content::MultiPg(route)) => groups(route, bytes),
        Ok(Content::Control(route)) => control(buffer, route, bytes),
        Ok(Content::Data(route)) => data_frame(buffer, route, bytes, store),
        Err(n) => Answer::Refused(n),
    }
}

// Takes one frame.
pub fn take_frame(buffer: &mut [u8], id: u32, bytes: &[u8], store: &mut [u8]) -> Answer
    ensures { (result, (buffer.new, store.new)) ≡ frame_in buffer.old id bytes.now store.old }
{
    match buffer.as_mut_array::<RECORD_BYTES>() {
        Some(record) => {
            if !is_in_bounds(record, store.len()) {
                return Answer::Refused(Refusal::OutOfBounds);
            }
            take_ready(record, id, bytes, store)
        }
        None => Answer::Refused(Refusal::OutOfBounds),
    }
}
