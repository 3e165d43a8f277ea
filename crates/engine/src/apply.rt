// What a session decided, written into the record's bytes (01, "Life of a session"): only the slot that it changes.
ghost use Rattle.std.specs.Prelude.{◌≡◌, ◌<◌, length, get_or};
ghost use Rattle.session.specs.Steps.{MeetsOpen};
ghost use Rattle.slots.specs.Slots.{Within, free_slot, state_in};
ghost use Rattle.receiver.specs.Calls as calls;
ghost use Rattle.record_bytes.specs.Layout.{slots_at, record_at};
ghost use Rattle.record_bytes.specs.Keeping.{put_in};
ghost use Rattle.record_bytes.specs.Places.{record_length};
ghost use Rattle.engine.specs.InBytes.{Holds, stepped_in};

use answer::Answer;
use progress::Progress;
use record_bytes::places::RECORD_BYTES;
use record_bytes::put::{put_progress, put_slot};
use session::{Change, Session, Step};

// A change of the session in slot i. What was announced stays where a session moves on: only its progress is written.
fn put_change(buffer: &mut [u8; RECORD_BYTES], i: usize, change: Change<Session, Progress>)
    requires { (i < 8) × Holds buffer.old × MeetsOpen change (get_or (slots_at buffer.old) i free_slot) }
    ensures { buffer.new ≡ put_in buffer.old (calls.applied (record_at buffer.old) i change) }
{
    match change {
        Change::Stays => {}
        Change::Opens(s) => put_slot(buffer, i, Some(s)),
        Change::Moves(p) => put_progress(buffer, i, p),
        Change::Ends => put_slot(buffer, i, None),
    }
}

// A step of the session in the slot that was found; where none was, nothing is written.
pub fn apply(buffer: &mut [u8; RECORD_BYTES], f: Option<usize>, step: Step) -> Answer
    requires { Holds buffer.old × Within f 8 × MeetsOpen step.change (state_in f (slots_at buffer.old)) }
    ensures { (result, buffer.new) ≡ stepped_in buffer.old (calls.apply (record_at buffer.old) f step) }
{
    let change = step.change;
    match f {
        Some(i) => put_change(buffer, i, change),
        None => {}
    }
    step.answer
}
