// One record: what it makes of the receiver and the store, and its lines.
ghost use Rattle.std.specs.Prelude.{◌≡◌};
ghost use Rattle.text.specs.Line.{Placed};
ghost use Rattle.engine.specs.InBytes.{frame_in};
ghost use Rattle.engine.specs.Elapsing.{reading_in};
ghost use Rattle.run.specs.Lines.{framed, elapsed, turn_at};
ghost use Rattle.run.specs.Steps.{read_in_bytes, in_bytes, stepped, step_of};

use answer::place::{bytes_of, cut, place_of};
use engine::{call, reading};
use report::answer_lines::write_answer;
use report::reading::write_reading;
use trace::record::Record;
use trace::{Fault, record};

// Why no record is taken, or its lines are lost.
#[derive(Clone, Copy, PartialEq, Eq)]
pub enum Untaken {
    // no byte is at the place
    End,
    // the bytes end inside the record
    More,
    Bad,
    // the record is taken, and its lines had no room: none is written
    Short,
}

// A record that was taken.
#[derive(Clone, Copy)]
pub struct Took {
    // the place after the record, and the place after its lines
    pub next: usize,
    pub put: usize,
}

#[tactic(auto, using(crate::proofs::Records::made_frame))]
fn take_frame(
    receiver: &mut [u8],
    store: &mut [u8],
    id: u32,
    frame: &[u8],
    lines: &mut [u8],
    put: usize,
) -> Option<usize>
    ensures { ((receiver.new, store.new) ≡ (frame_in receiver.old id frame.now store.old).1)
        × Placed lines.old put
        (framed frame.now (frame_in receiver.old id frame.now store.old)).lines result lines.new }
{
    let answer = call::take_frame(receiver, id, frame, store);
    let bytes = bytes_of(place_of(answer), frame, store);
    write_answer(lines, put, frame, answer, bytes)
}

#[tactic(auto, using(crate::proofs::Records::made_reading))]
fn take_reading(
    receiver: &mut [u8],
    store: &[u8],
    t: u32,
    lines: &mut [u8],
    put: usize,
) -> Option<usize>
    ensures { (receiver.new ≡ (reading_in receiver.old t store.now).1)
        × Placed lines.old put
        (elapsed store.now (read_in_bytes (reading_in receiver.old t store.now))).lines result lines.new }
{
    let taken = reading::take_reading(receiver, t, store);
    let answer = taken.answer;
    let ends = taken.ends;
    write_reading(lines, put, answer, ends)
}

fn behind(w: Option<usize>, next: usize) -> Result<Took, Untaken>
    ensures { result ≡ stepped w next }
{
    let put = w.ok_or(Untaken::Short)?;
    Ok(Took { next, put })
}

// The record at a place of the bytes that are there. Compiled into the loop over records, its one caller (docs/SPEED.md).
#[tactic(auto, using(crate::proofs::Records::by_reading), unfolding(crate::specs::Lines::turn_at))]
#[inline(always)]
pub fn take_record(
    window: &[u8],
    at: usize,
    receiver: &mut [u8],
    store: &mut [u8],
    lines: &mut [u8],
    put: usize,
) -> Result<Took, Untaken>
    ensures { (result, (receiver.new, (store.new, lines.new)))
        ≡ step_of (turn_at in_bytes receiver.old store.old window.now at) receiver.old store.old
        lines.old put }
{
    let record = match record::read(window, at) {
        Ok(Some(record)) => record,
        Ok(None) => return Err(Untaken::End),
        Err(Fault::Cut) => return Err(Untaken::More),
        Err(_) => return Err(Untaken::Bad),
    };
    match record {
        Record::Reading { value, next } => {
            behind(take_reading(receiver, store, value, lines, put), next)
        }
        Record::Frame {
            identifier,
            start,
            len,
            next,
        } => {
            let frame = cut(window, start, len);
            behind(
                take_frame(receiver, store, identifier, frame, lines, put),
                next,
            )
        }
    }
}
