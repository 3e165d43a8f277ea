// The lines of a reading: a refusal, or for each slot in slot order its ending.
ghost use Rattle.std.specs.Prelude.{◌≡◌, ◌+◌, ◌≤◌, length};
ghost use Rattle.report.specs.Lines.{end_lines, ends_lines, reading_lines};
ghost use Rattle.session_lines.specs.Lines.{ending_line};
ghost use Rattle.text.specs.Line.{left_by, Placed};
ghost use Rattle.text.specs.Put.{PutAt};

use answer::Ending;
use frame::refusal::Refusal;
use session_lines::ending::{ending_line, ending_numbers, write_refused};

// ---- One session that ended.

fn left_after_ending(room: usize, ending: Ending) -> Option<usize>
    ensures { result ≡ left_by room (length (ending_line ending)) }
{
    let fields = ending_numbers(ending);
    ending_line(ending.kind, &fields).left_after(room)
}

fn put_ending(out: &mut [u8], at: usize, ending: Ending) -> usize
    requires { at + length (ending_line ending) ≤ length out.old }
    ensures { PutAt out.old at (ending_line ending) result out.new }
{
    let fields = ending_numbers(ending);
    ending_line(ending.kind, &fields).put(out, at)
}

// ---- One slot.

#[tactic(auto, using(text::specs::Line::left_none))]
fn left_after_end(room: usize, end: Option<Ending>) -> Option<usize>
    ensures { result ≡ left_by room (length (end_lines end)) }
{
    match end {
        None => Some(room),
        Some(ending) => left_after_ending(room, ending),
    }
}

#[tactic(auto, using(text::specs::Put::put_none))]
fn put_end(out: &mut [u8], at: usize, end: Option<Ending>) -> usize
    requires { at + length (end_lines end) ≤ length out.old }
    ensures { PutAt out.old at (end_lines end) result out.new }
{
    match end {
        None => at,
        Some(ending) => put_ending(out, at, ending),
    }
}

// ---- All slots.

fn left_after_ends(room: usize, ends: [Option<Ending>; 8]) -> Option<usize>
    ensures { result ≡ left_by room (length (ends_lines ends)) }
{
    let mut left = room;
    for i in 0..8 {
        left = left_after_end(left, ends[i])?;
    }
    Some(left)
}

fn put_ends(out: &mut [u8], at: usize, ends: [Option<Ending>; 8]) -> usize
    requires { at + length (ends_lines ends) ≤ length out.old }
    ensures { PutAt out.old at (ends_lines ends) result out.new }
{
    let mut next = at;
    for i in 0..8 {
        next = put_end(out, next, ends[i]);
    }
    next
}

fn write_ends(out: &mut [u8], at: usize, ends: [Option<Ending>; 8]) -> Option<usize>
    ensures { Placed out.old at (ends_lines ends) result out.new }
{
    let room = out.len().checked_sub(at)?;
    left_after_ends(room, ends)?;
    Some(put_ends(out, at, ends))
}

// The lines of a reading, by what it answers and the ending of each slot.
pub fn write_reading(
    out: &mut [u8],
    at: usize,
    answer: Result<(), Refusal>,
    ends: [Option<Ending>; 8],
) -> Option<usize>
    ensures { Placed out.old at (reading_lines answer ends) result out.new }
{
    match answer {
        Ok(()) => write_ends(out, at, ends),
        Err(refusal) => write_refused(out, at, refusal),
    }
}
