// The run fed from standard input: piece after piece until the trace ends or a record is bad.
ghost use Rattle.std.specs.Prelude.{◌≡◌, ◌⊎◌};
ghost use Rattle.std.specs.ControlFlow.{ForContinue};
ghost use Rattle.std.specs.declared.ops.ControlFlow.TheVariants.{Break};
ghost use Rattle.replay.specs.Moves.{Moves, IsBreak, Refills};

use super::input::fill;
use super::output;
use answer::place::cut;
use run::piece::{Stop, Went};
use run::{kept, whole};
use std::io::Read;
use std::ops::ControlFlow;

// How far it has come.
#[derive(Clone, Copy)]
pub struct Feed {
    // the records that were good, and the bytes of the input before the next one
    pub records: u64,
    pub offset: u64,
    // the place of the next record in the window, and the window's end
    pub at: usize,
    pub filled: usize,
    // the bytes of lines that wait to be written
    pub put: usize,
}

// Moved on after what was taken.
fn moved(f: Feed, went: Went) -> Feed
    ensures { Moves f went result }
{
    Feed {
        records: went.records,
        offset: f.offset.saturating_add(went.at as u64),
        at: f.at.saturating_add(went.at).min(f.filled),
        filled: f.filled,
        put: went.put,
    }
}

// ---- What follows goes on from a Feed, or breaks off with so many bytes of lines that wait to be written.

// The lines written. Where that fails, nothing more is done.
fn flushed(rt: &(impl Print + Eprint), f: Feed, lines: &[u8]) -> ControlFlow<usize, Feed> {
    match output::flush(rt, lines, f.put) {
        Ok(()) => ControlFlow::Continue(Feed { put: 0, ..f }),
        Err(_) => ControlFlow::Break(0),
    }
}

fn failed(rt: &impl Eprint, f: Feed, message: &str) -> ControlFlow<usize, Feed>
    ensures { result ≡ Break f.put }
{
    output::complain(rt, message);
    ControlFlow::Break(f.put)
}

// The last line. It has room, since the lines before it were written.
fn finished(rt: &impl Eprint, f: Feed, window: &[u8], lines: &mut [u8]) -> ControlFlow<usize, Feed>
    ensures { IsBreak result }
{
    match whole::finish(cut(window, 0, f.filled), f.records, f.offset, lines, f.put) {
        Some(put) => ControlFlow::Break(put),
        None => failed(rt, f, "receive: no room for the last line"),
    }
}

// More of the input, after what is left of the window. What was printed goes out first, since a read may wait.
fn refilled(
    rt: &(impl Print + Eprint),
    input: &mut impl Read,
    f: Feed,
    window: &mut [u8],
    lines: &mut [u8],
) -> ControlFlow<usize, Feed>
    ensures { ForContinue result (λ g. Refills f window.old g window.new) }
{
    let flushed = flushed(rt, f, lines)?;
    let kept = kept::keep(window, f.at, f.filled);
    let next = Feed {
        at: 0,
        filled: kept,
        ..flushed
    };
    match fill(input, window, kept) {
        Ok(Some(filled)) => ControlFlow::Continue(Feed { filled, ..next }),
        Ok(None) => finished(rt, next, window, lines),
        Err(error) => {
            output::tell(rt, "read", &error);
            ControlFlow::Break(next.put)
        }
    }
}

// What the window holds, taken as far as it goes; then what its answer asks for.
fn turn(
    rt: &(impl Print + Eprint),
    input: &mut impl Read,
    before: Feed,
    window: &mut [u8],
    receiver: &mut [u8],
    store: &mut [u8],
    lines: &mut [u8],
) -> ControlFlow<usize, Feed> {
    let bytes = cut(window, before.at, before.filled.saturating_sub(before.at));
    let went = whole::take(
        bytes,
        before.records,
        before.offset,
        receiver,
        store,
        lines,
        before.put,
    );
    let f = moved(before, went);
    match went.stop {
        Stop::Bytes => refilled(rt, input, f, window, lines),
        Stop::Room => flushed(rt, f, lines),
        Stop::Bad => ControlFlow::Break(f.put),
        Stop::Lost => failed(rt, f, "receive: the lines of a record are lost"),
        Stop::Long => failed(rt, f, "receive: the trace is too long to be counted"),
    }
}

// How the feeding ended, and after how many turns.
#[derive(Clone, Copy)]
pub struct Ended {
    pub flow: ControlFlow<usize, Feed>,
    pub turns: u64,
}

// A loop has to end, and nothing says that the input does: it counts its turns, and leaves off before the end only at a number that no run
// uses up. The count stands in the answer, for the promise, so it is counted by hand.
fn fed(
    rt: &(impl Print + Eprint),
    input: &mut impl Read,
    window: &mut [u8],
    receiver: &mut [u8],
    store: &mut [u8],
    lines: &mut [u8],
) -> Ended
    ensures { IsBreak result.flow ⊎ (result.turns ≡ 18446744073709551615) }
{
    let mut flow = ControlFlow::Continue(Feed {
        records: 0,
        offset: 0,
        at: 0,
        filled: 0,
        put: 0,
    });
    let mut turns: u64 = 0;
    while turns < u64::MAX {
        let ControlFlow::Continue(f) = flow else {
            return Ended { flow, turns };
        };
        flow = turn(rt, input, f, window, receiver, store, lines);
        turns = turns + 1;
    }
    Ended { flow, turns }
}

pub fn all(
    rt: &(impl Print + Eprint),
    input: &mut impl Read,
    window: &mut [u8],
    receiver: &mut [u8],
    store: &mut [u8],
    lines: &mut [u8],
) {
    let put = match fed(rt, input, window, receiver, store, lines).flow {
        ControlFlow::Break(put) => put,
        ControlFlow::Continue(f) => f.put,
    };
    let _written = output::flush(rt, lines, put);
}
