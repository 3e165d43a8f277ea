// A trace from standard input run over a receiver, its lines on standard output (01, "Program"). What is done with the bytes and printed is
// decided by the crate run; this one reads, writes and moves on.
#![tactic(auto)]

mod feed;
mod input;
mod output;

use record_bytes::places::RECORD_BYTES;
use run::whole;

// The memory does not grow with the trace.
pub fn standard_input(rt: &(impl Input + Print + Eprint)) {
    let mut input = rt.reader();
    let mut window = [0u8; 65536];
    let mut receiver = [0u8; RECORD_BYTES];
    let mut store = [0u8; 32768];
    let mut lines = [0u8; 65536];
    whole::open(&mut receiver);
    feed::all(
        rt,
        &mut input,
        &mut window,
        &mut receiver,
        &mut store,
        &mut lines,
    );
}
