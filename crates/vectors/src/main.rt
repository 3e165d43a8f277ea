// Runs worked figures of SAE J1939-22 through the code and prints what comes. The file stdout beside src/ holds what should come,
// and no line of it was copied from a run: those of the figures were worked out from the standard by hand, those of the transfers
// through the calls, some hundred with long messages, were written by a loop over 01's rules for grants, segments and hand-over.
#![tactic(auto)]

mod calls;
mod groups;
mod show;
mod transfers;

use record_bytes::places::RECORD_BYTES;
use std::io;

fn main(rt: HostRuntime) -> io::Result<()> {
    groups::headers(&rt)?;
    groups::padding(&rt)?;
    groups::examples(&rt)?;
    transfers::received(&rt)?;
    transfers::sent(&rt)?;
    transfers::segments(&rt)?;
    let mut receiver = [0u8; RECORD_BYTES];
    let mut store = [0xEEu8; 32768];
    calls::figures(&rt, &mut receiver, &mut store)?;
    calls::nine_senders(&rt, &mut receiver, &mut store)
}
