// The run of the program: opened, fed, finished.
ghost use Rattle.std.specs.Prelude.{◌+◌, ◌<◌, ◌^◌, ◌≡◌, length};
ghost use Rattle.receiver.specs.Bounds.{opened};
ghost use Rattle.record_bytes.specs.Layout.{stored_in};
ghost use Rattle.text.specs.Line.{Placed};
ghost use Rattle.text.specs.Put.{PutAt};
ghost use Rattle.run.specs.Lines.{own, limits};
ghost use Rattle.run.specs.Takes.{is_long, last_line, LastFits, TakesOr, final_line};

use super::piece::{Stop, Went, take_records};
use frame::Address;
use progress::wait::IdleLimits;
use receiver::Receiver;
use record_bytes::layout::write_record;
use report::run::{write_bad_record, write_end};

// Own address 33, both idle limits 1,250 ms, first reading 0. Says whether the buffer has a record's length.
pub fn open(receiver: &mut [u8]) -> bool
    ensures { (result, receiver.new) ≡ stored_in (opened own limits 0).receiver receiver.old }
{
    let limits = IdleLimits {
        first: 1250,
        second: 1250,
    };
    let first = Receiver::open(Address(33), limits, 0);
    write_record(first.receiver, receiver)
}

fn is_long(records: u64, offset: u64, n: usize) -> bool
    ensures { result ≡ is_long records offset n }
{
    let more = n as u64;
    records.checked_add(more).is_none() | offset.checked_add(more).is_none()
}

// The line of a bad record, which begins at the place.
#[tactic(auto, using(crate::proofs::Wholes::none_written, crate::proofs::Wholes::bad_written))]
fn write_last(lines: &mut [u8], put: usize, stop: Stop, place: u64) -> usize
    requires { LastFits stop (length lines.old) put }
    ensures { PutAt lines.old put (last_line stop place) result lines.new }
{
    match stop {
        Stop::Bad => write_bad_record(lines, put, place).unwrap_or(put),
        Stop::Bytes | Stop::Room | Stop::Lost | Stop::Long => put,
    }
}

// Takes the records of the bytes that are there, after offset bytes and so many good records.
#[tactic(auto, using(crate::proofs::Wholes::few_records, crate::proofs::Wholes::by_long))]
pub fn take(
    window: &[u8],
    records: u64,
    offset: u64,
    receiver: &mut [u8],
    store: &mut [u8],
    lines: &mut [u8],
    put: usize,
) -> Went
    ensures { TakesOr (is_long records offset (length window.now)) window.now records offset receiver.old
        store.old lines.old put result receiver.new store.new lines.new }
{
    if is_long(records, offset, window.len()) {
        return Went {
            at: 0,
            put,
            records,
            stop: Stop::Long,
        };
    }
    let went = take_records(window, records, receiver, store, lines, put);
    let place = offset + went.at as u64;
    let next = write_last(lines, went.put, went.stop, place);
    Went { put: next, ..went }
}

// The input is over; what is left of it is no whole record.
pub fn finish(kept: &[u8], records: u64, offset: u64, lines: &mut [u8], put: usize) -> Option<usize>
    ensures { Placed lines.old put (final_line (length kept.now) records offset) result lines.new }
{
    if kept.is_empty() {
        return write_end(lines, put, records);
    }
    write_bad_record(lines, put, offset)
}
