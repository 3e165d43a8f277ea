// Records: number 0 and a reading, or number 1, identifier, length, then that many bytes.
ghost use Rattle.std.specs.Prelude.{◌≡◌, ◌+◌, ◌≤◌, length};
ghost use Rattle.trace.specs.Records.{record_at, by_kind, reading_at, frame_at, length_at, bytes_at, reading as of_reading, frame as of_frame, record_bytes};
ghost use Rattle.trace.specs.Outputs.{Put, RecordWritten};

use super::output::WriteError;
use super::{Fault, number, output};
use octets::copy;

#[derive(Clone, Copy, PartialEq, Eq, Debug)]
pub enum Record {
    // a reading of the clock, and the place after the record
    Reading {
        value: u32,
        next: usize,
    },
    // a frame, whose len bytes start at start, and the place after the record
    Frame {
        identifier: u32,
        start: usize,
        len: usize,
        next: usize,
    },
}

// The record at a place; none where the bytes end between two records. Cut says that they end inside one that is good so far,
// any other fault is the first from the left.
pub fn read(s: &[u8], at: usize) -> Result<Option<Record>, Fault>
    ensures { result ≡ record_at s.now at }
{
    if s.len() <= at {
        return Ok(None);
    }
    let (kind, next) = number::read(s, at)?;
    Ok(Some(by_kind(s, kind, next)?))
}

fn by_kind(s: &[u8], kind: u32, at: usize) -> Result<Record, Fault>
    ensures { result ≡ by_kind s.now kind at }
{
    match kind {
        0 => reading(s, at),
        1 => frame(s, at),
        _ => Err(Fault::Kind),
    }
}

fn reading(s: &[u8], at: usize) -> Result<Record, Fault>
    ensures { result ≡ reading_at s.now at }
{
    let (value, next) = number::read(s, at)?;
    Ok(Record::Reading { value, next })
}

fn frame(s: &[u8], at: usize) -> Result<Record, Fault>
    ensures { result ≡ frame_at s.now at }
{
    let (identifier, next) = number::read(s, at)?;
    length(s, identifier, next)
}

fn length(s: &[u8], identifier: u32, at: usize) -> Result<Record, Fault>
    ensures { result ≡ length_at s.now identifier at }
{
    let (len, start) = number::read(s, at)?;
    bytes(s.len(), identifier, len, start)
}

// The bytes of a frame, in a slice that ends at end.
fn bytes(end: usize, identifier: u32, len: u32, start: usize) -> Result<Record, Fault>
    requires { start ≤ end }
    ensures { result ≡ bytes_at end identifier len start }
{
    if 64 < len {
        return Err(Fault::Length);
    }
    let n = len as usize;
    if end - start < n {
        return Err(Fault::Cut);
    }
    Ok(Record::Frame {
        identifier,
        start,
        len: n,
        next: start + n,
    })
}

// Writes the record of a reading at a place, if there is room, and answers the place after it.
pub fn write_reading(out: &mut [u8], at: usize, value: u32) -> Result<usize, WriteError>
    ensures { RecordWritten out.old at (of_reading value) result out.new }
{
    output::check_room(out.len(), at, number::size(0) + number::size(value))?;
    let next = number::put(out, at, 0);
    Ok(number::put(out, next, value))
}

// Writes the record of a frame at a place, if the frame has at most 64 bytes and there is room, and answers the place after it.
pub fn write_frame(
    out: &mut [u8],
    at: usize,
    identifier: u32,
    s: &[u8],
) -> Result<usize, WriteError>
    ensures { RecordWritten out.old at (of_frame identifier s.now) result out.new }
{
    let n = s.len();
    if 64 < n {
        return Err(WriteError::TooLong);
    }
    let need = number::size(1) + number::size(identifier) + number::size(n as u32) + n;
    output::check_room(out.len(), at, need)?;
    Ok(put_frame(out, at, identifier, s))
}

// Writes a frame's record at a place that has room for it.
fn put_frame(out: &mut [u8], at: usize, identifier: u32, s: &[u8]) -> usize
    requires { (length s.now ≤ 64) × (at + length (record_bytes (of_frame identifier s.now)) ≤ length out.old) }
    ensures { Put out.old at (record_bytes (of_frame identifier s.now)) result out.new }
{
    let after_kind = number::put(out, at, 1);
    let after_identifier = number::put(out, after_kind, identifier);
    let start = number::put(out, after_identifier, s.len() as u32);
    copy(out, start, s, 0, s.len());
    start + s.len()
}
