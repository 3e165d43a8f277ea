// Data frames (001, Figures 37 and 38).
ghost use Rattle.std.specs.Prelude.{◌≡◌, ◌+◌, ◌-◌, ◌≤◌, length, take, drop};
ghost use Rattle.std.proofs.Math.Seq.{paste};
ghost use Rattle.frame.specs.Lengths.{frame_length};
ghost use Rattle.transport.specs.Heads.{laid_in};
ghost use Rattle.transport.specs.Segments.{data_frame_of, Fits, front_of, filler, segment_bytes};

use super::Key;
use super::head::head_byte;
use frame::SegmentNumber;
use frame::length::frame_length;
use frame::octet::low24_at;
use frame::refusal::Refusal;
use octets::{copy, copy_sixty};

// What comes before a segment's data, and how many bytes follow.
#[derive(Clone, Copy)]
pub struct Segment {
    pub format: u8,
    pub number: SegmentNumber,
    pub room: usize,
}

// What a data frame says, 9 for one under 5 bytes. Its session number is read by head::key_of.
#[tactic(auto, unfolding(crate::specs::Segments::data_frame_of))]
pub fn read_segment(bytes: &[u8]) -> Result<Segment, Refusal>
    ensures { (result ≡ data_frame_of bytes.now) × Fits bytes.now result }
{
    if bytes.len() < 5 {
        return Err(Refusal::TransferLength);
    }
    Ok(Segment {
        format: bytes[0] % 16,
        number: SegmentNumber(low24_at(bytes, 1)),
        room: bytes.len() - 4,
    })
}

// What comes before the data: format indicator 0 below the session number, then the segment's number.
fn front(key: Key, n: SegmentNumber) -> [u8; 4]
    ensures { result ≡ front_of key n.0 }
{
    let number = n.0.to_le_bytes();
    [head_byte(0, key), number[0], number[1], number[2]]
}

// Fills out up from need on, to the next length that CAN FD has: that length. AA hex is what 001 fills with (6.3.3.2).
#[tactic(auto, using(frame::proofs::LengthLaws::frame_bounds))]
fn fill(out: &mut [u8], need: usize) -> usize
    requires { (length out.old ≡ 64) × (need ≤ 64) }
    ensures { (result ≡ frame_length need) × (out.new ≡ paste out.old need (filler need) (frame_length need - need)) }
{
    let len = frame_length(need);
    out[need..len].fill(170);
    len
}

// Writes the data frame of segment n into out, with due bytes of the message from its index from on: the frame's length, with the bytes of
// out after it as they were.
pub fn write_segment(
    out: &mut [u8],
    key: Key,
    n: SegmentNumber,
    message: &[u8],
    from: usize,
    due: usize,
) -> usize
    requires { (length out.old ≡ 64) × (due ≤ 60) × (from + due ≤ length message.now) }
    ensures { (result, out.new) ≡ laid_in (segment_bytes key n.0 (take due (drop from message.now))) out.old }
{
    let head = front(key, n);
    copy(out, 0, &head, 0, 4);
    copy(out, 4, message, from, due);
    fill(out, 4 + due)
}

// Writes the data frame of segment n with 60 bytes of the message from its index from on, which fill it. A function of its own: 60 bytes, a
// number that the compiler knows, are copied in a few moves, and what fills a frame up is not looked for (docs/SPEED.md).
pub fn write_whole(out: &mut [u8], key: Key, n: SegmentNumber, message: &[u8], from: usize) -> usize
    requires { (length out.old ≡ 64) × (from + 60 ≤ length message.now) }
    ensures { (result, out.new) ≡ laid_in (segment_bytes key n.0 (take 60 (drop from message.now))) out.old }
{
    let head = front(key, n);
    copy(out, 0, &head, 0, 4);
    copy_sixty(out, 4, message, from);
    64
}
