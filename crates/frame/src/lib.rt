// The frame layer: what a CAN FD frame of J1939-22 is made of, and which frames are taken here.
#![tactic(auto)]

pub mod identifier;
pub mod judge;
pub mod length;
pub mod octet;
pub mod pgn;
pub mod refusal;

// Counters and numbers that the standard keeps apart (01, "Numbers that hold everywhere").

// Counts a message's segments from 1.
#[derive(Clone, Copy, PartialEq, Eq)]
pub struct SegmentNumber(pub u32);

// Counts bytes, as Total Bytes does.
#[derive(Clone, Copy, PartialEq, Eq)]
pub struct ByteCount(pub u32);

// A source or destination address; 254 is the null address, 255 the global one.
#[derive(Clone, Copy, PartialEq, Eq)]
pub struct Address(pub u8);

// Tells a sender's transfers to one destination apart, 0 to 15.
#[derive(Clone, Copy, PartialEq, Eq)]
pub struct SessionNumber(pub u8);
