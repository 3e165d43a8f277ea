// A record of four transfers in a lent buffer, and the calls on it (02, E2). The message is lent to each call that reads it and never
// written; the frame that goes out is laid into a lent output of 64 bytes.
#![tactic(auto)]

pub mod announce;
pub mod apply;
pub mod ask;
pub mod hear;
pub mod open;
pub mod reading;
pub mod ready;
pub mod search;
pub mod send;

use transfer::Reply;

// The output for a frame: the most that CAN FD carries.
pub const FRAME_BYTES: usize = 64;

// A frame laid into the output: its identifier, and its length there.
#[derive(Clone, Copy)]
pub struct Laid {
    pub id: u32,
    pub len: usize,
}

// What a call answers that may give a frame, and the frame that goes out.
#[derive(Clone, Copy)]
pub struct Sent {
    pub reply: Reply,
    pub frame: Option<Laid>,
}
