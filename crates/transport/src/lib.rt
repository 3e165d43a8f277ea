// Transfer frames: FD.TP.CM and FD.TP.DT, read and written (01, "Transfer frames").
#![tactic(auto)]

pub mod abort;
pub mod announcement;
pub mod control;
pub mod cts;
pub mod eoma;
pub mod eoms;
pub mod head;
pub mod reason;
pub mod response;
pub mod segment;

use frame::{Address, SessionNumber};

// What a session is found by.
#[derive(Clone, Copy, PartialEq, Eq)]
pub struct Key {
    pub sa: Address,
    pub da: Address,
    pub session: SessionNumber,
}

// How a message is transferred.
#[derive(Clone, Copy, PartialEq, Eq)]
pub enum Kind {
    Rts,
    Bam,
}
