// The receiver's calls on a record in a lent buffer: only what a call changes is written (01, "Life of a session").
#![tactic(auto)]

pub mod apply;
pub mod call;
pub mod control;
pub mod missing;
pub mod reading;
pub mod segment;
