// A run (01, "Program"): the bytes of a trace as they come, in pieces of any size, and its lines into a lent buffer. A caller opens the
// receiver, lends the bytes that are there as long as the answer asks for more room, keeps what is left, and finishes where the input ends.
#![tactic(auto)]

pub mod kept;
pub mod piece;
pub mod step;
pub mod whole;
