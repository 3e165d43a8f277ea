// The lines that speak of one session, or of none (01, "Program"), made in a lent buffer. Each function writes all of its
// lines or, where there is too little room, nothing.
#![tactic(auto)]

pub mod ending;
mod key;
pub mod message;
pub mod progress;
