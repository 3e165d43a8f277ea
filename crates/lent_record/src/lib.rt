// A receiver's record in a lent buffer: judged and searched in its bytes (01, "Numbered refusals" and "Segment").
#![tactic(auto)]

pub mod ready;
pub mod search;
