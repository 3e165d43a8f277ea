// The program's lines (01, "Program"), made in a lent buffer. Each function writes all of its lines or, where there is
// too little room, nothing.
#![tactic(auto)]

pub mod answer_lines;
pub mod group;
pub mod reading;
pub mod run;
