// Lines of text in a lent buffer: a word, numbers in decimal, and the end of the line (01, "Program").
#![tactic(auto)]

pub mod decimal;
pub mod line;
