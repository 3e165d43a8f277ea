// The trace that the program reads (01, "Program"): its numbers and its records.
#![tactic(auto)]

pub mod number;
pub mod output;
pub mod record;

// Why bytes are no number or no record.
#[derive(Clone, Copy, PartialEq, Eq, Debug)]
pub enum Fault {
    // the bytes end inside a number or a record that is good so far: more of them may follow
    Cut,
    // the last group is 0 although it is not the only one
    NotShortest,
    // 4,294,967,296 or more
    TooLarge,
    // a record's first number is neither 0 nor 1
    Kind,
    // a frame of more than 64 bytes
    Length,
}
