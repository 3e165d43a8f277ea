// The data link over a boundary of numbers and byte slices, for a program that is not Rattle (include/dwaebinam.h).
#![tactic(auto)]

pub mod both;
pub mod export;
pub mod groups;
pub mod message;
pub mod missing;
pub mod pack;
pub mod reading;
pub mod sending;
