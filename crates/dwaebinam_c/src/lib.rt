// The archive that a program in C links (include/dwaebinam.h): each call is dwaebinam's of the same name, with its clauses.
#![tactic(auto)]

pub mod groups;
pub mod receiving;
pub mod sending;
