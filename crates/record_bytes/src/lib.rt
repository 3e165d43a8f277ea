// The receiver's record as bytes of a fixed layout, for a caller that is not Rattle (01, "Life of a session").
#![tactic(auto)]

pub mod layout;
pub mod long;
pub mod places;
pub mod put;
pub mod slot;
