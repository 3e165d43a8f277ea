// The sender's record as bytes of a fixed layout in a lent buffer: own address, idle limit, last reading, then the four transfers (02, E2).
#![tactic(auto)]

pub mod layout;
pub mod places;
pub mod put;
