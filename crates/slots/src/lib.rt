// Eight slots over one store (01, "Numbers that hold everywhere"): each has a session, or none and is free.
#![tactic(auto)]

pub mod bounds;
pub mod store;

use answer::place;

pub const SLOTS: usize = place::SLOTS;

// Slot i's part of the store starts at i times this.
pub const SLOT_BYTES: usize = place::SLOT_BYTES;
