// What is where in an answer's bytes: the lengths and the places, named once.

// An answer, and the answers of a reading: one for each slot.
pub const ANSWER_BYTES: usize = 36;

pub const ANSWERS_BYTES: usize = 288;

// The fields.
pub const NUMBER_AT: usize = 0;

pub const CODE_AT: usize = 1;

pub const SA_AT: usize = 2;

pub const DA_AT: usize = 3;

pub const SESSION_AT: usize = 4;

pub const KIND_AT: usize = 5;

pub const EXTRA_AT: usize = 6;

pub const PGN_AT: usize = 7;

pub const TOTAL_AT: usize = 11;

pub const SEGMENT_AT: usize = 15;

// The control frame that is due, after the fields: whether there is one, its identifier, its data.
pub const SENT_AT: usize = 19;

pub const IDENTIFIER_AT: usize = 20;

pub const DATA_AT: usize = 24;

pub const SENT_BYTES: usize = 17;

pub const DATA_BYTES: usize = 12;
