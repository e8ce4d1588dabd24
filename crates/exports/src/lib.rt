// The C interface: numbers and byte slices, no `requires`. include/cuudhaqil.h says what each call promises.
#![tactic(auto)]

pub mod codec;
pub mod ledgers;
pub mod names;
pub mod runs;

// How many numbers a step and a verdict have, beside their lists.
pub const STEP: usize = 11;

pub const VERDICT: usize = 3;

// What a call answers that did what was asked; of a ledger, that it is sound.
// stays: numbers, as each call of the C interface answers with one.
const DONE: u64 = 0;

// What the calls answer where there is nothing to answer with: room is short, no reader takes it, no place is lent.
pub const FULL: u64 = 0;

// The number of row 1.
pub const NOT_SOUND: u64 = 1;

pub const MALFORMED: u64 = 2;

pub const NO_PLACE: u64 = 3;
