// The bytes that a drawer lies in: their layout, the check of them, and what a section of them says.
//
// A field is seven bytes: a tag, a length of two bytes, which is always 4, and an amount of four, low byte
// first. A drawer has fourteen sections, one for each head, in order. A section is one field for the promised
// amount (tag 50H, amount 0 for none), then the same number of fields for bills in every section: first the
// settled bills (tag 43H) in order of settling, then the free fields (tag 00H, amount 0).
#![tactic(auto)]

pub mod check;
pub mod fault;
mod field;
pub mod section;
pub mod size;

// How many bytes a field has.
pub const FIELD: usize = 7;

// The tag of the field of a promise, of an amount or of none.
pub const PROMISE_TAG: u8 = 0x50;

// The tag of a settled bill.
pub const SETTLED_TAG: u8 = 0x43;

// The tag of a free field.
pub const FREE_TAG: u8 = 0x00;
