//! The A64 instructions of the profile, as the rows of the table of encodings, and the fields that
//! they share.
#![tactic(auto)]

pub mod fields;
mod instruction;

pub use instruction::Instr;
