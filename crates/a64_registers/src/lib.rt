//! The registers of a core, what instructions take from them, and conditions on the flags.
#![tactic(auto)]

pub mod conditions;
pub mod operands;
mod registers;

pub use registers::Regs;
