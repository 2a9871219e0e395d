//! The A64 instructions of the profile and their words.
#![tactic(auto)]

mod instruction;
mod refusals;
mod row;
mod rows;

pub use a64_instr::Instr;
pub use instruction::encode;
pub use refusals::{is_load_store, is_load_store_pair, may_write_back};
