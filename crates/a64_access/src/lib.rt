//! How an instruction accesses memory, by its fields: what it does there, how its address is
//! formed, and by which registers.
#![tactic(auto)]

mod form;
mod rows;

pub use form::{AccessForm, AccessKind, AddressingMode, LoadExtension, StoredTags};
