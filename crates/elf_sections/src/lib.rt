//! The sections of an ELF64 file, and the numbers in its tables.
#![tactic(auto)]

mod fields;
mod sections;

pub use fields::{double_word, half, word};
pub use sections::{Section, Sections};
