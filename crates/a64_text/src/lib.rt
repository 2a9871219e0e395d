//! The text of the A64 instructions, for traces and reports (Arm ARM DDI 0487, C6.2), and of an
//! instruction word in a buffer of the caller.
#![tactic(auto)]

mod control;
mod data_processing;
mod instruction;
mod memory;
mod operand;
mod rows;
mod word_text;

pub use instruction::{Text, TextAt};
pub use word_text::{TextError, write_text};
