//! The text of an instruction.

use a64_decode::decode;
use a64_text::TextAt;
use std::fmt;
use std::fmt::Display;

/// The word of SVC #0.
pub const SVC: u32 = 0xD400_0001;

/// An instruction's word at an address, as text.
#[derive(Clone, Copy)]
pub struct Instruction {
    /// The word.
    pub word: u32,
    /// Its address.
    pub pc: u64,
}

impl fmt::Display for Instruction {
    fn fmt<W: fmt::Write>(&self, f: &mut fmt::Formatter<W>) -> fmt::Result {
        match decode(self.word) {
            Some(instr) => TextAt { instr, pc: self.pc }.fmt(f),
            None => f.write_str("no instruction of the table"),
        }
    }
}
