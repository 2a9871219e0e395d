//! The text of an instruction.

use crate::rows::line_of;
use a64_instr::Instr;
use std::fmt;

/// The text of an instruction in the assembler's syntax, as `{}` writes it: the manual's preferred
/// form or alias, as GNU objdump prints it. An address that counts from the instruction is written
/// by its distance, as in `b .+0x10`.
///
/// An instruction that `encode` refuses has no syntax: what is written for it says nothing.
#[derive(Clone, Copy)]
pub struct Text(pub Instr);

impl fmt::Display for Text {
    fn fmt<W: fmt::Write>(&self, f: &mut fmt::Formatter<W>) -> fmt::Result {
        let line = line_of(&self.0, None);
        write!(f, "{line}")
    }
}

/// As [`Text`], of an instruction at an address, from which its targets are counted: `b 0x400010`.
#[derive(Clone, Copy)]
pub struct TextAt {
    pub instr: Instr,
    pub pc: u64,
}

impl fmt::Display for TextAt {
    fn fmt<W: fmt::Write>(&self, f: &mut fmt::Formatter<W>) -> fmt::Result {
        let line = line_of(&self.instr, Some(self.pc));
        write!(f, "{line}")
    }
}
