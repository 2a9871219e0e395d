//! Operands for which C and C++ give an operation no result.

use a64_instr::Instr;
use a64_registers::Regs;
use a64_registers::operands::{size_of_operands, truncate};
use std::fmt;

/// An operation.
#[derive(Clone, Copy, Debug, PartialEq, Eq)]
pub enum ArithmeticKind {
    /// A division by 0.
    Division,
    /// A shift by as many bits as there are, or more.
    Shift,
}

/// An operation on operands for which C and C++ give it no result.
#[derive(Clone, Copy, Debug, PartialEq, Eq)]
pub struct ArithmeticFault {
    /// The operation.
    pub kind: ArithmeticKind,
    /// The operands.
    pub value: u64,
    /// By how much.
    pub amount: u64,
    /// How many bits the operands have, 32 or 64.
    pub bits: u32,
}

impl ArithmeticFault {
    /// That of an instruction with the registers before it, if it is one: UDIV and SDIV, and LSLV,
    /// LSRV and ASRV. Rotations have a result for each amount.
    pub fn of(instr: &Instr, before: &Regs) -> Option<ArithmeticFault> {
        let Instr::TwoSource {
            sf,
            rm,
            opcode,
            rn,
            ..
        } = *instr
        else {
            return None;
        };
        let (value, amount) = (number_in(before, sf, rn), number_in(before, sf, rm));
        let bits = size_of_operands(sf);
        let kind = match opcode {
            2 | 3 if amount == 0 => ArithmeticKind::Division,
            8..=10 if amount >= u64::from(bits) => ArithmeticKind::Shift,
            _ => return None,
        };
        Some(ArithmeticFault {
            kind,
            value,
            amount,
            bits,
        })
    }
}

/// A numbered register in the size of an instruction's operands; 0 for 31.
fn number_in(regs: &Regs, sf: u8, n: u8) -> u64 {
    truncate(sf, regs.x.get(usize::from(n)).copied().unwrap_or(0))
}

/// The operation with its operands.
impl fmt::Display for ArithmeticFault {
    fn fmt<W: fmt::Write>(&self, f: &mut fmt::Formatter<W>) -> fmt::Result {
        let ArithmeticFault {
            value,
            amount,
            bits,
            ..
        } = *self;
        match self.kind {
            ArithmeticKind::Division => write!(f, "{value:#x} of {bits} bits, divided by 0"),
            ArithmeticKind::Shift => write!(f, "{value:#x} of {bits} bits, shifted by {amount}"),
        }
    }
}
