//! A line of assembly: a mnemonic and its operands, each as the assembler writes it.

use std::fmt;

/// A general register of 64 or 32 bits. Its number 31 is the zero register, or the stack pointer in
/// the forms that say so.
#[derive(Clone, Copy)]
pub enum Register {
    X(u8),
    W(u8),
    XOrSp(u8),
    WOrSp(u8),
}

impl fmt::Display for Register {
    fn fmt<W: fmt::Write>(&self, f: &mut fmt::Formatter<W>) -> fmt::Result {
        match *self {
            Register::X(31) => f.write_str("xzr"),
            Register::W(31) => f.write_str("wzr"),
            Register::XOrSp(31) => f.write_str("sp"),
            Register::WOrSp(31) => f.write_str("wsp"),
            Register::X(number) | Register::XOrSp(number) => write!(f, "x{number}"),
            Register::W(number) | Register::WOrSp(number) => write!(f, "w{number}"),
        }
    }
}

/// The change of a register before it is used: a shift or an extension, and its amount where it
/// is written.
#[derive(Clone, Copy)]
pub struct Modifier {
    pub name: &'static str,
    pub amount: Option<u8>,
}

impl fmt::Display for Modifier {
    fn fmt<W: fmt::Write>(&self, f: &mut fmt::Formatter<W>) -> fmt::Result {
        let name = self.name;
        match self.amount {
            Some(amount) => write!(f, "{name} #{amount}"),
            None => f.write_str(name),
        }
    }
}

/// The shift with the code `shift`; none where nothing is shifted, which is LSL by 0.
pub fn shifted(shift: u8, amount: u8) -> Operand {
    if shift == 0 && amount == 0 {
        return Operand::Absent;
    }
    let name = match shift {
        0 => "lsl",
        1 => "lsr",
        2 => "asr",
        _ => "ror",
    };
    Operand::Modified(Modifier {
        name,
        amount: Some(amount),
    })
}

/// An operand. One that is absent is not written, nor the comma before it.
#[derive(Clone, Copy)]
pub enum Operand {
    Absent,
    Register(Register),
    /// `#0x10`
    Hexadecimal(u64),
    /// `#-16`
    Decimal(i64),
    /// `lsl #3`, `sxtw`
    Modified(Modifier),
    /// `ne`, `csync`
    Word(&'static str),
    /// `[sp]`, `[x1, #8]`: a base and an offset in bytes, written unless it is 0.
    Offset(Register, i64),
    /// `[sp, #-16]!`: the base is written back.
    PreIndexed(Register, i64),
    /// `[x1, x2]`
    Indexed(Register, Register),
    /// `[x1, w2, sxtw #3]`
    Extended(Register, Register, Modifier),
    /// `.+0x10`: an address by its distance.
    Relative(i64),
    /// `0x400010`: an address.
    Absolute(u64),
}

impl fmt::Display for Operand {
    fn fmt<W: fmt::Write>(&self, f: &mut fmt::Formatter<W>) -> fmt::Result {
        match *self {
            Operand::Absent => Ok(()),
            Operand::Register(register) => write!(f, "{register}"),
            Operand::Hexadecimal(value) => write!(f, "#{value:#x}"),
            Operand::Decimal(value) => write!(f, "#{value}"),
            Operand::Modified(modifier) => write!(f, "{modifier}"),
            Operand::Word(word) => f.write_str(word),
            Operand::Offset(base, 0) => write!(f, "[{base}]"),
            Operand::Offset(base, offset) => write!(f, "[{base}, #{offset}]"),
            Operand::PreIndexed(base, offset) => write!(f, "[{base}, #{offset}]!"),
            Operand::Indexed(base, index) => write!(f, "[{base}, {index}]"),
            Operand::Extended(base, index, modifier) => {
                write!(f, "[{base}, {index}, {modifier}]")
            }
            Operand::Relative(distance) => {
                let sign = if distance < 0 { "-" } else { "+" };
                let magnitude = distance.unsigned_abs();
                write!(f, ".{sign}{magnitude:#x}")
            }
            Operand::Absolute(address) => write!(f, "{address:#x}"),
        }
    }
}

/// A register of 64 bits where `sf` is 1, else of 32 bits.
pub fn general(sf: u8, number: u8) -> Operand {
    Operand::Register(if sf == 1 {
        Register::X(number)
    } else {
        Register::W(number)
    })
}

/// As [`general`], with the stack pointer for 31.
pub fn general_or_sp(sf: u8, number: u8) -> Operand {
    Operand::Register(if sf == 1 {
        Register::XOrSp(number)
    } else {
        Register::WOrSp(number)
    })
}

/// A line: the mnemonic in two parts, `ldr` and `sb`, and the operands.
#[derive(Clone, Copy)]
pub struct TextLine {
    stem: &'static str,
    suffix: &'static str,
    operands: [Operand; 4],
}

impl TextLine {
    pub fn with_suffix(self, suffix: &'static str) -> TextLine {
        TextLine { suffix, ..self }
    }
}

pub fn alone(stem: &'static str) -> TextLine {
    one(stem, Operand::Absent)
}

pub fn one(stem: &'static str, first: Operand) -> TextLine {
    two(stem, first, Operand::Absent)
}

pub fn two(stem: &'static str, first: Operand, second: Operand) -> TextLine {
    three(stem, first, second, Operand::Absent)
}

pub fn three(stem: &'static str, first: Operand, second: Operand, third: Operand) -> TextLine {
    four(stem, first, second, third, Operand::Absent)
}

pub fn four(
    stem: &'static str,
    first: Operand,
    second: Operand,
    third: Operand,
    fourth: Operand,
) -> TextLine {
    TextLine {
        stem,
        suffix: "",
        operands: [first, second, third, fourth],
    }
}

impl fmt::Display for TextLine {
    fn fmt<W: fmt::Write>(&self, f: &mut fmt::Formatter<W>) -> fmt::Result {
        f.write_str(self.stem)?;
        f.write_str(self.suffix)?;
        let mut separator = " ";
        for operand in &self.operands {
            if !matches!(operand, Operand::Absent) {
                write!(f, "{separator}{operand}")?;
                separator = ", ";
            }
        }
        Ok(())
    }
}
