//! The effect of an instruction, in few letters.

use a64_access::{AccessForm, StoredTags};
use a64_decode::decode;
use a64_instr::Instr;
use a64_registers::Regs;
use run_records::{Moment, Nzcv};
use std::fmt;

/// A step: the index of its word; the registers that it changed, as `x8=f0`, `sp=3ffffff0`,
/// `f=nZCv` for the flags and `t=5` for the generator's tag; what it loads, `r12000010+8`, or
/// stores, `w12000010+8`; and the tags that it stores, `g12000010+2=5` for two granules. Addresses
/// and values are in hexadecimal, and an address has its pointer's tag. An access is there also
/// where it failed.
#[derive(Clone, Copy)]
pub(crate) struct StepText<'a> {
    /// The index of its word.
    pub(crate) index: usize,
    /// Before it.
    pub(crate) moment: &'a Moment,
    /// The registers after it.
    pub(crate) after: &'a Regs,
}

impl<'a> fmt::Display for StepText<'a> {
    fn fmt<W: fmt::Write>(&self, f: &mut fmt::Formatter<W>) -> fmt::Result {
        let before = &self.moment.regs;
        write!(f, "{}", self.index)?;
        write_numbered(f, before, self.after)?;
        write_others(f, before, self.after)?;
        match self.moment.word.and_then(|word| decode(word)) {
            Some(instr) => write_access(f, &instr, before),
            None => Ok(()),
        }
    }
}

/// Writes the numbered registers that differ.
fn write_numbered<W: fmt::Write>(
    f: &mut fmt::Formatter<W>,
    before: &Regs,
    after: &Regs,
) -> fmt::Result {
    for (n, (old, new)) in before.x.iter().zip(after.x.iter()).enumerate() {
        if old != new {
            write!(f, " x{n}={new:x}")?;
        }
    }
    Ok(())
}

/// Writes SP, the flags and the generator's tag where they differ.
fn write_others<W: fmt::Write>(
    f: &mut fmt::Formatter<W>,
    before: &Regs,
    after: &Regs,
) -> fmt::Result {
    if before.sp != after.sp {
        write!(f, " sp={:x}", after.sp)?;
    }
    if before.flags != after.flags {
        write!(f, " f={}", Nzcv(after.flags))?;
    }
    if before.rgsr != after.rgsr {
        write!(f, " t={:x}", after.rgsr.tag)?;
    }
    Ok(())
}

/// Writes what an instruction loads or stores, and the tags that it stores.
fn write_access<W: fmt::Write>(
    f: &mut fmt::Formatter<W>,
    instr: &Instr,
    regs: &Regs,
) -> fmt::Result {
    let Some(form) = AccessForm::of(instr) else {
        return Ok(());
    };
    if form.is_of_registers() {
        let letter = if form.is_write() { "w" } else { "r" };
        write!(f, " {letter}{:x}+{}", form.addr(regs), form.len())?;
    }
    match form.stored_tags(regs) {
        Some(
            StoredTags {
                addr,
                granules,
                tag,
            },
        ) => write!(f, " g{addr:x}+{granules}={tag:x}"),
        None => Ok(()),
    }
}
