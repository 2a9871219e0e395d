//! An attempted instruction, and what it changed.

use crate::instruction::Instruction;
use crate::loaded::load_of;
use crate::stored::store_of;
use crate::written::written_by;
use a64_bits::Flags;
use a64_decode::decode;
use a64_registers::Regs;
use std::fmt;
use std::fmt::Display;

/// The state before an instruction was attempted.
#[derive(Clone, Copy)]
pub struct Moment {
    /// Its number, from 1.
    pub step: u64,
    /// Its word, if it could be fetched.
    pub word: Option<u32>,
    /// The registers.
    pub regs: Regs,
}

/// An instruction's line: where it is, what it is, and what it changed.
#[derive(Clone, Copy)]
pub struct TraceLine<'a> {
    /// Before it.
    pub moment: &'a Moment,
    /// The registers after it.
    pub after: &'a Regs,
}

impl<'a> fmt::Display for TraceLine<'a> {
    fn fmt<W: fmt::Write>(&self, f: &mut fmt::Formatter<W>) -> fmt::Result {
        let Moment { step, word, regs } = self.moment;
        let pc = regs.pc;
        let Some(word) = *word else {
            return write!(f, "{step:>9}  {pc:#018x}  --------");
        };
        let instruction = Instruction { word, pc };
        let effect = Effect {
            word,
            before: regs,
            after: self.after,
        };
        write!(
            f,
            "{step:>9}  {pc:#018x}  {word:08x}  {instruction}{effect}"
        )
    }
}

/// The changes by an instruction; none where it did not complete.
#[derive(Clone, Copy)]
struct Effect<'a> {
    word: u32,
    before: &'a Regs,
    after: &'a Regs,
}

impl<'a> fmt::Display for Effect<'a> {
    fn fmt<W: fmt::Write>(&self, f: &mut fmt::Formatter<W>) -> fmt::Result {
        let Effect {
            word,
            before,
            after,
        } = *self;
        if before == after {
            return Ok(());
        }
        let changes = Changes { before, after };
        changes.fmt(f)?;
        let Some(instr) = decode(word) else {
            return Ok(());
        };
        write_kept(f, written_by(&instr), before, after)?;
        if let Some(stored) = store_of(&instr, before) {
            return write!(f, "; {stored}");
        }
        match load_of(&instr, before, after) {
            Some(loaded) => write!(f, "; {loaded}"),
            None => Ok(()),
        }
    }
}

/// The registers that differ, but PC.
#[derive(Clone, Copy)]
struct Changes<'a> {
    before: &'a Regs,
    after: &'a Regs,
}

impl<'a> fmt::Display for Changes<'a> {
    fn fmt<W: fmt::Write>(&self, f: &mut fmt::Formatter<W>) -> fmt::Result {
        self.write_numbered(f)?;
        self.write_sp(f)?;
        self.write_flags(f)?;
        self.write_generator(f)
    }
}

impl<'a> Changes<'a> {
    /// Writes those of the numbered registers.
    fn write_numbered<W: fmt::Write>(&self, f: &mut fmt::Formatter<W>) -> fmt::Result {
        for (n, (old, new)) in self.before.x.iter().zip(self.after.x.iter()).enumerate() {
            write_change(f, n, *old, *new)?;
        }
        Ok(())
    }

    /// Writes the change of SP.
    fn write_sp<W: fmt::Write>(&self, f: &mut fmt::Formatter<W>) -> fmt::Result {
        let (old, new) = (self.before.sp, self.after.sp);
        if old == new {
            return Ok(());
        }
        write!(f, "; sp {old:#x} -> {new:#x}")
    }

    /// Writes the change of the flags.
    fn write_flags<W: fmt::Write>(&self, f: &mut fmt::Formatter<W>) -> fmt::Result {
        if self.before.flags == self.after.flags {
            return Ok(());
        }
        let (old, new) = (Nzcv(self.before.flags), Nzcv(self.after.flags));
        write!(f, "; flags {old} -> {new}")
    }

    /// Writes the change of the generator's tag, also where its seed alone differs.
    fn write_generator<W: fmt::Write>(&self, f: &mut fmt::Formatter<W>) -> fmt::Result {
        let (old, new) = (&self.before.rgsr, &self.after.rgsr);
        if old == new {
            return Ok(());
        }
        write!(f, "; rgsr tag {} -> {}", old.tag, new.tag)
    }
}

/// Writes the change of a numbered register.
fn write_change<W: fmt::Write>(
    f: &mut fmt::Formatter<W>,
    n: usize,
    old: u64,
    new: u64,
) -> fmt::Result {
    if old == new {
        return Ok(());
    }
    write!(f, "; x{n} {old:#x} -> {new:#x}")
}

/// Writes the value of a register that an instruction wrote, where it is what it was.
fn write_kept<W: fmt::Write>(
    f: &mut fmt::Formatter<W>,
    register: Option<u8>,
    before: &Regs,
    after: &Regs,
) -> fmt::Result {
    let Some(n) = register else {
        return Ok(());
    };
    match (before.x.get(usize::from(n)), after.x.get(usize::from(n))) {
        (Some(old), Some(new)) if old == new => write!(f, "; x{n} {new:#x} kept"),
        _ => Ok(()),
    }
}

/// The flags: a capital letter for each that is set.
#[derive(Clone, Copy)]
pub struct Nzcv(pub Flags);

impl fmt::Display for Nzcv {
    fn fmt<W: fmt::Write>(&self, f: &mut fmt::Formatter<W>) -> fmt::Result {
        let Flags { n, z, c, v } = self.0;
        let (n, z) = (either(n, "N", "n"), either(z, "Z", "z"));
        let (c, v) = (either(c, "C", "c"), either(v, "V", "v"));
        write!(f, "{n}{z}{c}{v}")
    }
}

/// The text of a flag, by whether it is set.
fn either(flag: bool, set: &'static str, clear: &'static str) -> &'static str {
    if flag { set } else { clear }
}
