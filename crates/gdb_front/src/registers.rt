//! Registers.

ghost use Rattle.std.specs.Prelude.{◌≡◌};
ghost use Rattle.gdb_front.specs.TargetValues.{value_of, word_of_generator};

use crate::text::TextBuffer;
use a64_registers::Regs;
use debuggee::{flags_word, tag_control};
use mte_tags::{Rgsr, TagMode};

/// How many registers the description has.
const COUNT: u64 = 37;

/// The registers of a tenant.
#[derive(Clone, Copy)]
pub struct TargetRegisters<'a> {
    /// Its core's.
    pub regs: &'a Regs,
    /// The mode of tag checks.
    pub mode: TagMode,
    /// How many steps it has done.
    pub step: u64,
}

impl<'a> TargetRegisters<'a> {
    /// Appends all registers, in the description's order.
    pub fn put_all(&self, text: &mut TextBuffer) {
        for number in 0..COUNT {
            self.put_one(number, text);
        }
    }

    /// Appends the register with a number; nothing where there is none.
    pub fn put_one(&self, number: u64, text: &mut TextBuffer) {
        match self.value(number) {
            Some(value) if number == 33 => text.put_word(value),
            Some(value) => text.put_double_word(value),
            None => {}
        }
    }

    /// The value of the register with a number, if there is one: x0 to x30, SP, PC, the flags, the
    /// control of tags, the steps, RGSR_EL1.
    pub fn value(&self, number: u64) -> Option<u64>
        ensures { result ≡ value_of self.now number }
    {
        let regs = self.regs;
        match number {
            31 => Some(regs.sp),
            32 => Some(regs.pc),
            33 => Some(flags_word(regs)),
            34 => Some(tag_control(self.mode)),
            35 => Some(self.step),
            36 => Some(generator(regs)),
            _ => regs.x.get(number as usize).copied(),
        }
    }
}

/// RGSR_EL1: TAG in bits 3 to 0, SEED in bits 23 to 8.
fn generator(regs: &Regs) -> u64
    ensures { result ≡ word_of_generator regs.now.rgsr }
{
    let Rgsr { tag, seed } = regs.rgsr;
    u64::from(seed) * 256 + u64::from(tag)
}
