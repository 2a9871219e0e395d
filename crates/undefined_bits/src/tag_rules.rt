//! The rules for undefined bits of instructions on pointers and their tags.

use crate::register_rules::SumOperands;
use crate::state::UndefinedBits;
use a64_bits::{plain, sign_extend};
use a64_instr::Instr;
use shadow_memory::Step;
use undefined_values::{BitOperand, UndefinedValue, difference, sum};

/// The bits of a pointer's tag.
const TAG: u64 = 0xf << 56;

/// The bits above it.
const TOP: u64 = 0xf << 60;

/// The bits of a mask of tags.
const TAGS: u64 = 0xffff;

impl UndefinedBits {
    /// Notes an instruction on pointers that accesses no memory.
    pub(crate) fn note_pointers(&mut self, step: &Step<'_>) {
        match *step.instr {
            Instr::AddG { .. } => self.note_moved_pointer(step),
            Instr::Irg { rm, rn, rd } => self.note_drawn_tag(rm, rn, rd),
            Instr::Gmi { rm, rn, rd } => self.note_mask_of_tags(step, rm, rn, rd),
            Instr::SubP { .. } => self.note_difference(step),
            _ => {}
        }
    }

    /// Notes a pointer that is moved by a constant, with another tag: which it is depends on that
    /// of the pointer.
    fn note_moved_pointer(&mut self, step: &Step<'_>) {
        let Instr::AddG {
            op,
            uimm6,
            rn,
            rd,
            ..
        } = *step.instr
        else {
            return;
        };
        let pointer = self.register(rn);
        let x = BitOperand {
            value: plain(step.before.get_or_sp(rn % 32)),
            undefined: plain(pointer.bits),
        };
        let y = BitOperand::defined(u64::from(uimm6).wrapping_mul(16));
        let moved = if op == 1 { difference(x, y) } else { sum(x, y) };
        let tag = if pointer.bits & TAG == 0 { 0 } else { TAG };
        let bits = plain(moved) | tag | (pointer.bits & TOP);
        self.set(rd, UndefinedValue::of(bits, pointer.origin));
    }

    /// Notes that a register was given the tag of a granule.
    pub(crate) fn note_loaded_tag(&mut self, n: u8) {
        let old = self.register(n);
        self.set(n, UndefinedValue::of(old.bits & !TAG, old.origin));
    }

    /// Notes a tag that was drawn: which of them may be, a mask of tags says.
    fn note_drawn_tag(&mut self, rm: u8, rn: u8, rd: u8) {
        let (pointer, excluded) = (self.register(rn), self.register(rm));
        let drawn = if excluded.bits & TAGS == 0 { 0 } else { TAG };
        let kept = UndefinedValue::of(pointer.bits & !TAG, pointer.origin);
        let origin = kept.origin_or(excluded);
        self.set(rd, UndefinedValue::of(kept.bits | drawn, origin));
    }

    /// Notes that the tag of a pointer was added to a mask of tags. Where the tag is undefined, so
    /// are the bits of all tags that the mask may be without.
    fn note_mask_of_tags(&mut self, step: &Step<'_>, rm: u8, rn: u8, rd: u8) {
        let (pointer, old) = (self.register(rn), self.register(rm));
        let mask = self.operand(step, 1, rm);
        let bits = if pointer.bits & TAG != 0 {
            mask.undefined | (TAGS & !mask.least())
        } else {
            let tag = (step.before.get_or_sp(rn % 32).wrapping_shr(56) % 16) as u32;
            mask.undefined & !1u64.wrapping_shl(tag)
        };
        self.set(rd, UndefinedValue::of(bits, old.origin_or(pointer)));
    }

    /// Notes a difference of plain addresses.
    fn note_difference(&mut self, step: &Step<'_>) {
        let Instr::SubP { s, rm, rn, rd } = *step.instr else {
            return;
        };
        let x = self.plain_operand(step, rn);
        let operands = SumOperands {
            sf: 1,
            op: 1,
            x,
            y: self.plain_operand(step, rm),
            origin: self.origin_of(x.undefined, rn, self.register(rm)),
        };
        if s == 1 {
            self.set_flags(operands.flags());
        }
        self.set(rd, UndefinedValue::of(operands.bits(), operands.origin));
    }

    /// The plain address in a numbered register before an instruction, 31 for SP, with the sign of
    /// its highest bit.
    fn plain_operand(&self, step: &Step<'_>, n: u8) -> BitOperand {
        BitOperand {
            value: sign_extend(step.before.get_or_sp(n % 32), 56),
            undefined: sign_extend(self.register(n).bits, 56),
        }
    }
}
