//! The rules of instructions that work on registers for pointers.

use crate::shadow::Shadow;
use a64_bits::bit_masks;
use a64_instr::Instr;
use a64_registers::conditions::condition_holds;
use shadow_memory::{PointerOrigin, Provenance, Sign, Step};
use std::alloc::AllocError;

/// The bits of a mask that leave a pointer in its page's group: those of the page's number.
const PAGE_BITS: u64 = 0x0000_ffff_ffff_f000;

/// How many bytes the value of a register of 32 bits has.
const HALF: u8 = 4;

impl Shadow {
    /// Notes an instruction that is no load or store.
    pub(crate) fn note_registers(&mut self, step: &Step<'_>) -> Result<(), AllocError> {
        match *step.instr {
            Instr::AddSubImm { sf, rn, rd, .. } => {
                let base = self.base(rn);
                self.set_pointer(step, sf, rd, base);
            }
            Instr::AddG { rn, rd, .. } | Instr::Irg { rn, rd, .. } => {
                let base = self.base(rn);
                self.set_pointer(step, 1, rd, base);
            }
            Instr::AddSubShift { .. } | Instr::AddSubExt { .. } | Instr::SubP { .. } => {
                self.note_sum(step)?
            }
            Instr::LogImm { .. } => self.note_mask(step),
            Instr::LogShift { .. } => self.note_logic(step)?,
            Instr::Bitfield { .. } => self.note_field(step),
            Instr::CondSel { .. } => self.note_selection(step),
            Instr::MulAdd { .. } | Instr::MulAddLong { .. } => self.note_product(step),
            _ => self.note_other(step),
        }
        Ok(())
    }

    /// Enters that a register has a pointer, or what is left of it in 32 bits.
    fn set_pointer(&mut self, step: &Step<'_>, sf: u8, rd: u8, origin: PointerOrigin) {
        let value = if sf == 1 {
            Provenance::whole(origin)
        } else {
            Provenance::NONE
        };
        self.set(rd, value, step.after);
    }

    /// Notes a sum or a difference of two registers. A comparison has no result, and SP is the
    /// stack's.
    fn note_sum(&mut self, step: &Step<'_>) -> Result<(), AllocError> {
        let (sf, rd, one, other, op) = match *step.instr {
            Instr::AddSubShift {
                sf,
                op,
                rm,
                imm6,
                rn,
                rd,
                ..
            } => {
                let other = self.pointer_where(rm, imm6 == 0);
                (sf, rd, self.pointer(rn), other, op)
            }
            Instr::AddSubExt {
                sf,
                op,
                rm,
                option,
                imm3,
                rn,
                rd,
                ..
            } => {
                let other = self.pointer_where(rm, imm3 == 0 && option % 4 == 3);
                (sf, rd, self.base(rn), other, op)
            }
            Instr::SubP { rm, rn, rd, .. } => (1, rd, self.base(rn), self.base(rm), 1),
            _ => return Ok(()),
        };
        if rd == 31 {
            return Ok(());
        }
        let sign = if op == 1 { Sign::Minus } else { Sign::Plus };
        let origin = if sf == 1 {
            self.combined(one, other, sign)?
        } else {
            PointerOrigin::UNKNOWN
        };
        self.set_pointer(step, sf, rd, origin);
        Ok(())
    }

    /// Where the pointer in a register points, where the register enters as it is.
    pub(crate) fn pointer_where(&self, n: u8, is_plain: bool) -> PointerOrigin {
        if is_plain {
            self.pointer(n)
        } else {
            PointerOrigin::UNKNOWN
        }
    }

    /// Notes an operation on bits with a mask.
    fn note_mask(&mut self, step: &Step<'_>) {
        let Instr::LogImm {
            sf,
            opc,
            n,
            immr,
            imms,
            rn,
            rd,
        } = *step.instr
        else {
            return;
        };
        let old = of_size(sf, self.register(rn));
        let value = match opc {
            0 | 3 => masked(old, mask_of(sf, n, imms, immr)),
            _ if sf == 1 => Provenance::whole(old.pointer()),
            _ => Provenance::NONE,
        };
        self.set(rd, value, step.after);
    }

    /// Notes an operation on the bits of two registers.
    fn note_logic(&mut self, step: &Step<'_>) -> Result<(), AllocError> {
        let Instr::LogShift {
            sf,
            opc,
            n,
            rm,
            imm6,
            rn,
            rd,
            ..
        } = *step.instr
        else {
            return Ok(());
        };
        let value = if opc == 1 && n == 0 && rn == 31 && imm6 == 0 {
            of_size(sf, self.register(rm))
        } else if sf == 1 {
            let other = self.pointer_where(rm, imm6 == 0);
            Provenance::whole(self.logical_origin(step, self.pointer(rn), other)?)
        } else {
            Provenance::NONE
        };
        self.set(rd, value, step.after);
        Ok(())
    }

    /// Where the result of an operation on the bits of two values of 64 bits points.
    fn logical_origin(
        &mut self,
        step: &Step<'_>,
        one: PointerOrigin,
        other: PointerOrigin,
    ) -> Result<PointerOrigin, AllocError> {
        let Instr::LogShift { opc, n, rm, rn, .. } = *step.instr else {
            return Ok(PointerOrigin::UNKNOWN);
        };
        if !one.is_known() && !other.is_known() {
            return Ok(PointerOrigin::UNKNOWN);
        }
        match (opc, n) {
            (2, 0) => self.combined(one, other, Sign::Exclusive),
            (1, 1) if rn == 31 => self.combined(one, other, Sign::Minus),
            (1, _) if one.is_known() != other.is_known() && (n == 0 || one.is_known()) => {
                Ok(one.or(other))
            }
            (0 | 3, _) if !other.is_known() => Ok(kept_by(one, inverted_if(n, value(step, rm)))),
            (0 | 3, 0) if !one.is_known() => Ok(kept_by(other, value(step, rn))),
            _ => Ok(PointerOrigin::UNKNOWN),
        }
    }

    /// Notes a move of bits.
    fn note_field(&mut self, step: &Step<'_>) {
        let Instr::Bitfield {
            sf,
            opc,
            immr,
            imms,
            rn,
            rd,
            ..
        } = *step.instr
        else {
            return;
        };
        let old = of_size(sf, self.register(rn));
        let is_address = sf == 1 && immr == 0 && imms >= 47;
        let value = match opc {
            0 | 2 if is_address && old.pointer().is_known() => old,
            2 if imms >= immr => bytes_of_field(old, immr, imms),
            1 if sf == 1 && imms < immr && immr <= 16 => self.register(rd),
            _ => Provenance::NONE,
        };
        self.set(rd, value, step.after);
    }

    /// Notes a selection of one of two registers.
    fn note_selection(&mut self, step: &Step<'_>) {
        let Instr::CondSel {
            sf,
            op,
            rm,
            cond,
            rn,
            rd,
            ..
        } = *step.instr
        else {
            return;
        };
        let value = if condition_holds(step.before.flags, cond % 16) {
            self.register(rn)
        } else if op == 0 {
            self.register(rm)
        } else {
            Provenance::NONE
        };
        self.set(rd, of_size(sf, value), step.after);
    }

    /// Notes a product that is added to a register, or subtracted from it: a pointer stays one, and
    /// so does its product with 1.
    fn note_product(&mut self, step: &Step<'_>) {
        let (sf, ra, rd) = match *step.instr {
            Instr::MulAdd { sf, ra, rd, .. } => (sf, ra, rd),
            Instr::MulAddLong { ra, rd, .. } => (1, ra, rd),
            _ => return,
        };
        let origin = self.pointer(ra).or(self.product_with_one(step));
        self.set_pointer(step, sf, rd, origin);
    }

    /// The pointer that is multiplied by 1.
    fn product_with_one(&self, step: &Step<'_>) -> PointerOrigin {
        match *step.instr {
            Instr::MulAdd { o0: 0, rm, rn, .. } if value(step, rm) == 1 => self.pointer(rn),
            Instr::MulAdd { o0: 0, rm, rn, .. } if value(step, rn) == 1 => self.pointer(rm),
            _ => PointerOrigin::UNKNOWN,
        }
    }

    /// Notes an instruction that leaves no pointer where it writes.
    fn note_other(&mut self, step: &Step<'_>) {
        let rd = match *step.instr {
            Instr::MoveWide { rd, .. }
            | Instr::Extr { rd, .. }
            | Instr::Adr { rd, .. }
            | Instr::AdcSbc { rd, .. }
            | Instr::TwoSource { rd, .. }
            | Instr::OneSource { rd, .. }
            | Instr::MulHigh { rd, .. }
            | Instr::Gmi { rd, .. } => rd,
            Instr::Branch { op: 1, .. } | Instr::BranchReg { opc: 1, .. } => 30,
            _ => return,
        };
        self.set(rd, Provenance::NONE, step.after);
    }
}

/// The value of a numbered register before an instruction, 0 for 31.
fn value(step: &Step<'_>, n: u8) -> u64 {
    step.before.x.get(usize::from(n)).copied().unwrap_or(0)
}

/// A mask, inverted where `n` is 1.
fn inverted_if(n: u8, mask: u64) -> u64 {
    if n == 1 { !mask } else { mask }
}

/// A pointer of which a mask leaves the address but for its lowest bits.
fn kept_by(origin: PointerOrigin, mask: u64) -> PointerOrigin {
    if mask & PAGE_BITS == PAGE_BITS {
        origin
    } else {
        PointerOrigin::UNKNOWN
    }
}

/// The value in a register of 32 bits where `sf` is 0.
fn of_size(sf: u8, value: Provenance) -> Provenance {
    if sf == 1 { value } else { value.part(0, HALF) }
}

/// The part of a value that a mask leaves: a pointer whose address is left, or its lowest bytes.
fn masked(old: Provenance, mask: u64) -> Provenance {
    if kept_by(old.pointer(), mask).is_known() {
        return old;
    }
    old.part(0, ((!mask).trailing_zeros() / 8) as u8)
}

/// The mask that a logical immediate encodes.
fn mask_of(sf: u8, n: u8, imms: u8, immr: u8) -> u64 {
    if n >= 2 || imms >= 64 || immr >= 64 {
        return 0;
    }
    let size = if sf == 1 { 64 } else { 32 };
    bit_masks(n, imms, immr, size).unwrap_or(0)
}

/// The bytes of a value that a field of its bits is, from bit `immr` to bit `imms`.
fn bytes_of_field(old: Provenance, immr: u8, imms: u8) -> Provenance {
    let width = imms.saturating_sub(immr).saturating_add(1);
    if immr % 8 != 0 || width % 8 != 0 {
        return Provenance::NONE;
    }
    old.part(immr / 8, width / 8)
}
