//! The rules of instructions that work on registers for undefined bits.

use crate::state::UndefinedBits;
use a64_bits::{
    Flags, add_with_carry, bit_masks, extract, move_field, reverse_bits, reverse_bytes,
};
use a64_instr::Instr;
use a64_registers::operands::{extend, inverted, shift_by, size_of_operands, truncate};
use shadow_memory::Step;
use undefined_values::{
    BitOperand, Comparison, FlagState, SetFlags, UndefinedOrigin, UndefinedValue, all_if, and,
    difference, from_lowest, leading_signs, leading_zeros, or, product, sum, undefined_in_sum,
};

/// A sum or a difference of two values, and of what their undefined bits are a part.
#[derive(Clone, Copy)]
pub(crate) struct SumOperands {
    /// 0 has 32 bits, 1 has 64.
    pub(crate) sf: u8,
    /// 0 adds, 1 subtracts.
    pub(crate) op: u8,
    pub(crate) x: BitOperand,
    pub(crate) y: BitOperand,
    pub(crate) origin: UndefinedOrigin,
}

impl SumOperands {
    /// Its undefined bits.
    pub(crate) fn bits(&self) -> u64 {
        if self.x.undefined | self.y.undefined == 0 {
            return 0;
        }
        let bits = if self.op == 1 {
            difference(self.x, self.y)
        } else {
            sum(self.x, self.y)
        };
        truncate(self.sf, bits)
    }

    /// The facts about the flags that it sets. A sum with a number is a comparison with that
    /// number's negative, unless it is 0 or has no negative: of other sums each flag is known.
    pub(crate) fn flags(&self) -> FlagState {
        if self.x.undefined | self.y.undefined == 0 {
            return FlagState::Defined;
        }
        let sign = sign_of(self.sf);
        let is_number = self.y.undefined == 0 && self.y.value & !sign != 0;
        let y = if self.op == 1 {
            self.y
        } else if is_number {
            BitOperand::defined(truncate(self.sf, self.y.value.wrapping_neg()))
        } else {
            return FlagState::Partly(self.flags_of_sum(), self.origin);
        };
        let x = self.x;
        FlagState::Compared(Comparison { x, y, sign }, self.origin)
    }

    /// The flags that a sum sets.
    fn flags_of_sum(&self) -> SetFlags {
        SetFlags {
            flags: flags_set_by(self),
            undefined: undefined_in_sum(self.x, self.y, sign_of(self.sf)),
        }
    }
}

impl UndefinedBits {
    /// Notes an instruction that is no load or store.
    pub(crate) fn note_registers(&mut self, step: &Step<'_>) {
        match *step.instr {
            Instr::AddSubImm { .. } | Instr::AddSubShift { .. } | Instr::AddSubExt { .. } => {
                self.note_sum(step)
            }
            Instr::LogImm { .. } => self.note_mask(step),
            Instr::LogShift { .. } => self.note_logic(step),
            Instr::Bitfield { .. } => self.note_field(step),
            Instr::Extr { .. } | Instr::MoveWide { .. } => self.note_move(step),
            Instr::CondSel { .. } => self.note_selection(step),
            Instr::CondCmp { .. } => self.note_conditional_compare(step),
            Instr::AdcSbc { .. } => self.note_carried_sum(step),
            Instr::TwoSource { .. } => self.note_two_sources(step),
            Instr::OneSource { .. } => self.note_one_source(step),
            Instr::MulAdd { .. } | Instr::MulAddLong { .. } | Instr::MulHigh { .. } => {
                self.note_product(step)
            }
            _ => self.note_other(step),
        }
    }

    /// Notes a sum or a difference.
    fn note_sum(&mut self, step: &Step<'_>) {
        let (rd, s) = match *step.instr {
            Instr::AddSubImm { s, rd, .. }
            | Instr::AddSubShift { s, rd, .. }
            | Instr::AddSubExt { s, rd, .. } => (rd, s),
            _ => return,
        };
        let Some(operands) = self.sum_operands(step) else {
            return;
        };
        if s == 1 {
            self.set_flags(operands.flags());
        }
        self.set(rd, UndefinedValue::of(operands.bits(), operands.origin));
    }

    /// The operands of a sum or a difference.
    fn sum_operands(&self, step: &Step<'_>) -> Option<SumOperands> {
        match *step.instr {
            Instr::AddSubImm {
                sf,
                op,
                sh,
                imm12,
                rn,
                ..
            } => {
                let shift = if sh == 1 { 12 } else { 0 };
                Some(SumOperands {
                    sf,
                    op,
                    x: self.operand(step, sf, rn),
                    y: BitOperand::defined(u64::from(imm12).wrapping_shl(shift)),
                    origin: self.register(rn).origin,
                })
            }
            Instr::AddSubExt {
                sf,
                op,
                rm,
                option,
                imm3,
                rn,
                ..
            } => {
                let (x, y) = (self.operand(step, sf, rn), self.operand(step, 1, rm));
                Some(SumOperands {
                    sf,
                    op,
                    x,
                    y: extended(sf, y, option, imm3),
                    origin: self.origin_of(x.undefined, rn, self.register(rm)),
                })
            }
            _ => self.shifted_operands(step),
        }
    }

    /// The rule of one with a shifted register. A register less itself is 0.
    fn shifted_operands(&self, step: &Step<'_>) -> Option<SumOperands> {
        let Instr::AddSubShift {
            sf,
            op,
            shift,
            rm,
            imm6,
            rn,
            ..
        } = *step.instr
        else {
            return None;
        };
        let is_zero = op == 1 && rm == rn && imm6 == 0;
        let (rn, rm) = if is_zero { (31, 31) } else { (rn, rm) };
        let (x, y) = (self.operand(step, sf, rn), self.operand(step, sf, rm));
        Some(SumOperands {
            sf,
            op,
            x,
            y: shifted(sf, shift, y, u32::from(imm6)),
            origin: self.origin_of(x.undefined, rn, self.register(rm)),
        })
    }

    /// Notes an operation on bits by a mask.
    fn note_mask(&mut self, step: &Step<'_>) {
        let Instr::LogImm {
            sf,
            opc,
            n,
            immr,
            imms,
            rn,
            rd,
        } = *step.instr
        else {
            return;
        };
        let x = self.operand(step, sf, rn);
        let y = BitOperand::defined(mask_of(sf, n, imms, immr));
        let result = truncate_operand(sf, logical(opc, x, y));
        self.enter_logic(sf, opc, rd, result, self.register(rn).origin);
    }

    /// Notes an operation on the bits of two registers. EOR of a register with itself is 0.
    fn note_logic(&mut self, step: &Step<'_>) {
        let Instr::LogShift {
            sf,
            opc,
            shift,
            n,
            rm,
            imm6,
            rn,
            rd,
        } = *step.instr
        else {
            return;
        };
        let is_zero = opc == 2 && rm == rn && imm6 == 0;
        let (rn, rm) = if is_zero { (31, 31) } else { (rn, rm) };
        let x = self.operand(step, sf, rn);
        let y = shifted(sf, shift, self.operand(step, sf, rm), u32::from(imm6));
        let y = if n == 1 { y.inverted(mask(sf)) } else { y };
        let result = truncate_operand(sf, logical(opc, x, y));
        let of_first = result.undefined & x.undefined;
        let origin = self.origin_of(of_first, rn, self.register(rm));
        self.enter_logic(sf, opc, rd, result, origin);
    }

    /// Enters the result of an operation on bits, which may set the flags.
    fn enter_logic(&mut self, sf: u8, opc: u8, rd: u8, found: BitOperand, origin: UndefinedOrigin) {
        if opc == 3 {
            self.set_flags(if found.undefined == 0 {
                FlagState::Defined
            } else {
                FlagState::Tested(found, sign_of(sf), origin)
            });
        }
        self.set(rd, UndefinedValue::of(found.undefined, origin));
    }

    /// Notes a move of bits.
    fn note_field(&mut self, step: &Step<'_>) {
        let Instr::Bitfield {
            sf,
            opc,
            immr,
            imms,
            rn,
            rd,
            ..
        } = *step.instr
        else {
            return;
        };
        let (old, from) = (self.operand_bits(sf, rd), self.operand_bits(sf, rn));
        if old.bits | from.bits == 0 {
            self.set(rd, UndefinedValue::DEFINED);
            return;
        }
        let size = size_of_operands(sf);
        let (immr, imms) = (u32::from(immr) % size, u32::from(imms) % size);
        let (to, moved) = (truncate(sf, old.bits), truncate(sf, from.bits));
        let bits = move_field(opc % 3, to, moved, immr, imms, size);
        let kept = move_field(opc % 3, to, 0, immr, imms, size);
        let origin = if bits == kept {
            old.origin
        } else {
            from.origin
        };
        self.set(rd, UndefinedValue::of(bits, origin));
    }

    /// Notes a move of a number, or of the bits of two registers one after the other.
    fn note_move(&mut self, step: &Step<'_>) {
        match *step.instr {
            Instr::Extr {
                sf,
                rm,
                imms,
                rn,
                rd,
                ..
            } => {
                let (high, low) = (self.operand_bits(sf, rn), self.operand_bits(sf, rm));
                let size = size_of_operands(sf);
                let (above, below) = (truncate(sf, high.bits), truncate(sf, low.bits));
                let by = u32::from(imms) % size;
                let bits = extract(above, below, by, size);
                let from_low = UndefinedValue::of(below.wrapping_shr(by), low.origin);
                self.set(rd, UndefinedValue::of(bits, from_low.origin_or(high)));
            }
            Instr::MoveWide {
                sf,
                opc: 3,
                hw,
                rd,
                ..
            } => {
                let old = self.operand_bits(sf, rd);
                let moved = 0xffffu64.wrapping_shl(u32::from(hw % 4) * 16);
                self.set(rd, UndefinedValue::of(old.bits & !moved, old.origin));
            }
            Instr::MoveWide { rd, .. } => self.set(rd, UndefinedValue::DEFINED),
            _ => {}
        }
    }

    /// Notes a shift by a register, or a division.
    fn note_two_sources(&mut self, step: &Step<'_>) {
        let Instr::TwoSource {
            sf,
            rm,
            opcode,
            rn,
            rd,
        } = *step.instr
        else {
            return;
        };
        let (x, y) = (self.operand_bits(sf, rn), self.operand(step, sf, rm));
        let origin = x.origin_or(self.register(rm));
        let size = size_of_operands(sf);
        let amount = (y.value % u64::from(size)) as u32;
        let bits = if opcode < 8 {
            all_if(x.bits | y.undefined)
        } else if y.undefined % u64::from(size) != 0 {
            u64::MAX
        } else {
            shift_by(opcode % 4, truncate(sf, x.bits), amount, size)
        };
        self.set(rd, UndefinedValue::of(truncate(sf, bits), origin));
    }

    /// Notes a reversal or a count of bits.
    fn note_one_source(&mut self, step: &Step<'_>) {
        let Instr::OneSource { sf, opcode, rn, rd } = *step.instr else {
            return;
        };
        let x = self.operand(step, sf, rn);
        let size = size_of_operands(sf);
        let bits = match opcode {
            _ if x.undefined == 0 => 0,
            0 => reverse_bits(truncate(sf, x.undefined), size),
            1 => reverse_bytes(truncate(sf, x.undefined), 2, size),
            2 => reverse_bytes(truncate(sf, x.undefined), 4, size),
            3 if sf == 1 => reverse_bytes(x.undefined, 8, 64),
            4 => leading_zeros(x, size),
            _ => leading_signs(x, size),
        };
        self.set(
            rd,
            UndefinedValue::of(truncate(sf, bits), self.register(rn).origin),
        );
    }

    /// Notes a product, which may be added to a register or subtracted from it.
    fn note_product(&mut self, step: &Step<'_>) {
        let (sf, rm, ra, rn, rd, is_long) = match *step.instr {
            Instr::MulAdd {
                sf,
                rm,
                ra,
                rn,
                rd,
                ..
            } => (sf, rm, ra, rn, rd, false),
            Instr::MulAddLong { rm, ra, rn, rd, .. } => (1, rm, ra, rn, rd, true),
            Instr::MulHigh { rm, rn, rd, .. } => (1, rm, 31, rn, rd, false),
            _ => return,
        };
        let of_factor = if is_long { 0 } else { sf };
        let (x, y) = (
            self.operand(step, of_factor, rn),
            self.operand(step, of_factor, rm),
        );
        let (added, factors) = (self.operand_bits(sf, ra), product(x, y));
        let bits = match *step.instr {
            Instr::MulHigh { .. } => all_if(factors),
            _ => from_lowest(factors | added.bits),
        };
        let origin = if factors == 0 {
            added.origin
        } else {
            self.origin_of(x.undefined, rn, self.register(rm))
        };
        self.set(rd, UndefinedValue::of(truncate(sf, bits), origin));
    }

    /// Notes other instructions: some for pointers, and the rest leave what is defined.
    fn note_other(&mut self, step: &Step<'_>) {
        match *step.instr {
            Instr::AddG { .. } | Instr::Irg { .. } | Instr::Gmi { .. } | Instr::SubP { .. } => {
                self.note_pointers(step)
            }
            Instr::Adr { rd, .. } => self.set(rd, UndefinedValue::DEFINED),
            Instr::Branch { op: 1, .. } | Instr::BranchReg { opc: 1, .. } => {
                self.set(30, UndefinedValue::DEFINED);
            }
            _ => {}
        }
    }
}

/// The flags that a sum or a difference sets, of the values that there happen to be.
pub(crate) fn flags_set_by(operands: &SumOperands) -> Flags {
    let sf = operands.sf;
    let (x, y) = (
        truncate(sf, operands.x.value),
        truncate(sf, operands.y.value),
    );
    let is_difference = operands.op == 1;
    let y = if is_difference { inverted(sf, y) } else { y };
    add_with_carry(x, y, is_difference, size_of_operands(sf)).flags
}

/// The sign bit of operands.
pub(crate) fn sign_of(sf: u8) -> u64 {
    if sf == 1 { 1 << 63 } else { 1 << 31 }
}

/// All bits of operands.
pub(crate) fn mask(sf: u8) -> u64 {
    truncate(sf, u64::MAX)
}

/// An operand in the size of an instruction's.
fn truncate_operand(sf: u8, operand: BitOperand) -> BitOperand {
    BitOperand {
        value: truncate(sf, operand.value),
        undefined: truncate(sf, operand.undefined),
    }
}

/// The result of an operation on bits, which shifts nothing.
fn logical(opc: u8, x: BitOperand, y: BitOperand) -> BitOperand {
    let value = match opc {
        1 => x.value | y.value,
        2 => x.value ^ y.value,
        _ => x.value & y.value,
    };
    let undefined = match opc {
        _ if x.undefined | y.undefined == 0 => 0,
        1 => or(x, y),
        2 => x.undefined | y.undefined,
        _ => and(x, y),
    };
    BitOperand { value, undefined }
}

/// An operand, shifted by a number of bits; its undefined bits move with it.
fn shifted(sf: u8, kind: u8, operand: BitOperand, amount: u32) -> BitOperand {
    let size = size_of_operands(sf);
    let value = shift_by(kind, truncate(sf, operand.value), amount % size, size);
    let undefined = if operand.undefined == 0 {
        0
    } else {
        shift_by(kind, truncate(sf, operand.undefined), amount % size, size)
    };
    BitOperand { value, undefined }
}

/// An operand of 64 bits, extended and shifted left; its undefined bits move with it.
fn extended(sf: u8, operand: BitOperand, option: u8, left: u8) -> BitOperand {
    let left = u32::from(left);
    let value = extend(option % 8, operand.value).wrapping_shl(left);
    let undefined = extend(option % 8, operand.undefined).wrapping_shl(left);
    truncate_operand(sf, BitOperand { value, undefined })
}

/// The mask that a logical immediate encodes.
fn mask_of(sf: u8, n: u8, imms: u8, immr: u8) -> u64 {
    if n >= 2 || imms >= 64 || immr >= 64 {
        return 0;
    }
    bit_masks(n, imms, immr, size_of_operands(sf)).unwrap_or(0)
}
