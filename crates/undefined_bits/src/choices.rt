//! The rules for undefined bits of instructions that choose by a condition, or take a carry.

use crate::register_rules::{SumOperands, flags_set_by, mask};
use crate::state::UndefinedBits;
use a64_bits::Flags;
use a64_instr::Instr;
use a64_registers::conditions::condition_holds;
use a64_registers::operands::truncate;
use shadow_memory::Step;
use undefined_values::{
    BitOperand, FlagState, SetFlags, UndefinedOrigin, UndefinedValue, difference, from_lowest, sum,
};

/// The condition that the carry is set.
const CARRY_SET: u8 = 2;

impl UndefinedBits {
    /// Notes a selection of one of two registers, the second perhaps counted up, inverted or
    /// negated. By a condition that is not defined those bits are undefined in which both differ.
    pub(crate) fn note_selection(&mut self, step: &Step<'_>) {
        let Instr::CondSel {
            sf,
            op,
            rm,
            cond,
            o2,
            rn,
            rd,
        } = *step.instr
        else {
            return;
        };
        let (first, other) = (self.register(rn), self.register(rm));
        let origin = self.flags().undefined_origin(cond % 16);
        if origin.is_none() && first.bits | other.bits == 0 {
            self.set(rd, UndefinedValue::DEFINED);
            return;
        }
        let x = self.operand(step, sf, rn);
        let y = altered(sf, op, o2, self.operand(step, sf, rm));
        let value = match origin {
            Some(origin) => {
                let bits = (x.value ^ y.value) | x.undefined | y.undefined;
                UndefinedValue::of(bits, origin)
            }
            None if condition_holds(step.before.flags, cond % 16) => {
                UndefinedValue::of(x.undefined, first.origin)
            }
            None => UndefinedValue::of(y.undefined, other.origin),
        };
        self.set(rd, value);
    }

    /// Notes a comparison that is made where a condition holds; where it does not, the flags are a
    /// number.
    pub(crate) fn note_conditional_compare(&mut self, step: &Step<'_>) {
        let Instr::CondCmp {
            sf,
            op,
            rm,
            cond,
            i,
            rn,
            nzcv,
        } = *step.instr
        else {
            return;
        };
        let (y, other) = if i == 1 {
            (BitOperand::defined(u64::from(rm)), UndefinedValue::DEFINED)
        } else {
            (self.operand(step, sf, rm), self.register(rm))
        };
        let x = self.operand(step, sf, rn);
        let origin = self.origin_of(x.undefined, rn, other);
        let operands = SumOperands {
            sf,
            op,
            x,
            y,
            origin,
        };
        let state = match self.flags().undefined_origin(cond % 16) {
            Some(origin) => either(&operands, flags_of(nzcv), origin),
            None if condition_holds(step.before.flags, cond % 16) => operands.flags(),
            None => FlagState::Defined,
        };
        self.set_flags(state);
    }

    /// Notes a sum or a difference with a carry.
    pub(crate) fn note_carried_sum(&mut self, step: &Step<'_>) {
        let Instr::AdcSbc {
            sf,
            op,
            s,
            rm,
            rn,
            rd,
        } = *step.instr
        else {
            return;
        };
        let (x, y) = (self.operand(step, sf, rn), self.operand(step, sf, rm));
        let carry = self.flags().undefined_origin(CARRY_SET);
        let origin = match carry {
            Some(carry) if x.undefined | y.undefined == 0 => carry,
            _ => self.origin_of(x.undefined, rn, self.register(rm)),
        };
        let bits = match carry {
            Some(_) => u64::MAX,
            None if x.undefined | y.undefined == 0 => 0,
            None => from_lowest(x.undefined | y.undefined),
        };
        let value = UndefinedValue::of(truncate(sf, bits), origin);
        if s == 1 {
            self.set_flags(if value.is_defined() {
                FlagState::Defined
            } else {
                FlagState::Undefined(origin)
            });
        }
        self.set(rd, value);
    }
}

/// The second register of a selection as it is taken.
fn altered(sf: u8, op: u8, o2: u8, y: BitOperand) -> BitOperand {
    let (one, zero) = (BitOperand::defined(1), BitOperand::defined(0));
    let (value, undefined) = match (op, o2) {
        (0, 0) => (y.value, y.undefined),
        (0, _) => (y.value.wrapping_add(1), sum(y, one)),
        (_, 0) => (!y.value & mask(sf), y.undefined),
        _ => (y.value.wrapping_neg(), difference(zero, y)),
    };
    let undefined = if y.undefined == 0 { 0 } else { undefined };
    BitOperand {
        value: truncate(sf, value),
        undefined: truncate(sf, undefined),
    }
}

/// The facts about flags that are those of a sum or a difference, or others.
fn either(operands: &SumOperands, other: Flags, origin: UndefinedOrigin) -> FlagState {
    let one = flags_set_by(operands);
    let state = operands.flags();
    if matches!(state, FlagState::Defined) {
        return FlagState::Either(one, other, origin);
    }
    let open = state.undefined_flags();
    let undefined = Flags {
        n: open.n || one.n != other.n,
        z: open.z || one.z != other.z,
        c: open.c || one.c != other.c,
        v: open.v || one.v != other.v,
    };
    let flags = other;
    FlagState::Partly(SetFlags { flags, undefined }, origin)
}

/// The flags of a number of four bits.
fn flags_of(nzcv: u8) -> Flags {
    Flags {
        n: nzcv / 8 % 2 == 1,
        z: nzcv / 4 % 2 == 1,
        c: nzcv / 2 % 2 == 1,
        v: nzcv % 2 == 1,
    }
}
