//! Whether conditions on the flags are defined.

use crate::bit_rules::{BitOperand, difference, sum};
use crate::origin::UndefinedOrigin;
use a64_bits::Flags;
use a64_registers::conditions::condition_holds;

/// Two values that were compared: as SUBS compares them.
#[derive(Clone, Copy, PartialEq, Eq)]
pub struct Comparison {
    /// The first.
    pub x: BitOperand,
    /// The second.
    pub y: BitOperand,
    /// The sign bit of their size.
    pub sign: u64,
}

/// Flags of which each is defined or not.
#[derive(Clone, Copy, PartialEq, Eq)]
pub struct SetFlags {
    /// The flags that there happen to be.
    pub flags: Flags,
    /// Those that are undefined.
    pub undefined: Flags,
}

/// The facts about the flags.
#[derive(Clone, Copy, PartialEq, Eq)]
pub enum FlagState {
    /// They are defined.
    Defined,
    /// They are those of a comparison of values that have undefined bits.
    Compared(Comparison, UndefinedOrigin),
    /// They are those of a result with undefined bits of ANDS or BICS, with its sign bit.
    Tested(BitOperand, u64, UndefinedOrigin),
    /// Some of them are undefined, each for itself.
    Partly(SetFlags, UndefinedOrigin),
    /// They are these or those, by a condition that was not defined.
    Either(Flags, Flags, UndefinedOrigin),
    /// They are not defined.
    Undefined(UndefinedOrigin),
}

impl FlagState {
    /// Of what the undefined bits are a part by which a condition of four bits may hold or not;
    /// `None` where the condition is defined.
    pub fn undefined_origin(&self, cond: u8) -> Option<UndefinedOrigin> {
        if cond >= 14 {
            return None;
        }
        let (is_undefined, origin) = match self {
            FlagState::Defined => return None,
            FlagState::Compared(compared, origin) => (compared.is_undefined(cond / 2), *origin),
            FlagState::Tested(result, sign, origin) => {
                (is_test_undefined(*result, *sign, cond / 2), *origin)
            }
            FlagState::Partly(set, origin) => (set.is_undefined(cond), *origin),
            FlagState::Either(one, other, origin) => {
                let differ = condition_holds(*one, cond) != condition_holds(*other, cond);
                (differ, *origin)
            }
            FlagState::Undefined(origin) => (true, *origin),
        };
        if is_undefined { Some(origin) } else { None }
    }

    /// Of what the undefined bits are a part, where they are not defined.
    pub fn origin(&self) -> Option<UndefinedOrigin> {
        match self {
            FlagState::Defined => None,
            FlagState::Compared(_, origin)
            | FlagState::Tested(_, _, origin)
            | FlagState::Partly(_, origin)
            | FlagState::Either(_, _, origin)
            | FlagState::Undefined(origin) => Some(*origin),
        }
    }
}

impl FlagState {
    /// Which of the flags are undefined.
    pub fn undefined_flags(&self) -> Flags {
        Flags {
            n: self.undefined_origin(4).is_some(),
            z: self.undefined_origin(0).is_some(),
            c: self.undefined_origin(2).is_some(),
            v: self.undefined_origin(6).is_some(),
        }
    }
}

impl SetFlags {
    /// Whether a condition of four bits, below 14, may hold or not.
    fn is_undefined(&self, cond: u8) -> bool {
        let holds = condition_holds(self.flags, cond % 16);
        for choice in 0..16u8 {
            if condition_holds(self.chosen(choice), cond % 16) != holds {
                return true;
            }
        }
        false
    }

    /// The flags of which those that are undefined are those of a number of four bits.
    fn chosen(&self, choice: u8) -> Flags {
        let (flags, undefined) = (self.flags, self.undefined);
        Flags {
            n: if undefined.n {
                choice / 8 % 2 == 1
            } else {
                flags.n
            },
            z: if undefined.z {
                choice / 4 % 2 == 1
            } else {
                flags.z
            },
            c: if undefined.c {
                choice / 2 % 2 == 1
            } else {
                flags.c
            },
            v: if undefined.v {
                choice % 2 == 1
            } else {
                flags.v
            },
        }
    }
}

impl Comparison {
    /// Whether a test of the flags is undefined: 0 EQ, 1 HS, 2 MI, 3 VS, 4 HI, 5 GE, 6 GT.
    fn is_undefined(&self, test: u8) -> bool {
        let (x, y) = (self.x, self.y);
        let (signed_x, signed_y) = (self.biased(x), self.biased(y));
        match test {
            0 => (x.value ^ y.value) & !(x.undefined | y.undefined) == 0,
            1 => x.least() < y.greatest() && x.greatest() >= y.least(),
            2 => difference(x, y) & self.sign != 0,
            4 => x.least() <= y.greatest() && x.greatest() > y.least(),
            5 => {
                signed_x.least() < signed_y.greatest() && signed_x.greatest() >= signed_y.least()
            }
            6 => {
                signed_x.least() <= signed_y.greatest() && signed_x.greatest() > signed_y.least()
            }
            _ => true,
        }
    }

    /// A value whose sign bit is inverted, so that signed order is that of numbers.
    fn biased(&self, operand: BitOperand) -> BitOperand {
        BitOperand {
            value: operand.value ^ self.sign,
            undefined: operand.undefined,
        }
    }
}

/// Which flags of a sum are undefined, whose operands have a sign bit and none above it. V counts
/// as undefined, but where an operand is 0.
pub fn undefined_in_sum(x: BitOperand, y: BitOperand, sign: u64) -> Flags {
    let mask = sign | sign.wrapping_sub(1);
    let bits = sum(x, y) & mask;
    let result = x.value.wrapping_add(y.value) & mask;
    let least = is_carry(x.least(), y.least(), mask);
    let greatest = is_carry(x.greatest(), y.greatest(), mask);
    Flags {
        n: bits & sign != 0,
        z: bits != 0 && result & !bits == 0,
        c: least != greatest,
        v: bits != 0 && !x.is_zero() && !y.is_zero(),
    }
}

/// Whether a sum of numbers in the bits of a mask has a bit above them.
fn is_carry(x: u64, y: u64, mask: u64) -> bool {
    x > mask.wrapping_sub(y)
}

/// The flags of a result of ANDS, after which C and V are 0.
fn is_test_undefined(tested: BitOperand, sign: u64, test: u8) -> bool {
    match test {
        0 => tested.may_be_zero(),
        2 | 5 => tested.undefined & sign != 0,
        6 => {
            let is_positive = tested.undefined & sign == 0 && tested.value & sign != 0;
            !is_positive && (tested.may_be_zero() || tested.undefined & sign != 0)
        }
        _ => false,
    }
}
