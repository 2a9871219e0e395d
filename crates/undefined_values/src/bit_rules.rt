//! Which bits of a result are undefined, by the values and the undefined bits of what it is
//! computed from. A value's undefined bits count as 0 and as 1 where that is needed, so that a
//! result bit is defined where all such values give the same.

/// A value and its undefined bits, in 32 or 64 bits.
#[derive(Clone, Copy, PartialEq, Eq)]
pub struct BitOperand {
    /// The value that it happens to have.
    pub value: u64,
    /// A 1 for each undefined bit.
    pub undefined: u64,
}

impl BitOperand {
    /// A value that is defined.
    pub fn defined(value: u64) -> BitOperand {
        BitOperand {
            value,
            undefined: 0,
        }
    }

    /// The least value that it may have.
    pub fn least(self) -> u64 {
        self.value & !self.undefined
    }

    /// The greatest value that it may have.
    pub fn greatest(self) -> u64 {
        self.value | self.undefined
    }

    /// The rule with each bit inverted, in the bits of a mask.
    pub fn inverted(self, mask: u64) -> BitOperand {
        BitOperand {
            value: !self.value & mask,
            undefined: self.undefined,
        }
    }

    /// Whether it is 0 and defined.
    pub(crate) fn is_zero(self) -> bool {
        self.value | self.undefined == 0
    }

    /// Whether it may be 0 and may be something else.
    pub fn may_be_zero(self) -> bool {
        self.undefined != 0 && self.least() == 0
    }
}

/// The undefined bits of a sum.
pub fn sum(x: BitOperand, y: BitOperand) -> u64 {
    let least = x.least().wrapping_add(y.least());
    let greatest = x.greatest().wrapping_add(y.greatest());
    x.undefined | y.undefined | (least ^ greatest)
}

/// The undefined bits of a difference.
pub fn difference(x: BitOperand, y: BitOperand) -> u64 {
    let least = x.least().wrapping_sub(y.greatest());
    let greatest = x.greatest().wrapping_sub(y.least());
    x.undefined | y.undefined | (least ^ greatest)
}

/// The undefined bits of AND: a defined 0 decides.
pub fn and(x: BitOperand, y: BitOperand) -> u64 {
    (x.undefined | y.undefined) & x.greatest() & y.greatest()
}

/// The undefined bits of OR: a defined 1 decides.
pub fn or(x: BitOperand, y: BitOperand) -> u64 {
    (x.undefined | y.undefined) & !x.least() & !y.least()
}

/// The undefined bits of a product: those from the lowest undefined bit on. A defined 0 decides.
pub fn product(x: BitOperand, y: BitOperand) -> u64 {
    if x.is_zero() || y.is_zero() {
        return 0;
    }
    from_lowest(x.undefined | y.undefined)
}

/// All bits from the lowest that is set on.
pub fn from_lowest(bits: u64) -> u64 {
    bits | bits.wrapping_neg()
}

/// All 64 bits where some are set.
pub fn all_if(bits: u64) -> u64 {
    if bits == 0 { 0 } else { u64::MAX }
}
