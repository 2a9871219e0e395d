//! Which bits of a count of leading bits are undefined: those in which the counts differ that
//! values of the undefined bits give.

use crate::bit_rules::BitOperand;

/// The bits of the counts that there may be.
#[derive(Clone, Copy)]
struct CountBits {
    /// Those that are 1 in one of them.
    some: u64,
    /// Those that are 1 in each.
    every: u64,
}

impl CountBits {
    /// Those of no count.
    const NONE: CountBits = CountBits {
        some: 0,
        every: u64::MAX,
    };

    /// Those of the counts of leading zeros of a value of so many bits, at most 64.
    fn zeros(x: BitOperand, size: u32) -> CountBits {
        let mut bits = CountBits::NONE;
        for count in 0..size {
            let place = size.saturating_sub(1).saturating_sub(count);
            let bit = 1u64.wrapping_shl(place);
            if x.greatest() & bit != 0 {
                bits = bits.with(count);
            }
            if x.least() & bit != 0 {
                return bits;
            }
        }
        bits.with(size)
    }

    /// Those with one more count.
    fn with(self, count: u32) -> CountBits {
        CountBits {
            some: self.some | u64::from(count),
            every: self.every & u64::from(count),
        }
    }

    /// Those of these counts and of others.
    fn or(self, other: CountBits) -> CountBits {
        CountBits {
            some: self.some | other.some,
            every: self.every & other.every,
        }
    }

    /// Those in which the counts differ.
    fn differing(self) -> u64 {
        self.some & !self.every
    }
}

/// The undefined bits of a count of the leading zeros of a value of so many bits, at most 64.
pub fn leading_zeros(x: BitOperand, size: u32) -> u64 {
    CountBits::zeros(x, size).differing()
}

/// The undefined bits of a count of the bits after the first that are equal to it, of a value of so
/// many bits, from 1 to 64.
pub fn leading_signs(x: BitOperand, size: u32) -> u64 {
    let others = size.saturating_sub(1);
    let sign = 1u64.wrapping_shl(others);
    let mask = sign.wrapping_sub(1);
    let rest = BitOperand {
        value: x.value & mask,
        undefined: x.undefined & mask,
    };
    let zeros = if x.least() & sign == 0 {
        CountBits::zeros(rest, others)
    } else {
        CountBits::NONE
    };
    let ones = if x.greatest() & sign != 0 {
        CountBits::zeros(rest.inverted(mask), others)
    } else {
        CountBits::NONE
    };
    zeros.or(ones).differing()
}
