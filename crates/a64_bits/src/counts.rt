//! Counts of leading bits (CLZ, CLS).

ghost use Rattle.std.specs.Prelude.{◌≡◌, ◌^◌, ◌<◌, ◌≤◌};
ghost use Rattle.a64_bits.specs.Arithmetic.{IsRegisterSize};
ghost use Rattle.a64_bits.specs.Counts.{leading_zeros_of, leading_signs_of};

use crate::powers::{ones, power_of_two};

/// The zeros above the highest one in `size` bits (CLZ).
#[inline(always)]
pub fn count_leading_zeros(x: u64, size: u32) -> u64
    requires size { IsRegisterSize size }
    requires x { x < 2 ^ size }
    ensures { result ≡ leading_zeros_of size x }
{
    leading_zeros(x, size)
}

/// The bits below the top bit that equal it without a break (CLS).
#[inline(always)]
#[tactic(auto, unfolding(crate::specs::Counts::leading_signs_of))]
pub fn count_leading_sign(x: u64, size: u32) -> u64
    requires size { IsRegisterSize size }
    requires x { x < 2 ^ size }
    ensures { result ≡ leading_signs_of size x }
{
    if x < power_of_two(size - 1) {
        leading_zeros(x, size - 1)
    } else {
        leading_zeros(ones(size) - x, size - 1)
    }
}

/// The zeros above the highest one in a number of any `size` up to 64 bits.
#[inline(always)]
fn leading_zeros(x: u64, size: u32) -> u64
    requires size { size ≤ 64 }
    requires x { x < 2 ^ size }
    ensures { result ≡ leading_zeros_of size x }
{
    (x.leading_zeros() - (64 - size)) as u64
}
