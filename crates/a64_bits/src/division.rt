//! Quotients (UDIV, SDIV).

ghost use Rattle.std.specs.Prelude.{◌≡◌, ◌-◌, ◌^◌, ◌<◌, ◌≤◌, pos, neg_ℤ, int_div};
ghost use Rattle.a64_bits.specs.Arithmetic.{IsRegisterSize};
ghost use Rattle.a64_bits.specs.Fields.{signed_of, twos_complement};
ghost use Rattle.a64_bits.specs.Division.{quotient_of};

use crate::powers::{ones, power_of_two};

/// The quotient of `x` by `y` in `size` bits, 32 or 64, rounded toward zero (UDIV, and SDIV where
/// `signed`); 0 where `y` is 0.
#[inline(always)]
#[tactic(auto, unfolding(crate::specs::Division::quotient_of))]
pub fn divide(x: u64, y: u64, size: u32, signed: bool) -> u64
    requires size { IsRegisterSize size }
    requires x { x < 2 ^ size }
    requires y { y < 2 ^ size }
    ensures { result ≡ quotient_of size signed x y }
{
    if y == 0 {
        0
    } else if signed {
        divide_signed(x, y, size)
    } else {
        x / y
    }
}

/// The quotient of the magnitudes, with its sign. The quotient of the least number by -1 is
/// 2^(size-1), the least number's bits.
#[inline(always)]
fn divide_signed(x: u64, y: u64, size: u32) -> u64
    requires size { IsRegisterSize size }
    requires x { x < 2 ^ size }
    requires y { y < 2 ^ size }
    requires divisor { 0 < y }
    ensures { result ≡ twos_complement size (int_div (signed_of size x) (signed_of size y)) }
{
    let half = power_of_two(size - 1);
    if x < half {
        if y < half {
            x / y
        } else {
            negated(x / magnitude(y, size), size)
        }
    } else {
        let dividend = magnitude(x, size);
        if y < half {
            negated(dividend / y, size)
        } else {
            dividend / magnitude(y, size)
        }
    }
}

/// The magnitude of a negative number of `size` bits.
#[inline(always)]
fn magnitude(x: u64, size: u32) -> u64
    requires size { IsRegisterSize size }
    requires x { x < 2 ^ size }
    requires negative { 2 ^ (size - 1) ≤ x }
    ensures { result ≡ 2 ^ size - x }
{
    ones(size) - x + 1
}

/// -`quotient` in `size` bits.
#[inline(always)]
fn negated(quotient: u64, size: u32) -> u64
    requires size { IsRegisterSize size }
    requires fits { quotient < 2 ^ size }
    ensures { result ≡ twos_complement size (neg_ℤ (pos quotient)) }
{
    if quotient == 0 {
        0
    } else {
        ones(size) - quotient + 1
    }
}
