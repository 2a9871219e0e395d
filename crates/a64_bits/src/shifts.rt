//! Shifts and rotations in a register of `size` bits.

ghost use Rattle.std.specs.Prelude.{◌≡◌, ◌^◌, ◌<◌, ◌≤◌};
ghost use Rattle.a64_bits.specs.Shifts.{
  shifted_left,
  shifted_right,
  shifted_right_signed,
  rotated_right,
};
ghost use Rattle.a64_bits.specs.Arithmetic.{IsRegisterSize};

use crate::powers::{low_bits, ones, power_of_two};

/// `value` shifted left by `amount` bits in `size` bits (LSL); what leaves at the top is lost.
#[inline(always)]
#[tactic(auto, unfolding(crate::specs::Shifts::shifted_left))]
pub fn shift_left(value: u64, amount: u32, size: u32) -> u64
    requires size { IsRegisterSize size }
    requires within { amount < size }
    requires fits { value < 2 ^ size }
    ensures { result ≡ shifted_left size amount value }
{
    let shifted = value << amount;
    if size == 32 {
        shifted % (1 << 32)
    } else {
        shifted
    }
}

/// `value` shifted right by `amount` bits, with zeros at the top (LSR).
#[inline(always)]
#[tactic(auto, unfolding(crate::specs::Shifts::shifted_right))]
pub fn shift_right(value: u64, amount: u32, size: u32) -> u64
    requires size { IsRegisterSize size }
    requires within { amount < size }
    requires fits { value < 2 ^ size }
    ensures { result ≡ shifted_right size amount value }
{
    value >> amount
}

/// `value` shifted right by `amount` bits, with copies of its top bit at the top (ASR).
#[inline(always)]
#[tactic(auto, unfolding(crate::specs::Shifts::shifted_right_signed))]
pub fn shift_right_signed(value: u64, amount: u32, size: u32) -> u64
    requires size { IsRegisterSize size }
    requires within { amount < size }
    requires fits { value < 2 ^ size }
    ensures { result ≡ shifted_right_signed size amount value }
{
    let most = ones(size);
    if value < power_of_two(size - 1) {
        value >> amount
    } else {
        most - ((most - value) >> amount)
    }
}

/// `value` rotated right by `amount` bits in `size` bits (ROR); any size up to 64 is allowed.
#[inline(always)]
#[tactic(auto, unfolding(crate::specs::Shifts::rotated_right))]
pub fn rotate_right(value: u64, amount: u32, size: u32) -> u64
    requires size { size ≤ 64 }
    requires within { amount < size }
    requires fits { value < 2 ^ size }
    ensures { result ≡ rotated_right size amount value }
{
    if amount == 0 {
        return value;
    }
    (value >> amount) + (low_bits(value, amount) << (size - amount))
}
