//! Fields of a word, and numbers in two's complement.

ghost use Rattle.std.specs.Prelude.{◌≡◌, ◌+◌, ◌^◌, ◌<◌, ◌≤◌, IsTrue, ◌↔◌};
ghost use Rattle.a64_bits.specs.Fields.{
  field_of,
  signed_of,
  FitsSignedField,
  twos_complement,
  sign_extended,
};

use crate::powers::{low_bits, ones, power_of_two};

/// The `width` bits of `word` from bit `position` up, below 2^width.
#[inline(always)]
pub fn field(word: u32, position: u32, width: u32) -> u32
    requires in_word { position + width ≤ 32 }
    requires some { 0 < width }
    requires narrow { width < 32 }
    ensures { result ≡ field_of position width word }
{
    (word >> position) & ((1 << width) - 1)
}

/// A field's bits as a number in two's complement, from -2^(width-1) to 2^(width-1) - 1.
#[inline(always)]
pub fn signed_field(word: u32, position: u32, width: u32) -> i32
    requires in_word { position + width ≤ 32 }
    requires some { 0 < width }
    requires narrow { width < 31 }
    ensures { result ≡ signed_of width (field_of position width word) }
{
    let bits = field(word, position, width);
    let half = 1 << (width - 1);
    if bits < half {
        bits as i32
    } else {
        bits as i32 - half as i32 - half as i32
    }
}

/// Whether `value` has `width` bits in two's complement.
#[inline(always)]
pub fn fits_signed(value: i32, width: u32) -> bool
    requires some { 0 < width }
    requires narrow { width < 31 }
    ensures { IsTrue result ↔ FitsSignedField width value }
{
    let half = 1 << (width - 1);
    let magnitude = value.unsigned_abs();
    if value >= 0 {
        magnitude < half
    } else {
        magnitude <= half
    }
}

/// The `width` bits of `value` in two's complement.
#[inline(always)]
pub fn signed_bits(value: i32, width: u32) -> u32
    requires fits { FitsSignedField width value }
    requires some { 0 < width }
    requires narrow { width < 31 }
    ensures same { result ≡ twos_complement width value }
    ensures below { result < 2 ^ width }
{
    if value >= 0 {
        value.unsigned_abs()
    } else {
        (1 << width) - value.unsigned_abs()
    }
}

/// The low `width` bits of `value`, sign-extended to 64 bits (SignExtend).
#[inline(always)]
pub fn sign_extend(value: u64, width: u32) -> u64
    requires some { 0 < width }
    requires narrow { width ≤ 64 }
    ensures { result ≡ sign_extended width value }
{
    let low = low_bits(value, width);
    if low < power_of_two(width - 1) {
        low
    } else {
        low + (u64::MAX - ones(width))
    }
}
