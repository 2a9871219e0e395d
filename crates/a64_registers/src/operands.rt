//! Operands: their sizes, shifts and extensions.

ghost use Rattle.std.specs.Prelude.{◌≡◌, ◌<◌, ◌≤◌, ◌+◌, ◌-◌, ◌*◌, ◌%◌, ◌^◌};
ghost use Rattle.a64_bits.specs.Arithmetic.{IsRegisterSize};
ghost use Rattle.a64_registers.specs.Operands.{bytes_of, extend_value, operand, shift_value, size_of};

use a64_bits::{rotate_right, shift_left, shift_right, shift_right_signed, sign_extend};

/// The number of bits that an instruction works on.
#[inline(always)]
pub fn size_of_operands(sf: u8) -> u32
    ensures value { result ≡ size_of sf }
    ensures either { IsRegisterSize result }
{
    if sf == 1 { 64 } else { 32 }
}

/// The low 32 bits where `sf` is 0, else all 64.
#[inline(always)]
#[tactic(auto, unfolding(crate::specs::Operands::operand))]
pub fn truncate(sf: u8, value: u64) -> u64
    ensures value { result ≡ operand sf value }
    ensures modulo { result ≡ value % 2 ^ size_of sf }
    ensures below { result < 2 ^ size_of sf }
{
    if sf == 1 { value } else { value % (1 << 32) }
}

/// Every bit inverted: `2^size - 1 - value`.
#[inline(always)]
pub fn inverted(sf: u8, value: u64) -> u64
    requires { value < 2 ^ size_of sf }
    ensures value { result ≡ 2 ^ size_of sf - 1 - value }
    ensures below { result < 2 ^ size_of sf }
{
    if sf == 1 {
        u64::MAX - value
    } else {
        0xffff_ffff - value
    }
}

/// A shift or a rotation: 0 LSL, 1 LSR, 2 ASR, 3 ROR (ShiftReg).
#[inline(always)]
#[rattlefmt::skip]
#[tactic(auto, unfolding(
    crate::specs::Operands::shift_value,
    a64_bits::specs::Shifts::shifted_left,
    a64_bits::specs::Shifts::shifted_right,
    a64_bits::specs::Shifts::shifted_right_signed,
    a64_bits::specs::Shifts::rotated_right,
    
))]
pub fn shift_by(kind: u8, value: u64, amount: u32, size: u32) -> u64
    requires size { IsRegisterSize size }
    requires within { amount < size }
    requires fits { value < 2 ^ size }
    ensures { result ≡ shift_value size kind amount value }
{
    // Most operands are not shifted.
    if amount == 0 {
        return value;
    }
    match kind {
        0 => shift_left(value, amount, size),
        1 => shift_right(value, amount, size),
        2 => shift_right_signed(value, amount, size),
        _ => rotate_right(value, amount, size),
    }
}

/// `2^size` for a size below 4, and 8 for all others.
#[inline(always)]
#[tactic(auto, unfolding(crate::specs::Operands::bytes_of))]
pub fn byte_count(size: u8) -> u64
    ensures value { result ≡ bytes_of size }
    ensures some { 0 < result }
    ensures most { result ≤ 8 }
{
    match size {
        0 => 1,
        1 => 2,
        2 => 4,
        _ => 8,
    }
}

/// The bits of `2^size` bytes.
#[inline(always)]
pub fn bit_count(size: u8) -> u32
    ensures value { result ≡ 8 * bytes_of size }
    ensures some { 0 < result }
    ensures most { result ≤ 64 }
{
    8 * byte_count(size) as u32
}

/// The low 8, 16, 32 or 64 bits, extended with zeros or with the sign (ExtendReg).
#[inline(always)]
#[tactic(auto, unfolding(crate::specs::Operands::extend_value, crate::specs::Operands::bytes_of))]
pub fn extend(option: u8, value: u64) -> u64
    requires { option < 8 }
    ensures { result ≡ extend_value option value }
{
    match option {
        0 => value % (1 << 8),
        1 => value % (1 << 16),
        2 => value % (1 << 32),
        3 => value,
        _ => sign_extend(value, bit_count(option - 4)),
    }
}
