//! Powers of two and the low bits of a number: what the other modules take shifts and masks from.

ghost use Rattle.std.specs.Prelude.{◌≡◌, ◌-◌, ◌%◌, ◌^◌, ◌<◌, ◌≤◌};

/// 2^`exponent`.
#[inline(always)]
pub fn power_of_two(exponent: u32) -> u64
    requires { exponent < 64 }
    ensures { result ≡ 2 ^ exponent }
{
    1 << exponent
}

/// `width` ones.
#[inline(always)]
pub fn ones(width: u32) -> u64
    requires some { 0 < width }
    requires narrow { width ≤ 64 }
    ensures { result ≡ 2 ^ width - 1 }
{
    let half = power_of_two(width - 1);
    half - 1 + half
}

/// The low `width` bits of `value`.
#[inline(always)]
pub fn low_bits(value: u64, width: u32) -> u64
    requires some { 0 < width }
    requires narrow { width ≤ 64 }
    ensures { result ≡ value % 2 ^ width }
{
    value & ones(width)
}
