//! Sums with a carry and their flags.

ghost use Rattle.std.specs.Prelude.{◌≡◌, ◌^◌, ◌<◌};
ghost use Rattle.a64_bits.specs.Arithmetic.{sum_with_carry, IsRegisterSize};

/// The condition flags PSTATE.N, Z, C and V.
#[derive(Clone, Copy, Debug, PartialEq, Eq)]
pub struct Flags {
    pub n: bool,
    pub z: bool,
    pub c: bool,
    pub v: bool,
}

/// A sum in 32 or 64 bits, with the flags that it gives.
#[derive(Clone, Copy)]
pub struct Sum {
    pub result: u64,
    pub flags: Flags,
}

/// `x + y + carry` in `size` bits, 32 or 64 (AddWithCarry). A difference is the sum of `x`, the
/// inverted `y` and a carry of 1.
#[inline(always)]
pub fn add_with_carry(x: u64, y: u64, carry: bool, size: u32) -> Sum
    requires size { IsRegisterSize size }
    requires x_fits { x < 2 ^ size }
    requires y_fits { y < 2 ^ size }
    ensures { result ≡ sum_with_carry size x y carry }
{
    if size == 32 {
        add_32(x, y, carry)
    } else {
        add_64(x, y, carry)
    }
}

#[rattlefmt::skip]
#[inline(always)]
#[tactic(
    auto,
    using(crate::proofs::ArithmeticLemmas::overflowed_32),
    unfolding(crate::specs::Arithmetic::sum_with_carry)
)]
fn add_32(x: u64, y: u64, carry: bool) -> Sum
    requires x_fits { x < 2 ^ 32 }
    requires y_fits { y < 2 ^ 32 }
    ensures { result ≡ sum_with_carry 32 x y carry }
{
    let total = x + y + carry as u64;
    let result = total % (1 << 32);
    let n = result >= 1 << 31;
    let v = ((x >= 1 << 31) == (y >= 1 << 31)) & ((x >= 1 << 31) != n);
    Sum {
        result,
        flags: Flags {
            n,
            z: result == 0,
            c: total >= 1 << 32,
            v,
        },
    }
}

#[rattlefmt::skip]
#[inline(always)]
#[tactic(
    auto,
    using(crate::proofs::ArithmeticLemmas::overflowed_64),
    unfolding(crate::specs::Arithmetic::sum_with_carry)
)]
fn add_64(x: u64, y: u64, carry: bool) -> Sum
    ensures { result ≡ sum_with_carry 64 x y carry }
{
    let result = x.wrapping_add(y).wrapping_add(carry as u64);
    let n = result >= 1 << 63;
    let c = (result < x) | (carry & (result == x));
    let v = ((x >= 1 << 63) == (y >= 1 << 63)) & ((x >= 1 << 63) != n);
    Sum {
        result,
        flags: Flags {
            n,
            z: result == 0,
            c,
            v,
        },
    }
}
