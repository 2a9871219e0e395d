//! High halves of products (UMULH, SMULH).

ghost use Rattle.std.specs.Prelude.{◌≡◌, ◌*◌, ◌/◌, ◌^◌, true};
ghost use Rattle.a64_bits.specs.Products.{high_product};

/// The upper 64 bits of the product of `x` and `y` (UMULH, and SMULH where `signed`).
#[inline(always)]
#[tactic(auto, unfolding(crate::specs::Products::high_product))]
pub fn multiply_high(x: u64, y: u64, signed: bool) -> u64
    ensures { result ≡ high_product x y signed }
{
    let high = ((x as u128 * y as u128) >> 64) as u64;
    if signed {
        signed_high(high, x, y)
    } else {
        high
    }
}

/// The upper half of the signed product, from that of the unsigned one. A negative `x` represents
/// `x` - 2^64, so the product is less by `y` * 2^64.
#[inline(always)]
fn signed_high(high: u64, x: u64, y: u64) -> u64
    requires { high ≡ x * y / 2 ^ 64 }
    ensures { result ≡ high_product x y true }
{
    match (x < 1 << 63, y < 1 << 63) {
        (true, true) => high,
        (true, false) => high.wrapping_sub(x),
        (false, true) => high.wrapping_sub(y),
        (false, false) => high.wrapping_sub(y).wrapping_sub(x),
    }
}
