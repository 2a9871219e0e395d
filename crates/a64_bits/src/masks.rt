//! The masks of the logical immediates.

ghost use Rattle.std.specs.Prelude.{◌≡◌, ◌≢◌, ◌-◌, ◌/◌, ◌%◌, ◌^◌, ◌<◌, ◌≤◌, IsTrue, ◌↔◌};
ghost use Rattle.a64_bits.specs.Arithmetic.{IsRegisterSize};
ghost use Rattle.a64_bits.specs.Masks.{IsMask, element_size, element_of, copies, bit_mask_of};

use crate::powers::ones;
use crate::shifts::rotate_right;

/// Whether `n` and `imms` are the form of a mask that is not reserved.
pub fn is_mask(n: u8, imms: u8) -> bool
    requires { imms < 64 }
    ensures { IsTrue result ↔ IsMask n imms }
{
    if n == 1 {
        return imms != 63;
    }
    // The ones at the top of imms give the element's size; the bits below are its ones less 1.
    match imms {
        0..=31 => imms != 31,
        32..=47 => imms != 47,
        48..=55 => imms != 55,
        56..=59 => imms != 59,
        60..=61 => imms != 61,
        _ => false,
    }
}

/// The mask that `n`, `imms` and `immr` encode in a register of `size` bits, 32 or 64
/// (DecodeBitMasks).
/// `None` exactly for a reserved form and for an element of 64 bits (`n` 1) in a register of 32.
pub fn bit_masks(n: u8, imms: u8, immr: u8, size: u32) -> Option<u64>
    requires n_fits { n < 2 }
    requires imms_fits { imms < 64 }
    requires immr_fits { immr < 64 }
    requires size { IsRegisterSize size }
    ensures { result ≡ bit_mask_of n imms immr size }
{
    if !is_mask(n, imms) {
        return None;
    }
    if n == 1 {
        return if size == 32 {
            None
        } else {
            Some(element(64, imms, immr))
        };
    }
    let half = short_mask(imms, immr);
    Some(if size == 32 {
        half
    } else {
        half * 0x1_0000_0001
    })
}

/// The mask in 32 bits where N is 0.
fn short_mask(imms: u8, immr: u8) -> u64
    requires imms_fits { imms < 64 }
    requires is_mask { IsMask 0 imms }
    ensures same { let bits = element_size 0 imms in
        result ≡ copies bits (32 / bits) (element_of bits imms immr) }
    ensures below { result < 2 ^ 32 }
{
    match imms {
        0..=31 => element(32, imms, immr),
        32..=47 => element(16, imms, immr) * 0x0001_0001,
        48..=55 => element(8, imms, immr) * 0x0101_0101,
        56..=59 => element(4, imms, immr) * 0x1111_1111,
        _ => element(2, imms, immr) * 0x5555_5555,
    }
}

/// The element of a mask.
#[tactic(auto, unfolding(crate::specs::Masks::element_of))]
fn element(bits: u8, imms: u8, immr: u8) -> u64
    requires some { 0 < bits }
    requires narrow { bits ≤ 64 }
    requires is_mask { imms % bits ≢ bits - 1 }
    ensures same { result ≡ element_of bits imms immr }
    ensures below { result < 2 ^ bits }
{
    rotate_right(
        ones((imms % bits + 1) as u32),
        (immr % bits) as u32,
        bits as u32,
    )
}
