//! Fields that move within registers.

ghost use Rattle.std.specs.Prelude.{◌≡◌, ◌+◌, ◌%◌, ◌^◌, ◌<◌, ◌≤◌};
ghost use Rattle.a64_bits.specs.Arithmetic.{IsRegisterSize};
ghost use Rattle.a64_bits.specs.FieldMoves.{extr_value, placed_field, moved_field};

use crate::powers::{low_bits, ones, power_of_two};

/// The `size` bits of `high` and `low`, side by side, from bit `lsb` up (EXTR).
#[inline(always)]
pub fn extract(high: u64, low: u64, lsb: u32, size: u32) -> u64
    requires size { IsRegisterSize size }
    requires high { high < 2 ^ size }
    requires low { low < 2 ^ size }
    requires lsb { lsb < size }
    ensures { result ≡ extr_value size high low lsb }
{
    if lsb == 0 {
        return low;
    }
    (low_bits(high, lsb) << (size - lsb)) + (low >> lsb)
}

/// The field of `rn` that `immr` and `imms` select, moved into zeros, signs or `rd`
/// (SBFM, BFM and UBFM for `opc` 0, 1 and 2).
#[inline(always)]
pub fn move_field(opc: u8, rd: u64, rn: u64, immr: u32, imms: u32, size: u32) -> u64
    requires size { IsRegisterSize size }
    requires rd { rd < 2 ^ size }
    requires rn { rn < 2 ^ size }
    requires immr { immr < size }
    requires imms { imms < size }
    requires opc { opc < 3 }
    ensures { result ≡ moved_field opc size rd rn immr imms }
{
    if immr <= imms {
        place_field(opc, rd, rn >> immr, imms - immr + 1, 0, size)
    } else {
        place_field(opc, rd, rn, imms + 1, size - immr, size)
    }
}

/// The `width` lowest bits of `bits` at the bit `place`.
#[inline(always)]
fn place_field(opc: u8, rd: u64, bits: u64, width: u32, place: u32, size: u32) -> u64
    requires size { size ≤ 64 }
    requires some { 0 < width }
    requires within { place + width ≤ size }
    requires rd { rd < 2 ^ size }
    requires opc { opc < 3 }
    ensures { result ≡ placed_field opc size rd (bits % 2 ^ width) width place }
{
    let field = low_bits(bits, width);
    let moved = field << place;
    if opc == 1 {
        rd - (low_bits(rd >> place, width) << place) + moved
    } else if opc == 0 {
        if field < power_of_two(width - 1) {
            moved
        } else {
            moved + (ones(size) - ones(place + width))
        }
    } else {
        moved
    }
}
