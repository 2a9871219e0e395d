//! Data-processing (1 source), (2 source) and (3 source).

ghost use Rattle.std.specs.Prelude.{◌≡◌, ◌≢◌, ◌<◌, ◌+◌, ◌-◌, ◌*◌, ◌%◌, ◌^◌, ◌⊎◌, [], ◌∷◌};
ghost use Rattle.a64_instr.specs.Fields.{AreRegisters, IsProductOperands, IsRegisterOperands};
ghost use Rattle.a64_step.specs.DataProcessing.{long_operand, mul_add_long_of, mul_add_of};
ghost use Rattle.a64_step.specs.DataProcessing.{mul_high_of, multiplied_sum, one_source_of};
ghost use Rattle.a64_step.specs.DataProcessing.{two_source_of};
ghost use Rattle.a64_registers.specs.Operands.{size_of};
ghost use Rattle.a64_registers.specs.Registers.{with_next_pc};

use a64_bits::{
    count_leading_sign, count_leading_zeros, divide, multiply_high, reverse_bits, reverse_bytes,
    sign_extend,
};
use a64_instr::fields::{ProductOperands, RegisterOperands};
use a64_registers::Regs;
use a64_registers::operands::{shift_by, size_of_operands, truncate};

/// RBIT, REV16, REV32, REV, CLZ, CLS.
#[inline(never)]
#[rattlefmt::skip]
#[tactic(auto, unfolding(
    crate::specs::DataProcessing::one_source_of,
    crate::specs::DataProcessing::one_source_value
))]
pub fn one_source(regs: &mut Regs, sf: u8, opcode: u8, rn: u8, rd: u8)
    requires sf { sf < 2 }
    requires wide { sf ≡ 0 → opcode ≢ 3 }
    requires registers { AreRegisters (rn ∷ rd ∷ []) }
    ensures { regs.new ≡ with_next_pc (one_source_of regs.old sf opcode rn rd) }
{
    let x = truncate(sf, regs.get(rn));
    let size = size_of_operands(sf);
    let value = match opcode {
        0 => reverse_bits(x, size),
        1 => reverse_bytes(x, 2, size),
        2 => reverse_bytes(x, 4, size),
        3 => reverse_bytes(x, 8, size),
        4 => count_leading_zeros(x, size),
        _ => count_leading_sign(x, size),
    };
    regs.set(rd, value);
    regs.advance();
}

/// UDIV, SDIV, LSLV, LSRV, ASRV, RORV.
#[inline(never)]
#[rattlefmt::skip]
#[tactic(auto, unfolding(
    crate::specs::DataProcessing::two_source_of,
    crate::specs::DataProcessing::two_source_value
))]
pub fn two_source(regs: &mut Regs, operands: RegisterOperands, opcode: u8)
    requires operands { IsRegisterOperands operands }
    requires opcode { opcode < 64 }
    requires known { (opcode ≡ 2) ⊎ (opcode ≡ 3) ⊎ (opcode ≡ 8) ⊎ (opcode ≡ 9)
        ⊎ (opcode ≡ 10) ⊎ (opcode ≡ 11) }
    ensures { regs.new
        ≡ with_next_pc
        (two_source_of regs.old operands.sf operands.rm opcode operands.rn operands.rd) }
{
    let x = truncate(operands.sf, regs.get(operands.rn));
    let y = truncate(operands.sf, regs.get(operands.rm));
    let size = size_of_operands(operands.sf);
    let value = match opcode {
        2 => divide(x, y, size, false),
        3 => divide(x, y, size, true),
        _ => shift_by(opcode - 8, x, (y % u64::from(size)) as u32, size),
    };
    regs.set(operands.rd, value);
    regs.advance();
}

/// `a + x * y`, or `a - x * y` where `o0` is 1.
#[inline(always)]
#[tactic(auto, unfolding(crate::specs::DataProcessing::multiplied_sum))]
pub fn multiply_and_add(sf: u8, o0: u8, a: u64, x: u64, y: u64) -> u64
    ensures { result ≡ multiplied_sum (size_of sf) o0 a x y }
{
    let product = x.wrapping_mul(y);
    if o0 == 0 {
        truncate(sf, a.wrapping_add(product))
    } else {
        truncate(sf, a.wrapping_sub(product))
    }
}

/// MADD, MSUB.
#[inline(always)]
#[tactic(auto, unfolding(crate::specs::DataProcessing::mul_add_of))]
pub fn mul_add(regs: &mut Regs, sf: u8, o0: u8, product: ProductOperands)
    requires product { IsProductOperands product }
    ensures { regs.new
        ≡ with_next_pc (mul_add_of regs.old sf product.rm o0 product.ra product.rn product.rd) }
{
    let a = truncate(sf, regs.get(product.ra));
    let x = truncate(sf, regs.get(product.rn));
    let y = truncate(sf, regs.get(product.rm));
    regs.set(product.rd, multiply_and_add(sf, o0, a, x, y));
    regs.advance();
}

/// The low 32 bits, with their sign where `u` is 0.
#[inline(always)]
#[tactic(auto, unfolding(crate::specs::DataProcessing::long_operand))]
fn low_half(u: u8, value: u64) -> u64
    ensures { result ≡ long_operand u value }
{
    if u == 1 {
        value % (1 << 32)
    } else {
        sign_extend(value, 32)
    }
}

/// SMADDL, SMSUBL, UMADDL, UMSUBL.
#[inline(never)]
#[tactic(auto, unfolding(crate::specs::DataProcessing::mul_add_long_of))]
pub fn mul_add_long(regs: &mut Regs, u: u8, o0: u8, product: ProductOperands)
    requires product { IsProductOperands product }
    ensures { regs.new
        ≡ with_next_pc (mul_add_long_of regs.old u product.rm o0 product.ra product.rn product.rd) }
{
    let x = low_half(u, regs.get(product.rn));
    let y = low_half(u, regs.get(product.rm));
    regs.set(
        product.rd,
        multiply_and_add(1, o0, regs.get(product.ra), x, y),
    );
    regs.advance();
}

/// SMULH, UMULH.
#[inline(never)]
#[tactic(auto, unfolding(crate::specs::DataProcessing::mul_high_of))]
pub fn mul_high(regs: &mut Regs, u: u8, rm: u8, rn: u8, rd: u8)
    requires registers { AreRegisters (rm ∷ rn ∷ rd ∷ []) }
    ensures { regs.new ≡ with_next_pc (mul_high_of regs.old u rm rn rd) }
{
    regs.set(rd, multiply_high(regs.get(rn), regs.get(rm), u == 0));
    regs.advance();
}
