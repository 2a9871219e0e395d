//! Move wide (immediate).

ghost use Rattle.std.specs.Prelude.{◌≡◌, ◌<◌, ◌*◌, ◌^◌, [], ◌∷◌};
ghost use Rattle.a64_bits.specs.Fields.{with_field};
ghost use Rattle.a64_instr.specs.Fields.{AreRegisters, IsHalfword};
ghost use Rattle.a64_step.specs.MoveWide.{move_wide_of};
ghost use Rattle.a64_registers.specs.Registers.{with_next_pc};

use a64_registers::Regs;
use a64_registers::operands::{inverted, truncate};

/// `imm16` shifted left by `16 * hw`.
#[inline(always)]
pub fn placed_half(imm16: u16, hw: u8) -> u64
    requires { hw < 4 }
    ensures value { result ≡ imm16 * 2 ^ (16 * hw) }
    ensures narrow { hw < 2 → result < 2 ^ 32 }
{
    let half = u64::from(imm16);
    match hw {
        0 => half,
        1 => half * 0x1_0000,
        2 => half * 0x1_0000_0000,
        _ => half * 0x1_0000_0000_0000,
    }
}

/// A value with the sixteen bits from `16 * hw` on replaced.
#[inline(always)]
pub fn with_half(old: u64, imm16: u16, hw: u8) -> u64
    requires { hw < 4 }
    ensures { result ≡ with_field old (16 * hw) 16 imm16 }
{
    let half = u64::from(imm16);
    match hw {
        0 => old - old % 0x1_0000 + half,
        1 => old - old / 0x1_0000 % 0x1_0000 * 0x1_0000 + half * 0x1_0000,
        2 => old - old / 0x1_0000_0000 % 0x1_0000 * 0x1_0000_0000 + half * 0x1_0000_0000,
        _ => old - old / 0x1_0000_0000_0000 % 0x1_0000 * 0x1_0000_0000_0000
            + half * 0x1_0000_0000_0000,
    }
}

/// MOVN, MOVZ, MOVK.
#[inline(always)]
#[tactic(auto, unfolding(crate::specs::MoveWide::move_wide_of, crate::specs::MoveWide::wide_value))]
pub fn move_wide(regs: &mut Regs, sf: u8, opc: u8, hw: u8, imm16: u16, rd: u8)
    requires half { IsHalfword sf hw }
    requires rd { AreRegisters (rd ∷ []) }
    ensures { regs.new ≡ with_next_pc (move_wide_of regs.old sf opc hw imm16 rd) }
{
    let old = truncate(sf, regs.get(rd));
    let value = match opc {
        0 => inverted(sf, placed_half(imm16, hw)),
        2 => placed_half(imm16, hw),
        _ => with_half(old, imm16, hw),
    };
    regs.set(rd, value);
    regs.advance();
}
