//! PC-relative addressing.

ghost use Rattle.std.specs.Prelude.{◌≡◌, ◌<◌, [], ◌∷◌};
ghost use Rattle.a64_instr.specs.Fields.{AreRegisters};
ghost use Rattle.a64_step.specs.PcRel.{adr_of};
ghost use Rattle.a64_registers.specs.Registers.{with_next_pc};

use crate::addressing::moved_by;
use a64_registers::Regs;

/// ADR, ADRP.
#[inline(never)]
#[tactic(auto, unfolding(crate::specs::PcRel::adr_of))]
pub fn adr(regs: &mut Regs, op: u8, immlo: u8, immhi: i32, rd: u8)
    requires rd { AreRegisters (rd ∷ []) }
    ensures { regs.new ≡ with_next_pc (adr_of regs.old op immlo immhi rd) }
{
    let low = u64::from(immlo);
    let value = if op == 0 {
        moved_by(regs.pc, 4, i64::from(immhi)).wrapping_add(low)
    } else {
        moved_by(regs.pc - regs.pc % 4096, 16384, i64::from(immhi)).wrapping_add(4096 * low)
    };
    regs.set(rd, value);
    regs.advance();
}
