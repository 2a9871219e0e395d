//! Branches. Each leaves the program counter at the instruction that comes next.

ghost use Rattle.std.specs.Prelude.{◌≡◌, ◌<◌, ◌+◌, ◌*◌, ◌/◌, ◌%◌, ◌^◌, ◌==◌, [], ◌∷◌};
ghost use Rattle.a64_instr.specs.Fields.{AreRegisters, IsTestedBit};
ghost use Rattle.a64_step.specs.Branches.{branch_cond_of, branch_of, branch_reg_of, cmp_branch_of};
ghost use Rattle.a64_step.specs.Branches.{branch_cases, with_link, test_branch_of};

use crate::addressing::moved_by;
use a64_instr::fields::TestedBit;
use a64_registers::Regs;
use a64_registers::conditions::condition_holds;
use a64_registers::operands::truncate;

/// Writes the address of the next instruction to x30.
#[inline(always)]
#[tactic(auto, unfolding(crate::specs::Branches::with_link))]
fn link(regs: &mut Regs)
    ensures { regs.new ≡ with_link regs.old }
{
    regs.set(30, regs.pc.wrapping_add(4));
}

/// Moves the program counter by `offset` words where the branch is taken, else to the next
/// instruction.
#[inline(always)]
#[tactic(auto, unfolding(crate::specs::Branches::branch_cases))]
fn jump_if(regs: &mut Regs, taken: bool, offset: i64)
    ensures { regs.new ≡ branch_cases regs.old taken offset }
{
    if taken {
        regs.jump(moved_by(regs.pc, 4, offset));
    } else {
        regs.advance();
    }
}

/// B, BL.
#[inline(always)]
#[tactic(auto, unfolding(crate::specs::Branches::branch_of))]
pub fn branch(regs: &mut Regs, op: u8, imm26: i32)
    ensures { regs.new ≡ branch_of regs.old op imm26 }
{
    let target = moved_by(regs.pc, 4, i64::from(imm26));
    if op == 1 {
        link(regs);
    }
    regs.jump(target);
}

/// B.cond.
#[inline(always)]
#[tactic(auto, unfolding(crate::specs::Branches::branch_cond_of))]
pub fn branch_cond(regs: &mut Regs, imm19: i32, cond: u8)
    requires { cond < 16 }
    ensures { regs.new ≡ branch_cond_of regs.old imm19 cond }
{
    let taken = condition_holds(regs.flags, cond);
    jump_if(regs, taken, i64::from(imm19));
}

/// CBZ, CBNZ.
#[inline(always)]
#[tactic(auto, unfolding(crate::specs::Branches::cmp_branch_of))]
pub fn cmp_branch(regs: &mut Regs, sf: u8, op: u8, imm19: i32, rt: u8)
    requires { AreRegisters (rt ∷ []) }
    ensures { regs.new ≡ cmp_branch_of regs.old sf op imm19 rt }
{
    let zero = truncate(sf, regs.get(rt)) == 0;
    let taken = if op == 0 { zero } else { !zero };
    jump_if(regs, taken, i64::from(imm19));
}

/// TBZ, TBNZ.
#[inline(always)]
#[tactic(auto, unfolding(crate::specs::Branches::test_branch_of))]
pub fn test_branch(regs: &mut Regs, bit: TestedBit, imm14: i16)
    requires bit { IsTestedBit bit }
    ensures { regs.new ≡ test_branch_of regs.old bit.b5 bit.op bit.b40 imm14 bit.rt }
{
    let position = 32 * u32::from(bit.b5) + u32::from(bit.b40);
    let value = (regs.get(bit.rt) >> position) % 2;
    jump_if(regs, value == u64::from(bit.op), i64::from(imm14));
}

/// BR, BLR, RET.
#[inline(always)]
#[tactic(auto, unfolding(crate::specs::Branches::branch_reg_of))]
pub fn branch_reg(regs: &mut Regs, opc: u8, rn: u8)
    requires { AreRegisters (rn ∷ []) }
    ensures { regs.new ≡ branch_reg_of regs.old opc rn }
{
    let target = regs.get(rn);
    if opc == 1 {
        link(regs);
    }
    regs.jump(target);
}
