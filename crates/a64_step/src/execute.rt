// Written by tools/isa.py from isa/a64.rows. Do not edit.
//! The table of instructions.

ghost use Rattle.std.specs.Prelude.{◌≡◌, true};
ghost use Rattle.a64_asm.specs.Encoding.{IsAllowed};
ghost use Rattle.a64_step.specs.Parts.{is_branch, is_other_data_processing};
ghost use Rattle.a64_step.specs.Parts.{is_other_load_or_store, is_system_or_tag};
ghost use Rattle.a64_step.specs.Results.{Leaves};
ghost use Rattle.a64_step.specs.Steps.{step_of_instr};

use crate::add_subtract::{adc_sbc, add_sub_ext, add_sub_imm, add_sub_shift};
use crate::bitfield::{bitfield, extr};
use crate::branches::{branch, branch_cond, branch_reg, cmp_branch, test_branch};
use crate::conditional::{cond_cmp, cond_sel};
use crate::data_processing::{mul_add, mul_add_long, mul_high, one_source, two_source};
use crate::load_store::{ld_lit, ld_st_imm, ld_st_post, ld_st_pre, ld_st_reg, ld_st_unscaled};
use crate::load_store_pair::{pair_off, pair_post, pair_pre};
use crate::logical::{log_imm, log_shift};
use crate::memory_tagging::{add_g, gmi, irg, ldg, st_g, st_g_p, sub_p};
use crate::move_wide::move_wide;
use crate::outcome::Outcome;
use crate::pc_rel::adr;
use a64_asm::Instr;
use a64_instr::fields::{
    AddSub, ComparedOperands, ExtendedRegister, FieldMove, Logical, LogicalImmediate, PairTransfer,
    ProductOperands, RegisterOffset, RegisterOperands, ShiftedRegister, TagPairTransfer,
    TagTransfer, TestedBit, Transfer,
};
use a64_registers::Regs;
use mte_tags::Tagged;

/// Executes an instruction. An arm with constants in its pattern passes them on, so that its copy
/// of the function does not test them again. A part with a match of its own has at most ten rows,
/// next to one another in `Instr`: so the compiler makes one jump of both matches if it is in line.
#[rattlefmt::skip]
#[inline(always)]
#[tactic(auto, unfolding(crate::specs::Steps::step_of_instr))]
pub fn execute<M: Tagged>(instr: &Instr, regs: &mut Regs, memory: &mut M, outcome: &mut Outcome)
    requires allowed { IsAllowed instr.now }
    requires outcome { outcome.old ≡ Outcome.Next }
    ensures leaves { Leaves (step_of_instr instr.now regs.old (M.memory memory.old))
        outcome.new regs.new (M.memory memory.new) }
    ensures kept { M.kept memory.old memory.new }
{
    match *instr {
        Instr::AddSubImm { sf: 1, op, s, sh, imm12, rn, rd } => add_sub_imm(regs, 1, AddSub { op, s, rn, rd }, sh, imm12),
        Instr::AddSubImm { sf, op, s, sh, imm12, rn, rd } => add_sub_imm(regs, sf, AddSub { op, s, rn, rd }, sh, imm12),
        Instr::AddSubShift { sf: 1, op, s, shift, rm, imm6, rn, rd } => add_sub_shift(regs, AddSub { op, s, rn, rd }, ShiftedRegister { sf: 1, shift, rm, imm6 }),
        Instr::AddSubShift { sf, op, s, shift, rm, imm6, rn, rd } => add_sub_shift(regs, AddSub { op, s, rn, rd }, ShiftedRegister { sf, shift, rm, imm6 }),
        Instr::AddSubExt { sf: 1, op, s, rm, option, imm3, rn, rd } => add_sub_ext(regs, AddSub { op, s, rn, rd }, ExtendedRegister { sf: 1, rm, option, imm3 }),
        Instr::AddSubExt { sf, op, s, rm, option, imm3, rn, rd } => add_sub_ext(regs, AddSub { op, s, rn, rd }, ExtendedRegister { sf, rm, option, imm3 }),
        Instr::LogImm { sf, opc, n, immr, imms, rn, rd } => log_imm(regs, LogicalImmediate { sf, opc, rn, rd }, n, immr, imms),
        Instr::LogShift { sf: 1, opc, shift, n: 0, rm, imm6: 0, rn, rd } => log_shift(regs, Logical { opc, n: 0, rn, rd }, ShiftedRegister { sf: 1, shift, rm, imm6: 0 }),
        Instr::LogShift { sf: 1, opc, shift, n, rm, imm6, rn, rd } => log_shift(regs, Logical { opc, n, rn, rd }, ShiftedRegister { sf: 1, shift, rm, imm6 }),
        Instr::LogShift { sf, opc, shift, n, rm, imm6, rn, rd } => log_shift(regs, Logical { opc, n, rn, rd }, ShiftedRegister { sf, shift, rm, imm6 }),
        Instr::MoveWide { sf, opc, hw, imm16, rd } => move_wide(regs, sf, opc, hw, imm16, rd),
        Instr::Bitfield { sf: 1, opc: 2, immr, imms, rn, rd, .. } => bitfield(regs, FieldMove { sf: 1, opc: 2, immr, imms }, rn, rd),
        Instr::Bitfield { sf: 1, opc, immr, imms, rn, rd, .. } => bitfield(regs, FieldMove { sf: 1, opc, immr, imms }, rn, rd),
        Instr::Bitfield { sf, opc, immr, imms, rn, rd, .. } => bitfield(regs, FieldMove { sf, opc, immr, imms }, rn, rd),
        Instr::Extr { sf: 1, rm, imms, rn, rd, .. } => extr(regs, RegisterOperands { sf: 1, rm, rn, rd }, imms),
        Instr::Extr { sf, rm, imms, rn, rd, .. } => extr(regs, RegisterOperands { sf, rm, rn, rd }, imms),
        Instr::Adr { op, immlo, immhi, rd } => adr(regs, op, immlo, immhi, rd),
        Instr::Branch { .. }
        | Instr::BranchCond { .. }
        | Instr::CmpBranch { .. }
        | Instr::TestBranch { .. }
        | Instr::BranchReg { .. } => execute_branch(instr, regs, memory, outcome),
        Instr::AdcSbc { .. }
        | Instr::CondCmp { .. }
        | Instr::CondSel { .. }
        | Instr::TwoSource { .. }
        | Instr::OneSource { .. }
        | Instr::MulAdd { .. }
        | Instr::MulAddLong { .. }
        | Instr::MulHigh { .. } => execute_other_data_processing(instr, regs, memory, outcome),
        Instr::LdStImm { size, opc, imm12, rn, rt } => ld_st_imm(regs, memory, Transfer { size, opc, rn, rt }, imm12, outcome),
        Instr::LdStUnscaled { .. }
        | Instr::LdStPost { .. }
        | Instr::LdStPre { .. }
        | Instr::LdStReg { .. }
        | Instr::LdLit { .. }
        | Instr::PairPost { .. }
        | Instr::PairOff { .. }
        | Instr::PairPre { .. } => execute_other_load_or_store(instr, regs, memory, outcome),
        _ => execute_system_or_tag(instr, regs, memory, outcome),
    }
}

/// Executes branches.
#[rattlefmt::skip]
#[inline(always)]
#[tactic(auto, unfolding(crate::specs::Steps::step_of_instr))]
fn execute_branch<M: Tagged>(instr: &Instr, regs: &mut Regs, memory: &mut M, outcome: &mut Outcome)
    requires allowed { IsAllowed instr.now }
    requires row { is_branch instr.now ≡ true }
    requires outcome { outcome.old ≡ Outcome.Next }
    ensures leaves { Leaves (step_of_instr instr.now regs.old (M.memory memory.old))
        outcome.new regs.new (M.memory memory.new) }
    ensures kept { M.kept memory.old memory.new }
{
    match *instr {
        Instr::Branch { op, imm26 } => branch(regs, op, imm26),
        Instr::BranchCond { imm19, cond } => branch_cond(regs, imm19, cond),
        Instr::CmpBranch { sf, op, imm19, rt } => cmp_branch(regs, sf, op, imm19, rt),
        Instr::TestBranch { b5, op, b40, imm14, rt } => test_branch(regs, TestedBit { op, b5, b40, rt }, imm14),
        Instr::BranchReg { opc, rn } => branch_reg(regs, opc, rn),
        _ => {}
    }
}

/// Executes data processing of registers but addition without carry, subtraction, logic and moves
/// of bits.
#[rattlefmt::skip]
#[inline(always)]
#[tactic(auto, unfolding(crate::specs::Steps::step_of_instr))]
fn execute_other_data_processing<M: Tagged>(instr: &Instr, regs: &mut Regs, memory: &mut M, outcome: &mut Outcome)
    requires allowed { IsAllowed instr.now }
    requires row { is_other_data_processing instr.now ≡ true }
    requires outcome { outcome.old ≡ Outcome.Next }
    ensures leaves { Leaves (step_of_instr instr.now regs.old (M.memory memory.old))
        outcome.new regs.new (M.memory memory.new) }
    ensures kept { M.kept memory.old memory.new }
{
    match *instr {
        Instr::AdcSbc { sf, op, s, rm, rn, rd } => adc_sbc(regs, sf, AddSub { op, s, rn, rd }, rm),
        Instr::CondCmp { sf, op, rm, cond, i, rn, nzcv } => cond_cmp(regs, ComparedOperands { sf, rm, i, rn }, op, cond, nzcv),
        Instr::CondSel { sf, op, rm, cond, o2, rn, rd } => cond_sel(regs, RegisterOperands { sf, rm, rn, rd }, op, cond, o2),
        Instr::TwoSource { sf, rm, opcode, rn, rd } => two_source(regs, RegisterOperands { sf, rm, rn, rd }, opcode),
        Instr::OneSource { sf, opcode, rn, rd } => one_source(regs, sf, opcode, rn, rd),
        Instr::MulAdd { sf, rm, o0, ra, rn, rd } => mul_add(regs, sf, o0, ProductOperands { rm, ra, rn, rd }),
        Instr::MulAddLong { u, rm, o0, ra, rn, rd } => mul_add_long(regs, u, o0, ProductOperands { rm, ra, rn, rd }),
        Instr::MulHigh { u, rm, rn, rd } => mul_high(regs, u, rm, rn, rd),
        _ => {}
    }
}

/// Executes loads and stores but those of a register at an unsigned offset.
#[rattlefmt::skip]
#[inline(never)]
#[tactic(auto, unfolding(crate::specs::Steps::step_of_instr))]
fn execute_other_load_or_store<M: Tagged>(instr: &Instr, regs: &mut Regs, memory: &mut M, outcome: &mut Outcome)
    requires allowed { IsAllowed instr.now }
    requires row { is_other_load_or_store instr.now ≡ true }
    requires outcome { outcome.old ≡ Outcome.Next }
    ensures leaves { Leaves (step_of_instr instr.now regs.old (M.memory memory.old))
        outcome.new regs.new (M.memory memory.new) }
    ensures kept { M.kept memory.old memory.new }
{
    match *instr {
        Instr::LdStUnscaled { size, opc, imm9, rn, rt } => ld_st_unscaled(regs, memory, Transfer { size, opc, rn, rt }, imm9, outcome),
        Instr::LdStPost { size, opc, imm9, rn, rt } => ld_st_post(regs, memory, Transfer { size, opc, rn, rt }, imm9, outcome),
        Instr::LdStPre { size, opc, imm9, rn, rt } => ld_st_pre(regs, memory, Transfer { size, opc, rn, rt }, imm9, outcome),
        Instr::LdStReg { size, opc, rm, option, s, rn, rt } => ld_st_reg(regs, memory, Transfer { size, opc, rn, rt }, RegisterOffset { rm, option, s }, outcome),
        Instr::LdLit { opc, imm19, rt } => ld_lit(regs, memory, opc, imm19, rt, outcome),
        Instr::PairPost { opc, l, imm7, rt2, rn, rt } => pair_post(regs, memory, l, PairTransfer { opc, rt2, rn, rt }, imm7, outcome),
        Instr::PairOff { opc, l, imm7, rt2, rn, rt } => pair_off(regs, memory, l, PairTransfer { opc, rt2, rn, rt }, imm7, outcome),
        Instr::PairPre { opc, l, imm7, rt2, rn, rt } => pair_pre(regs, memory, l, PairTransfer { opc, rt2, rn, rt }, imm7, outcome),
        _ => {}
    }
}

/// Executes SVC, BRK, hints, and what draws, reads, writes or computes with tags.
#[rattlefmt::skip]
#[inline(always)]
#[tactic(auto, unfolding(crate::specs::Steps::step_of_instr))]
fn execute_system_or_tag<M: Tagged>(instr: &Instr, regs: &mut Regs, memory: &mut M, outcome: &mut Outcome)
    requires allowed { IsAllowed instr.now }
    requires row { is_system_or_tag instr.now ≡ true }
    requires outcome { outcome.old ≡ Outcome.Next }
    ensures leaves { Leaves (step_of_instr instr.now regs.old (M.memory memory.old))
        outcome.new regs.new (M.memory memory.new) }
    ensures kept { M.kept memory.old memory.new }
{
    match *instr {
        Instr::Svc => *outcome = Outcome::Svc,
        Instr::Brk { imm16 } => *outcome = Outcome::Breakpoint(imm16),
        Instr::Hint { .. } => regs.advance(),
        Instr::AddG { op, uimm6, uimm4, rn, rd } => add_g(regs, op, uimm6, uimm4, rn, rd),
        Instr::SubP { s, rm, rn, rd } => sub_p(regs, s, rm, rn, rd),
        Instr::Irg { rm, rn, rd } => irg(regs, rm, rn, rd),
        Instr::Gmi { rm, rn, rd } => gmi(regs, rm, rn, rd),
        Instr::Ldg { imm9, rn, rt } => ldg(regs, memory, imm9, rn, rt, outcome),
        Instr::StG { opc, imm9, mode, rn, rt } => st_g(regs, memory, TagTransfer { opc, mode, rn, rt }, imm9, outcome),
        Instr::StGP { mode, imm7, rt2, rn, rt } => st_g_p(regs, memory, TagPairTransfer { mode, rt2, rn, rt }, imm7, outcome),
        _ => {}
    }
}
