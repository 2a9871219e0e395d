// Written by tools/isa.py from isa/a64.rows. Do not edit.
//! The line of an instruction, by the function of its row.

use crate::control::*;
use crate::data_processing::*;
use crate::memory::*;
use crate::operand::TextLine;
use a64_instr::Instr;
use a64_instr::fields::{
    AddSub, ComparedOperands, ExtendedRegister, Logical, LogicalImmediate, PairTransfer,
    RegisterOffset, RegisterOperands, ShiftedRegister, Transfer,
};

/// The line of `instr`, at `pc` where that is known.
#[rattlefmt::skip]
pub fn line_of(instr: &Instr, pc: Option<u64>) -> TextLine {
    match *instr {
        Instr::AddSubImm { sf, op, s, sh, imm12, rn, rd } =>
            add_sub_imm(sf, AddSub { op, s, rn, rd }, sh, imm12),
        Instr::AddSubShift { sf, op, s, shift, rm, imm6, rn, rd } =>
            add_sub_shift(AddSub { op, s, rn, rd }, ShiftedRegister { sf, shift, rm, imm6 }),
        Instr::AddSubExt { sf, op, s, rm, option, imm3, rn, rd } =>
            add_sub_ext(AddSub { op, s, rn, rd }, ExtendedRegister { sf, rm, option, imm3 }),
        Instr::LogImm { sf, opc, n, immr, imms, rn, rd } =>
            log_imm(LogicalImmediate { sf, opc, rn, rd }, n, immr, imms),
        Instr::LogShift { sf, opc, shift, n, rm, imm6, rn, rd } =>
            log_shift(Logical { opc, n, rn, rd }, ShiftedRegister { sf, shift, rm, imm6 }),
        Instr::MoveWide { sf, opc, hw, imm16, rd } => move_wide(sf, opc, hw, imm16, rd),
        Instr::Bitfield { sf, opc, n: _, immr, imms, rn, rd } =>
            bitfield(sf, opc, immr, imms, rn, rd),
        Instr::Extr { sf, n: _, rm, imms, rn, rd } => extr(sf, rm, imms, rn, rd),
        Instr::Adr { op, immlo, immhi, rd } => adr(pc, op, immlo, immhi, rd),
        Instr::Branch { op, imm26 } => branch(pc, op, imm26),
        Instr::BranchCond { imm19, cond } => branch_cond(pc, imm19, cond),
        Instr::CmpBranch { sf, op, imm19, rt } => cmp_branch(pc, sf, op, imm19, rt),
        Instr::TestBranch { b5, op, b40, imm14, rt } => test_branch(pc, b5, op, b40, imm14, rt),
        Instr::BranchReg { opc, rn } => branch_reg(opc, rn),
        Instr::AdcSbc { sf, op, s, rm, rn, rd } => adc_sbc(sf, op, s, rm, rn, rd),
        Instr::CondCmp { sf, op, rm, cond, i, rn, nzcv } =>
            cond_cmp(ComparedOperands { sf, rm, i, rn }, op, cond, nzcv),
        Instr::CondSel { sf, op, rm, cond, o2, rn, rd } =>
            cond_sel(RegisterOperands { sf, rm, rn, rd }, op, cond, o2),
        Instr::TwoSource { sf, rm, opcode, rn, rd } => two_source(sf, rm, opcode, rn, rd),
        Instr::OneSource { sf, opcode, rn, rd } => one_source(sf, opcode, rn, rd),
        Instr::MulAdd { sf, rm, o0, ra, rn, rd } => mul_add(sf, rm, o0, ra, rn, rd),
        Instr::MulAddLong { u, rm, o0, ra, rn, rd } => mul_add_long(u, rm, o0, ra, rn, rd),
        Instr::MulHigh { u, rm, rn, rd } => mul_high(u, rm, rn, rd),
        Instr::LdStImm { size, opc, imm12, rn, rt } => ld_st_imm(size, opc, imm12, rn, rt),
        Instr::LdStUnscaled { size, opc, imm9, rn, rt } => ld_st_unscaled(size, opc, imm9, rn, rt),
        Instr::LdStPost { size, opc, imm9, rn, rt } => ld_st_post(size, opc, imm9, rn, rt),
        Instr::LdStPre { size, opc, imm9, rn, rt } => ld_st_pre(size, opc, imm9, rn, rt),
        Instr::LdStReg { size, opc, rm, option, s, rn, rt } =>
            ld_st_reg(Transfer { size, opc, rn, rt }, RegisterOffset { rm, option, s }),
        Instr::LdLit { opc, imm19, rt } => ld_lit(pc, opc, imm19, rt),
        Instr::PairPost { opc, l, imm7, rt2, rn, rt } =>
            pair_post(l, PairTransfer { opc, rt2, rn, rt }, imm7),
        Instr::PairOff { opc, l, imm7, rt2, rn, rt } =>
            pair_off(l, PairTransfer { opc, rt2, rn, rt }, imm7),
        Instr::PairPre { opc, l, imm7, rt2, rn, rt } =>
            pair_pre(l, PairTransfer { opc, rt2, rn, rt }, imm7),
        Instr::Svc => svc(),
        Instr::Brk { imm16 } => brk(imm16),
        Instr::Hint { imm7 } => hint(imm7),
        Instr::AddG { op, uimm6, uimm4, rn, rd } => add_g(op, uimm6, uimm4, rn, rd),
        Instr::SubP { s, rm, rn, rd } => sub_p(s, rm, rn, rd),
        Instr::Irg { rm, rn, rd } => irg(rm, rn, rd),
        Instr::Gmi { rm, rn, rd } => gmi(rm, rn, rd),
        Instr::Ldg { imm9, rn, rt } => ldg(imm9, rn, rt),
        Instr::StG { opc, imm9, mode, rn, rt } => st_g(opc, imm9, mode, rn, rt),
        Instr::StGP { mode, imm7, rt2, rn, rt } => st_g_p(mode, imm7, rt2, rn, rt),
    }
}
