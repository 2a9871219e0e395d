// Written by tools/isa.py from isa/a64.rows. Do not edit.
//! The instruction of a word by its row: the fields and the refusals of each.

ghost use Rattle.a64_decode.specs.Decoded.{Reads};
ghost use Rattle.a64_decode.specs.Fields;

use crate::row::row;
use a64_asm::{Instr, is_load_store, is_load_store_pair, may_write_back};
use a64_bits::{field, is_mask, signed_field};

pub fn add_sub_imm(word: u32) -> Option<Instr>
    ensures { Reads result (Some (Fields.add_sub_imm_at word)) }
{
    row!(AddSubImm word: sf 31:1, op 30:1, s 29:1, sh 22:1, imm12 10:12, rn 5:5, rd 0:5)
}

pub fn add_sub_shift(word: u32) -> Option<Instr>
    ensures { Reads result (Some (Fields.add_sub_shift_at word)) }
{
    row!(AddSubShift word: sf 31:1, op 30:1, s 29:1, shift 22:2, rm 16:5, imm6 10:6, rn 5:5, rd 0:5;
        refused shift == 3, sf == 0 && imm6 > 31)
}

pub fn add_sub_ext(word: u32) -> Option<Instr>
    ensures { Reads result (Some (Fields.add_sub_ext_at word)) }
{
    row!(AddSubExt word: sf 31:1, op 30:1, s 29:1, rm 16:5, option 13:3, imm3 10:3, rn 5:5, rd 0:5;
        refused imm3 > 4)
}

pub fn log_imm(word: u32) -> Option<Instr>
    ensures { Reads result (Some (Fields.log_imm_at word)) }
{
    row!(LogImm word: sf 31:1, opc 29:2, n 22:1, immr 16:6, imms 10:6, rn 5:5, rd 0:5;
        refused sf == 0 && n != 0, !is_mask(n, imms))
}

pub fn log_shift(word: u32) -> Option<Instr>
    ensures { Reads result (Some (Fields.log_shift_at word)) }
{
    row!(LogShift word: sf 31:1, opc 29:2, shift 22:2, n 21:1, rm 16:5, imm6 10:6, rn 5:5, rd 0:5;
        refused sf == 0 && imm6 > 31)
}

pub fn move_wide(word: u32) -> Option<Instr>
    ensures { Reads result (Some (Fields.move_wide_at word)) }
{
    row!(MoveWide word: sf 31:1, opc 29:2, hw 21:2, imm16 5:16, rd 0:5;
        refused opc == 1, sf == 0 && hw > 1)
}

pub fn bitfield(word: u32) -> Option<Instr>
    ensures { Reads result (Some (Fields.bitfield_at word)) }
{
    row!(Bitfield word: sf 31:1, opc 29:2, n 22:1, immr 16:6, imms 10:6, rn 5:5, rd 0:5;
        refused opc == 3, n != sf, sf == 0 && immr > 31, sf == 0 && imms > 31)
}

pub fn extr(word: u32) -> Option<Instr>
    ensures { Reads result (Some (Fields.extr_at word)) }
{
    row!(Extr word: sf 31:1, n 22:1, rm 16:5, imms 10:6, rn 5:5, rd 0:5;
        refused n != sf, sf == 0 && imms > 31)
}

pub fn adr(word: u32) -> Option<Instr>
    ensures { Reads result (Some (Fields.adr_at word)) }
{
    row!(Adr word: op 31:1, immlo 29:2, rd 0:5; signed immhi 5:19)
}

pub fn branch(word: u32) -> Option<Instr>
    ensures { Reads result (Some (Fields.branch_at word)) }
{
    row!(Branch word: op 31:1; signed imm26 0:26)
}

pub fn branch_cond(word: u32) -> Option<Instr>
    ensures { Reads result (Some (Fields.branch_cond_at word)) }
{
    row!(BranchCond word: cond 0:4; signed imm19 5:19)
}

pub fn cmp_branch(word: u32) -> Option<Instr>
    ensures { Reads result (Some (Fields.cmp_branch_at word)) }
{
    row!(CmpBranch word: sf 31:1, op 24:1, rt 0:5; signed imm19 5:19)
}

pub fn test_branch(word: u32) -> Option<Instr>
    ensures { Reads result (Some (Fields.test_branch_at word)) }
{
    row!(TestBranch word: b5 31:1, op 24:1, b40 19:5, rt 0:5; signed imm14 5:14)
}

pub fn branch_reg(word: u32) -> Option<Instr>
    ensures { Reads result (Some (Fields.branch_reg_at word)) }
{
    row!(BranchReg word: opc 21:2, rn 5:5; refused opc == 3)
}

pub fn adc_sbc(word: u32) -> Option<Instr>
    ensures { Reads result (Some (Fields.adc_sbc_at word)) }
{
    row!(AdcSbc word: sf 31:1, op 30:1, s 29:1, rm 16:5, rn 5:5, rd 0:5)
}

pub fn cond_cmp(word: u32) -> Option<Instr>
    ensures { Reads result (Some (Fields.cond_cmp_at word)) }
{
    row!(CondCmp word: sf 31:1, op 30:1, rm 16:5, cond 12:4, i 11:1, rn 5:5, nzcv 0:4)
}

pub fn cond_sel(word: u32) -> Option<Instr>
    ensures { Reads result (Some (Fields.cond_sel_at word)) }
{
    row!(CondSel word: sf 31:1, op 30:1, rm 16:5, cond 12:4, o2 10:1, rn 5:5, rd 0:5)
}

pub fn two_source(word: u32) -> Option<Instr>
    ensures { Reads result (Some (Fields.two_source_at word)) }
{
    row!(TwoSource word: sf 31:1, rm 16:5, opcode 10:6, rn 5:5, rd 0:5;
        refused !matches!(opcode, 2 | 3 | 8 | 9 | 10 | 11))
}

pub fn one_source(word: u32) -> Option<Instr>
    ensures { Reads result (Some (Fields.one_source_at word)) }
{
    row!(OneSource word: sf 31:1, opcode 10:6, rn 5:5, rd 0:5;
        refused opcode > 5, sf == 0 && opcode == 3)
}

pub fn mul_add(word: u32) -> Option<Instr>
    ensures { Reads result (Some (Fields.mul_add_at word)) }
{
    row!(MulAdd word: sf 31:1, rm 16:5, o0 15:1, ra 10:5, rn 5:5, rd 0:5)
}

pub fn mul_add_long(word: u32) -> Option<Instr>
    ensures { Reads result (Some (Fields.mul_add_long_at word)) }
{
    row!(MulAddLong word: u 23:1, rm 16:5, o0 15:1, ra 10:5, rn 5:5, rd 0:5)
}

pub fn mul_high(word: u32) -> Option<Instr>
    ensures { Reads result (Some (Fields.mul_high_at word)) }
{
    row!(MulHigh word: u 23:1, rm 16:5, rn 5:5, rd 0:5)
}

pub fn ld_st_imm(word: u32) -> Option<Instr>
    ensures { Reads result (Some (Fields.ld_st_imm_at word)) }
{
    row!(LdStImm word: size 30:2, opc 22:2, imm12 10:12, rn 5:5, rt 0:5;
        refused !is_load_store(size, opc))
}

pub fn ld_st_unscaled(word: u32) -> Option<Instr>
    ensures { Reads result (Some (Fields.ld_st_unscaled_at word)) }
{
    row!(LdStUnscaled word: size 30:2, opc 22:2, rn 5:5, rt 0:5; signed imm9 12:9;
        refused !is_load_store(size, opc))
}

pub fn ld_st_post(word: u32) -> Option<Instr>
    ensures { Reads result (Some (Fields.ld_st_post_at word)) }
{
    row!(LdStPost word: size 30:2, opc 22:2, rn 5:5, rt 0:5; signed imm9 12:9;
        refused !is_load_store(size, opc), !may_write_back(rn, rt))
}

pub fn ld_st_pre(word: u32) -> Option<Instr>
    ensures { Reads result (Some (Fields.ld_st_pre_at word)) }
{
    row!(LdStPre word: size 30:2, opc 22:2, rn 5:5, rt 0:5; signed imm9 12:9;
        refused !is_load_store(size, opc), !may_write_back(rn, rt))
}

pub fn ld_st_reg(word: u32) -> Option<Instr>
    ensures { Reads result (Some (Fields.ld_st_reg_at word)) }
{
    row!(LdStReg word: size 30:2, opc 22:2, rm 16:5, option 13:3, s 12:1, rn 5:5, rt 0:5;
        refused !is_load_store(size, opc), !matches!(option, 2 | 3 | 6 | 7))
}

pub fn ld_lit(word: u32) -> Option<Instr>
    ensures { Reads result (Some (Fields.ld_lit_at word)) }
{
    row!(LdLit word: opc 30:2, rt 0:5; signed imm19 5:19; refused opc == 3)
}

pub fn pair_post(word: u32) -> Option<Instr>
    ensures { Reads result (Some (Fields.pair_post_at word)) }
{
    row!(PairPost word: opc 30:2, l 22:1, rt2 10:5, rn 5:5, rt 0:5; signed imm7 15:7;
        refused !is_load_store_pair(opc, l, rt, rt2), !may_write_back(rn, rt),
            !may_write_back(rn, rt2))
}

pub fn pair_off(word: u32) -> Option<Instr>
    ensures { Reads result (Some (Fields.pair_off_at word)) }
{
    row!(PairOff word: opc 30:2, l 22:1, rt2 10:5, rn 5:5, rt 0:5; signed imm7 15:7;
        refused !is_load_store_pair(opc, l, rt, rt2))
}

pub fn pair_pre(word: u32) -> Option<Instr>
    ensures { Reads result (Some (Fields.pair_pre_at word)) }
{
    row!(PairPre word: opc 30:2, l 22:1, rt2 10:5, rn 5:5, rt 0:5; signed imm7 15:7;
        refused !is_load_store_pair(opc, l, rt, rt2), !may_write_back(rn, rt),
            !may_write_back(rn, rt2))
}

pub fn brk(word: u32) -> Option<Instr>
    ensures { Reads result (Some (Fields.brk_at word)) }
{
    row!(Brk word: imm16 5:16)
}

pub fn hint(word: u32) -> Option<Instr>
    ensures { Reads result (Some (Fields.hint_at word)) }
{
    row!(Hint word: imm7 5:7)
}

pub fn add_g(word: u32) -> Option<Instr>
    ensures { Reads result (Some (Fields.add_g_at word)) }
{
    row!(AddG word: op 30:1, uimm6 16:6, uimm4 10:4, rn 5:5, rd 0:5)
}

pub fn sub_p(word: u32) -> Option<Instr>
    ensures { Reads result (Some (Fields.sub_p_at word)) }
{
    row!(SubP word: s 29:1, rm 16:5, rn 5:5, rd 0:5)
}

pub fn irg(word: u32) -> Option<Instr>
    ensures { Reads result (Some (Fields.irg_at word)) }
{
    row!(Irg word: rm 16:5, rn 5:5, rd 0:5)
}

pub fn gmi(word: u32) -> Option<Instr>
    ensures { Reads result (Some (Fields.gmi_at word)) }
{
    row!(Gmi word: rm 16:5, rn 5:5, rd 0:5)
}

pub fn ldg(word: u32) -> Option<Instr>
    ensures { Reads result (Some (Fields.ldg_at word)) }
{
    row!(Ldg word: rn 5:5, rt 0:5; signed imm9 12:9)
}

pub fn st_g(word: u32) -> Option<Instr>
    ensures { Reads result (Some (Fields.st_g_at word)) }
{
    row!(StG word: opc 22:2, mode 10:2, rn 5:5, rt 0:5; signed imm9 12:9; refused mode == 0)
}

pub fn st_g_p(word: u32) -> Option<Instr>
    ensures { Reads result (Some (Fields.st_g_p_at word)) }
{
    row!(StGP word: mode 23:2, rt2 10:5, rn 5:5, rt 0:5; signed imm7 15:7; refused mode == 0)
}
