// Written by tools/isa.py from isa/a64.rows. Do not edit.
//! The word of an instruction by its row (Arm ARM DDI 0487, C4.1): the base, the fields and the
//! refusals of each.

ghost use Rattle.a64_asm.specs.Encoding.{Encodes};
ghost use Rattle.a64_instr.specs.declared.instruction.Instr.TheVariants as instr;

use crate::refusals::{is_load_store, is_load_store_pair, may_write_back};
use crate::row::row;
use a64_bits::{fits_signed, is_mask, signed_bits};
use a64_instr::Instr;
use a64_instr::fields::{
    AddSub, ComparedOperands, ExtendedRegister, FieldMove, Logical, LogicalImmediate,
    RegisterOffset, RegisterOperands, ShiftedRegister, Transfer,
};

/// The word of `instr`, by the function of its row.
#[rattlefmt::skip]
pub fn word_by_row(instr: &Instr) -> Option<u32>
    ensures { Encodes result instr.now }
{
    match *instr {
        Instr::AddSubImm { sf, op, s, sh, imm12, rn, rd } =>
            add_sub_imm(sf, AddSub { op, s, rn, rd }, sh, imm12),
        Instr::AddSubShift { sf, op, s, shift, rm, imm6, rn, rd } =>
            add_sub_shift(AddSub { op, s, rn, rd }, ShiftedRegister { sf, shift, rm, imm6 }),
        Instr::AddSubExt { sf, op, s, rm, option, imm3, rn, rd } =>
            add_sub_ext(AddSub { op, s, rn, rd }, ExtendedRegister { sf, rm, option, imm3 }),
        Instr::LogImm { sf, opc, n, immr, imms, rn, rd } =>
            log_imm(LogicalImmediate { sf, opc, rn, rd }, n, immr, imms),
        Instr::LogShift { sf, opc, shift, n, rm, imm6, rn, rd } =>
            log_shift(Logical { opc, n, rn, rd }, ShiftedRegister { sf, shift, rm, imm6 }),
        Instr::MoveWide { sf, opc, hw, imm16, rd } => move_wide(sf, opc, hw, imm16, rd),
        Instr::Bitfield { sf, opc, n, immr, imms, rn, rd } =>
            bitfield(FieldMove { sf, opc, immr, imms }, rn, rd, n),
        Instr::Extr { sf, n, rm, imms, rn, rd } => extr(sf, n, rm, imms, rn, rd),
        Instr::Adr { op, immlo, immhi, rd } => adr(op, immlo, immhi, rd),
        Instr::Branch { op, imm26 } => branch(op, imm26),
        Instr::BranchCond { imm19, cond } => branch_cond(imm19, cond),
        Instr::CmpBranch { sf, op, imm19, rt } => cmp_branch(sf, op, imm19, rt),
        Instr::TestBranch { b5, op, b40, imm14, rt } => test_branch(b5, op, b40, imm14, rt),
        Instr::BranchReg { opc, rn } => branch_reg(opc, rn),
        Instr::AdcSbc { sf, op, s, rm, rn, rd } => adc_sbc(sf, op, s, rm, rn, rd),
        Instr::CondCmp { sf, op, rm, cond, i, rn, nzcv } =>
            cond_cmp(ComparedOperands { sf, rm, i, rn }, op, cond, nzcv),
        Instr::CondSel { sf, op, rm, cond, o2, rn, rd } =>
            cond_sel(RegisterOperands { sf, rm, rn, rd }, op, cond, o2),
        Instr::TwoSource { sf, rm, opcode, rn, rd } => two_source(sf, rm, opcode, rn, rd),
        Instr::OneSource { sf, opcode, rn, rd } => one_source(sf, opcode, rn, rd),
        Instr::MulAdd { sf, rm, o0, ra, rn, rd } => mul_add(sf, rm, o0, ra, rn, rd),
        Instr::MulAddLong { u, rm, o0, ra, rn, rd } => mul_add_long(u, rm, o0, ra, rn, rd),
        Instr::MulHigh { u, rm, rn, rd } => mul_high(u, rm, rn, rd),
        Instr::LdStImm { size, opc, imm12, rn, rt } => ld_st_imm(size, opc, imm12, rn, rt),
        Instr::LdStUnscaled { size, opc, imm9, rn, rt } => ld_st_unscaled(size, opc, imm9, rn, rt),
        Instr::LdStPost { size, opc, imm9, rn, rt } => ld_st_post(size, opc, imm9, rn, rt),
        Instr::LdStPre { size, opc, imm9, rn, rt } => ld_st_pre(size, opc, imm9, rn, rt),
        Instr::LdStReg { size, opc, rm, option, s, rn, rt } =>
            ld_st_reg(Transfer { size, opc, rn, rt }, RegisterOffset { rm, option, s }),
        Instr::LdLit { opc, imm19, rt } => ld_lit(opc, imm19, rt),
        Instr::PairPost { opc, l, imm7, rt2, rn, rt } => pair_post(opc, l, imm7, rt2, rn, rt),
        Instr::PairOff { opc, l, imm7, rt2, rn, rt } => pair_off(opc, l, imm7, rt2, rn, rt),
        Instr::PairPre { opc, l, imm7, rt2, rn, rt } => pair_pre(opc, l, imm7, rt2, rn, rt),
        Instr::Svc => Some(0xD400_0001),
        Instr::Brk { imm16 } => brk(imm16),
        Instr::Hint { imm7 } => hint(imm7),
        Instr::AddG { op, uimm6, uimm4, rn, rd } => add_g(op, uimm6, uimm4, rn, rd),
        Instr::SubP { s, rm, rn, rd } => sub_p(s, rm, rn, rd),
        Instr::Irg { rm, rn, rd } => irg(rm, rn, rd),
        Instr::Gmi { rm, rn, rd } => gmi(rm, rn, rd),
        Instr::Ldg { imm9, rn, rt } => ldg(imm9, rn, rt),
        Instr::StG { opc, imm9, mode, rn, rt } => st_g(opc, imm9, mode, rn, rt),
        Instr::StGP { mode, imm7, rt2, rn, rt } => st_g_p(mode, imm7, rt2, rn, rt),
    }
}

fn add_sub_imm(sf: u8, addition: AddSub, sh: u8, imm12: u16) -> Option<u32>
    ensures { Encodes result
        (instr.AddSubImm sf addition.op addition.s sh imm12 addition.rn addition.rd) }
{
    let AddSub { op, s, rn, rd } = addition;
    row!(0x1100_0000, sf 31:1, op 30:1, s 29:1, sh 22:1, imm12 10:12, rn 5:5, rd 0:5)
}

fn add_sub_shift(addition: AddSub, second: ShiftedRegister) -> Option<u32>
    ensures { Encodes result
        (instr.AddSubShift second.sf addition.op addition.s second.shift second.rm second.imm6
        addition.rn addition.rd) }
{
    let AddSub { op, s, rn, rd } = addition;
    let ShiftedRegister {
        sf,
        shift,
        rm,
        imm6,
    } = second;
    row!(0x0B00_0000, sf 31:1, op 30:1, s 29:1, shift 22:2, rm 16:5, imm6 10:6, rn 5:5, rd 0:5;
        refused shift == 3, sf == 0 && imm6 > 31)
}

fn add_sub_ext(addition: AddSub, second: ExtendedRegister) -> Option<u32>
    ensures { Encodes result
        (instr.AddSubExt second.sf addition.op addition.s second.rm second.option second.imm3
        addition.rn addition.rd) }
{
    let AddSub { op, s, rn, rd } = addition;
    let ExtendedRegister {
        sf,
        rm,
        option,
        imm3,
    } = second;
    row!(0x0B20_0000, sf 31:1, op 30:1, s 29:1, rm 16:5, option 13:3, imm3 10:3, rn 5:5, rd 0:5;
        refused imm3 > 4)
}

fn log_imm(logic: LogicalImmediate, n: u8, immr: u8, imms: u8) -> Option<u32>
    ensures { Encodes result (instr.LogImm logic.sf logic.opc n immr imms logic.rn logic.rd) }
{
    let LogicalImmediate { sf, opc, rn, rd } = logic;
    row!(0x1200_0000, sf 31:1, opc 29:2, n 22:1, immr 16:6, imms 10:6, rn 5:5, rd 0:5;
        refused sf == 0 && n != 0, !is_mask(n, imms))
}

fn log_shift(logic: Logical, second: ShiftedRegister) -> Option<u32>
    ensures { Encodes result
        (instr.LogShift second.sf logic.opc second.shift logic.n second.rm second.imm6 logic.rn
        logic.rd) }
{
    let Logical { opc, n, rn, rd } = logic;
    let ShiftedRegister {
        sf,
        shift,
        rm,
        imm6,
    } = second;
    row!(0x0A00_0000, sf 31:1, opc 29:2, shift 22:2, n 21:1, rm 16:5, imm6 10:6, rn 5:5, rd 0:5;
        refused sf == 0 && imm6 > 31)
}

fn move_wide(sf: u8, opc: u8, hw: u8, imm16: u16, rd: u8) -> Option<u32>
    ensures { Encodes result (instr.MoveWide sf opc hw imm16 rd) }
{
    row!(0x1280_0000, sf 31:1, opc 29:2, hw 21:2, imm16 5:16, rd 0:5;
        refused opc == 1, sf == 0 && hw > 1)
}

fn bitfield(field: FieldMove, rn: u8, rd: u8, n: u8) -> Option<u32>
    ensures { Encodes result (instr.Bitfield field.sf field.opc n field.immr field.imms rn rd) }
{
    let FieldMove {
        sf,
        opc,
        immr,
        imms,
    } = field;
    row!(0x1300_0000, sf 31:1, opc 29:2, n 22:1, immr 16:6, imms 10:6, rn 5:5, rd 0:5;
        refused opc == 3, n != sf, sf == 0 && immr > 31, sf == 0 && imms > 31)
}

fn extr(sf: u8, n: u8, rm: u8, imms: u8, rn: u8, rd: u8) -> Option<u32>
    ensures { Encodes result (instr.Extr sf n rm imms rn rd) }
{
    row!(0x1380_0000, sf 31:1, n 22:1, rm 16:5, imms 10:6, rn 5:5, rd 0:5;
        refused n != sf, sf == 0 && imms > 31)
}

fn adr(op: u8, immlo: u8, immhi: i32, rd: u8) -> Option<u32>
    ensures { Encodes result (instr.Adr op immlo immhi rd) }
{
    row!(0x1000_0000, op 31:1, immlo 29:2, rd 0:5; signed immhi 5:19)
}

fn branch(op: u8, imm26: i32) -> Option<u32>
    ensures { Encodes result (instr.Branch op imm26) }
{
    row!(0x1400_0000, op 31:1; signed imm26 0:26)
}

fn branch_cond(imm19: i32, cond: u8) -> Option<u32>
    ensures { Encodes result (instr.BranchCond imm19 cond) }
{
    row!(0x5400_0000, cond 0:4; signed imm19 5:19)
}

fn cmp_branch(sf: u8, op: u8, imm19: i32, rt: u8) -> Option<u32>
    ensures { Encodes result (instr.CmpBranch sf op imm19 rt) }
{
    row!(0x3400_0000, sf 31:1, op 24:1, rt 0:5; signed imm19 5:19)
}

fn test_branch(b5: u8, op: u8, b40: u8, imm14: i16, rt: u8) -> Option<u32>
    ensures { Encodes result (instr.TestBranch b5 op b40 imm14 rt) }
{
    row!(0x3600_0000, b5 31:1, op 24:1, b40 19:5, rt 0:5; signed imm14 5:14)
}

fn branch_reg(opc: u8, rn: u8) -> Option<u32>
    ensures { Encodes result (instr.BranchReg opc rn) }
{
    row!(0xD61F_0000, opc 21:2, rn 5:5; refused opc == 3)
}

fn adc_sbc(sf: u8, op: u8, s: u8, rm: u8, rn: u8, rd: u8) -> Option<u32>
    ensures { Encodes result (instr.AdcSbc sf op s rm rn rd) }
{
    row!(0x1A00_0000, sf 31:1, op 30:1, s 29:1, rm 16:5, rn 5:5, rd 0:5)
}

fn cond_cmp(operands: ComparedOperands, op: u8, cond: u8, nzcv: u8) -> Option<u32>
    ensures { Encodes result
        (instr.CondCmp operands.sf op operands.rm cond operands.i operands.rn nzcv) }
{
    let ComparedOperands { sf, rm, i, rn } = operands;
    row!(0x3A40_0000, sf 31:1, op 30:1, rm 16:5, cond 12:4, i 11:1, rn 5:5, nzcv 0:4)
}

fn cond_sel(operands: RegisterOperands, op: u8, cond: u8, o2: u8) -> Option<u32>
    ensures { Encodes result
        (instr.CondSel operands.sf op operands.rm cond o2 operands.rn operands.rd) }
{
    let RegisterOperands { sf, rm, rn, rd } = operands;
    row!(0x1A80_0000, sf 31:1, op 30:1, rm 16:5, cond 12:4, o2 10:1, rn 5:5, rd 0:5)
}

fn two_source(sf: u8, rm: u8, opcode: u8, rn: u8, rd: u8) -> Option<u32>
    ensures { Encodes result (instr.TwoSource sf rm opcode rn rd) }
{
    row!(0x1AC0_0000, sf 31:1, rm 16:5, opcode 10:6, rn 5:5, rd 0:5;
        refused !matches!(opcode, 2 | 3 | 8 | 9 | 10 | 11))
}

fn one_source(sf: u8, opcode: u8, rn: u8, rd: u8) -> Option<u32>
    ensures { Encodes result (instr.OneSource sf opcode rn rd) }
{
    row!(0x5AC0_0000, sf 31:1, opcode 10:6, rn 5:5, rd 0:5;
        refused opcode > 5, sf == 0 && opcode == 3)
}

fn mul_add(sf: u8, rm: u8, o0: u8, ra: u8, rn: u8, rd: u8) -> Option<u32>
    ensures { Encodes result (instr.MulAdd sf rm o0 ra rn rd) }
{
    row!(0x1B00_0000, sf 31:1, rm 16:5, o0 15:1, ra 10:5, rn 5:5, rd 0:5)
}

fn mul_add_long(u: u8, rm: u8, o0: u8, ra: u8, rn: u8, rd: u8) -> Option<u32>
    ensures { Encodes result (instr.MulAddLong u rm o0 ra rn rd) }
{
    row!(0x9B20_0000, u 23:1, rm 16:5, o0 15:1, ra 10:5, rn 5:5, rd 0:5)
}

fn mul_high(u: u8, rm: u8, rn: u8, rd: u8) -> Option<u32>
    ensures { Encodes result (instr.MulHigh u rm rn rd) }
{
    row!(0x9B40_7C00, u 23:1, rm 16:5, rn 5:5, rd 0:5)
}

fn ld_st_imm(size: u8, opc: u8, imm12: u16, rn: u8, rt: u8) -> Option<u32>
    ensures { Encodes result (instr.LdStImm size opc imm12 rn rt) }
{
    row!(0x3900_0000, size 30:2, opc 22:2, imm12 10:12, rn 5:5, rt 0:5;
        refused !is_load_store(size, opc))
}

fn ld_st_unscaled(size: u8, opc: u8, imm9: i16, rn: u8, rt: u8) -> Option<u32>
    ensures { Encodes result (instr.LdStUnscaled size opc imm9 rn rt) }
{
    row!(0x3800_0000, size 30:2, opc 22:2, rn 5:5, rt 0:5; signed imm9 12:9;
        refused !is_load_store(size, opc))
}

fn ld_st_post(size: u8, opc: u8, imm9: i16, rn: u8, rt: u8) -> Option<u32>
    ensures { Encodes result (instr.LdStPost size opc imm9 rn rt) }
{
    row!(0x3800_0400, size 30:2, opc 22:2, rn 5:5, rt 0:5; signed imm9 12:9;
        refused !is_load_store(size, opc), !may_write_back(rn, rt))
}

fn ld_st_pre(size: u8, opc: u8, imm9: i16, rn: u8, rt: u8) -> Option<u32>
    ensures { Encodes result (instr.LdStPre size opc imm9 rn rt) }
{
    row!(0x3800_0C00, size 30:2, opc 22:2, rn 5:5, rt 0:5; signed imm9 12:9;
        refused !is_load_store(size, opc), !may_write_back(rn, rt))
}

fn ld_st_reg(transfer: Transfer, offset: RegisterOffset) -> Option<u32>
    ensures { Encodes result
        (instr.LdStReg transfer.size transfer.opc offset.rm offset.option offset.s transfer.rn
        transfer.rt) }
{
    let Transfer { size, opc, rn, rt } = transfer;
    let RegisterOffset { rm, option, s } = offset;
    row!(0x3820_0800, size 30:2, opc 22:2, rm 16:5, option 13:3, s 12:1, rn 5:5, rt 0:5;
        refused !is_load_store(size, opc), !matches!(option, 2 | 3 | 6 | 7))
}

fn ld_lit(opc: u8, imm19: i32, rt: u8) -> Option<u32>
    ensures { Encodes result (instr.LdLit opc imm19 rt) }
{
    row!(0x1800_0000, opc 30:2, rt 0:5; signed imm19 5:19; refused opc == 3)
}

fn pair_post(opc: u8, l: u8, imm7: i8, rt2: u8, rn: u8, rt: u8) -> Option<u32>
    ensures { Encodes result (instr.PairPost opc l imm7 rt2 rn rt) }
{
    row!(0x2880_0000, opc 30:2, l 22:1, rt2 10:5, rn 5:5, rt 0:5; signed imm7 15:7;
        refused !is_load_store_pair(opc, l, rt, rt2), !may_write_back(rn, rt),
            !may_write_back(rn, rt2))
}

fn pair_off(opc: u8, l: u8, imm7: i8, rt2: u8, rn: u8, rt: u8) -> Option<u32>
    ensures { Encodes result (instr.PairOff opc l imm7 rt2 rn rt) }
{
    row!(0x2900_0000, opc 30:2, l 22:1, rt2 10:5, rn 5:5, rt 0:5; signed imm7 15:7;
        refused !is_load_store_pair(opc, l, rt, rt2))
}

fn pair_pre(opc: u8, l: u8, imm7: i8, rt2: u8, rn: u8, rt: u8) -> Option<u32>
    ensures { Encodes result (instr.PairPre opc l imm7 rt2 rn rt) }
{
    row!(0x2980_0000, opc 30:2, l 22:1, rt2 10:5, rn 5:5, rt 0:5; signed imm7 15:7;
        refused !is_load_store_pair(opc, l, rt, rt2), !may_write_back(rn, rt),
            !may_write_back(rn, rt2))
}

fn brk(imm16: u16) -> Option<u32>
    ensures { Encodes result (instr.Brk imm16) }
{
    row!(0xD420_0000, imm16 5:16)
}

fn hint(imm7: u8) -> Option<u32>
    ensures { Encodes result (instr.Hint imm7) }
{
    row!(0xD503_201F, imm7 5:7)
}

fn add_g(op: u8, uimm6: u8, uimm4: u8, rn: u8, rd: u8) -> Option<u32>
    ensures { Encodes result (instr.AddG op uimm6 uimm4 rn rd) }
{
    row!(0x9180_0000, op 30:1, uimm6 16:6, uimm4 10:4, rn 5:5, rd 0:5)
}

fn sub_p(s: u8, rm: u8, rn: u8, rd: u8) -> Option<u32>
    ensures { Encodes result (instr.SubP s rm rn rd) }
{
    row!(0x9AC0_0000, s 29:1, rm 16:5, rn 5:5, rd 0:5)
}

fn irg(rm: u8, rn: u8, rd: u8) -> Option<u32>
    ensures { Encodes result (instr.Irg rm rn rd) }
{
    row!(0x9AC0_1000, rm 16:5, rn 5:5, rd 0:5)
}

fn gmi(rm: u8, rn: u8, rd: u8) -> Option<u32>
    ensures { Encodes result (instr.Gmi rm rn rd) }
{
    row!(0x9AC0_1400, rm 16:5, rn 5:5, rd 0:5)
}

fn ldg(imm9: i16, rn: u8, rt: u8) -> Option<u32>
    ensures { Encodes result (instr.Ldg imm9 rn rt) }
{
    row!(0xD960_0000, rn 5:5, rt 0:5; signed imm9 12:9)
}

fn st_g(opc: u8, imm9: i16, mode: u8, rn: u8, rt: u8) -> Option<u32>
    ensures { Encodes result (instr.StG opc imm9 mode rn rt) }
{
    row!(0xD920_0000, opc 22:2, mode 10:2, rn 5:5, rt 0:5; signed imm9 12:9; refused mode == 0)
}

fn st_g_p(mode: u8, imm7: i8, rt2: u8, rn: u8, rt: u8) -> Option<u32>
    ensures { Encodes result (instr.StGP mode imm7 rt2 rn rt) }
{
    row!(0x6800_0000, mode 23:2, rt2 10:5, rn 5:5, rt 0:5; signed imm7 15:7; refused mode == 0)
}
