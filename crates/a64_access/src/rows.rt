// Written by tools/isa.py from isa/a64.rows. Do not edit.
//! How each row accesses memory.

use crate::form::{
    AccessForm, AddressingMode, literal, load_tag, pair, pair_offset, register_offset,
    scaled_offset, single, store_tags, tag_mode, tagged_pair,
};
use a64_instr::Instr;

impl AccessForm {
    /// How an instruction accesses memory; `None` where it does not.
    #[rattlefmt::skip]
    pub fn of(instr: &Instr) -> Option<AccessForm> {
        Some(match *instr {
            Instr::LdStImm { size, opc, imm12, rn, rt } =>
                single(size, opc, rn, rt, AddressingMode::Offset(scaled_offset(imm12, size))),
            Instr::LdStUnscaled { size, opc, imm9, rn, rt } =>
                single(size, opc, rn, rt, AddressingMode::Offset(i32::from(imm9))),
            Instr::LdStPost { size, opc, rn, rt, .. } =>
                single(size, opc, rn, rt, AddressingMode::PostIndexed),
            Instr::LdStPre { size, opc, imm9, rn, rt } =>
                single(size, opc, rn, rt, AddressingMode::PreIndexed(i32::from(imm9))),
            Instr::LdStReg { size, opc, rm, option, s, rn, rt } =>
                single(size, opc, rn, rt, register_offset(rm, option, s)),
            Instr::LdLit { opc, imm19, rt } =>
                literal(opc, imm19, rt),
            Instr::PairPost { opc, l, rt2, rn, rt, .. } =>
                pair(opc, l, rn, rt, rt2, AddressingMode::PostIndexed),
            Instr::PairOff { opc, l, imm7, rt2, rn, rt } =>
                pair(opc, l, rn, rt, rt2, AddressingMode::Offset(pair_offset(opc, imm7))),
            Instr::PairPre { opc, l, imm7, rt2, rn, rt } =>
                pair(opc, l, rn, rt, rt2, AddressingMode::PreIndexed(pair_offset(opc, imm7))),
            Instr::Ldg { imm9, rn, rt } =>
                load_tag(rn, rt, tag_mode(2, i32::from(imm9))),
            Instr::StG { opc, imm9, mode, rn, rt } =>
                store_tags(opc, rn, rt, tag_mode(mode, i32::from(imm9))),
            Instr::StGP { mode, imm7, rt2, rn, rt } =>
                tagged_pair(rn, rt, rt2, tag_mode(mode, i32::from(imm7))),
            Instr::AddSubImm { .. }
            | Instr::AddSubShift { .. }
            | Instr::AddSubExt { .. }
            | Instr::LogImm { .. }
            | Instr::LogShift { .. }
            | Instr::MoveWide { .. }
            | Instr::Bitfield { .. }
            | Instr::Extr { .. }
            | Instr::Adr { .. }
            | Instr::Branch { .. }
            | Instr::BranchCond { .. }
            | Instr::CmpBranch { .. }
            | Instr::TestBranch { .. }
            | Instr::BranchReg { .. }
            | Instr::AdcSbc { .. }
            | Instr::CondCmp { .. }
            | Instr::CondSel { .. }
            | Instr::TwoSource { .. }
            | Instr::OneSource { .. }
            | Instr::MulAdd { .. }
            | Instr::MulAddLong { .. }
            | Instr::MulHigh { .. }
            | Instr::Svc
            | Instr::Brk { .. }
            | Instr::Hint { .. }
            | Instr::AddG { .. }
            | Instr::SubP { .. }
            | Instr::Irg { .. }
            | Instr::Gmi { .. } => return None,
        })
    }
}
