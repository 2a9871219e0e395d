// Written by tools/isa.py from isa/a64.rows. Do not edit.
//! The register that an instruction writes, besides those that it loads.

use a64_instr::Instr;

/// The numbered register that an instruction writes, 31 for none, if it is of data processing or a
/// branch. `None` for loads, stores and what writes no register.
#[rattlefmt::skip]
pub fn written_by(instr: &Instr) -> Option<u8> {
    match *instr {
        Instr::AddSubImm { rd, .. }
        | Instr::AddSubShift { rd, .. }
        | Instr::AddSubExt { rd, .. }
        | Instr::LogImm { rd, .. }
        | Instr::LogShift { rd, .. }
        | Instr::MoveWide { rd, .. }
        | Instr::Bitfield { rd, .. }
        | Instr::Extr { rd, .. }
        | Instr::Adr { rd, .. }
        | Instr::AdcSbc { rd, .. }
        | Instr::CondSel { rd, .. }
        | Instr::TwoSource { rd, .. }
        | Instr::OneSource { rd, .. }
        | Instr::MulAdd { rd, .. }
        | Instr::MulAddLong { rd, .. }
        | Instr::MulHigh { rd, .. }
        | Instr::AddG { rd, .. }
        | Instr::SubP { rd, .. }
        | Instr::Irg { rd, .. }
        | Instr::Gmi { rd, .. } => Some(rd),
        Instr::Branch { op: 1, .. } | Instr::BranchReg { opc: 1, .. } => Some(30),
        Instr::Ldg { rt, .. } => Some(rt),
        Instr::Branch { .. }
        | Instr::BranchCond { .. }
        | Instr::CmpBranch { .. }
        | Instr::TestBranch { .. }
        | Instr::BranchReg { .. }
        | Instr::CondCmp { .. }
        | Instr::LdStImm { .. }
        | Instr::LdStUnscaled { .. }
        | Instr::LdStPost { .. }
        | Instr::LdStPre { .. }
        | Instr::LdStReg { .. }
        | Instr::LdLit { .. }
        | Instr::PairPost { .. }
        | Instr::PairOff { .. }
        | Instr::PairPre { .. }
        | Instr::Svc
        | Instr::Brk { .. }
        | Instr::Hint { .. }
        | Instr::StG { .. }
        | Instr::StGP { .. } => None,
    }
}
