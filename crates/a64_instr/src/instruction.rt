// Written by tools/isa.py from isa/a64.rows. Do not edit.
//! The instructions (Arm ARM DDI 0487, C4.1): one variant for each row of the table of encodings.

/// An A64 instruction of the profile: its variant is the row of the encoding table, its fields are
/// the row's fields as encoded in the word (Arm ARM DDI 0487, C4.1 and C6.2).
///
/// Fields are plain numbers; `encode` of `a64_asm` says which values are allowed. Offsets are
/// signed and count the unit of their instruction (bytes, words, pairs or granules).
#[derive(Clone, Copy)]
#[rattlefmt::skip]
pub enum Instr {
    /// ADD, ADDS, SUB, SUBS (immediate).
    AddSubImm { sf: u8, op: u8, s: u8, sh: u8, imm12: u16, rn: u8, rd: u8 },
    /// ADD, ADDS, SUB, SUBS (shifted register).
    AddSubShift { sf: u8, op: u8, s: u8, shift: u8, rm: u8, imm6: u8, rn: u8, rd: u8 },
    /// ADD, ADDS, SUB, SUBS (extended register).
    AddSubExt { sf: u8, op: u8, s: u8, rm: u8, option: u8, imm3: u8, rn: u8, rd: u8 },
    /// AND, ORR, EOR, ANDS (immediate).
    LogImm { sf: u8, opc: u8, n: u8, immr: u8, imms: u8, rn: u8, rd: u8 },
    /// AND, BIC, ORR, ORN, EOR, EON, ANDS, BICS (shifted register).
    LogShift { sf: u8, opc: u8, shift: u8, n: u8, rm: u8, imm6: u8, rn: u8, rd: u8 },
    /// MOVN, MOVZ, MOVK.
    MoveWide { sf: u8, opc: u8, hw: u8, imm16: u16, rd: u8 },
    /// SBFM, BFM, UBFM.
    Bitfield { sf: u8, opc: u8, n: u8, immr: u8, imms: u8, rn: u8, rd: u8 },
    /// EXTR.
    Extr { sf: u8, n: u8, rm: u8, imms: u8, rn: u8, rd: u8 },
    /// ADR, ADRP.
    Adr { op: u8, immlo: u8, immhi: i32, rd: u8 },
    /// B, BL.
    Branch { op: u8, imm26: i32 },
    /// B.cond.
    BranchCond { imm19: i32, cond: u8 },
    /// CBZ, CBNZ.
    CmpBranch { sf: u8, op: u8, imm19: i32, rt: u8 },
    /// TBZ, TBNZ.
    TestBranch { b5: u8, op: u8, b40: u8, imm14: i16, rt: u8 },
    /// BR, BLR, RET.
    BranchReg { opc: u8, rn: u8 },
    /// ADC, ADCS, SBC, SBCS.
    AdcSbc { sf: u8, op: u8, s: u8, rm: u8, rn: u8, rd: u8 },
    /// CCMN, CCMP (register and immediate).
    CondCmp { sf: u8, op: u8, rm: u8, cond: u8, i: u8, rn: u8, nzcv: u8 },
    /// CSEL, CSINC, CSINV, CSNEG.
    CondSel { sf: u8, op: u8, rm: u8, cond: u8, o2: u8, rn: u8, rd: u8 },
    /// UDIV, SDIV, LSLV, LSRV, ASRV, RORV.
    TwoSource { sf: u8, rm: u8, opcode: u8, rn: u8, rd: u8 },
    /// RBIT, REV16, REV32, REV, CLZ, CLS.
    OneSource { sf: u8, opcode: u8, rn: u8, rd: u8 },
    /// MADD, MSUB.
    MulAdd { sf: u8, rm: u8, o0: u8, ra: u8, rn: u8, rd: u8 },
    /// SMADDL, SMSUBL, UMADDL, UMSUBL.
    MulAddLong { u: u8, rm: u8, o0: u8, ra: u8, rn: u8, rd: u8 },
    /// SMULH, UMULH.
    MulHigh { u: u8, rm: u8, rn: u8, rd: u8 },
    /// Loads and stores of a register, unsigned offset.
    LdStImm { size: u8, opc: u8, imm12: u16, rn: u8, rt: u8 },
    /// Loads and stores of a register, unscaled offset.
    LdStUnscaled { size: u8, opc: u8, imm9: i16, rn: u8, rt: u8 },
    /// Loads and stores of a register, post-indexed.
    LdStPost { size: u8, opc: u8, imm9: i16, rn: u8, rt: u8 },
    /// Loads and stores of a register, pre-indexed.
    LdStPre { size: u8, opc: u8, imm9: i16, rn: u8, rt: u8 },
    /// Loads and stores of a register, register offset.
    LdStReg { size: u8, opc: u8, rm: u8, option: u8, s: u8, rn: u8, rt: u8 },
    /// LDR, LDRSW (literal).
    LdLit { opc: u8, imm19: i32, rt: u8 },
    /// LDP, STP, LDPSW, post-indexed.
    PairPost { opc: u8, l: u8, imm7: i8, rt2: u8, rn: u8, rt: u8 },
    /// LDP, STP, LDPSW, signed offset.
    PairOff { opc: u8, l: u8, imm7: i8, rt2: u8, rn: u8, rt: u8 },
    /// LDP, STP, LDPSW, pre-indexed.
    PairPre { opc: u8, l: u8, imm7: i8, rt2: u8, rn: u8, rt: u8 },
    /// SVC #0.
    Svc,
    /// BRK.
    Brk { imm16: u16 },
    /// HINT, NOP.
    Hint { imm7: u8 },
    /// ADDG, SUBG.
    AddG { op: u8, uimm6: u8, uimm4: u8, rn: u8, rd: u8 },
    /// SUBP, SUBPS.
    SubP { s: u8, rm: u8, rn: u8, rd: u8 },
    /// IRG.
    Irg { rm: u8, rn: u8, rd: u8 },
    /// GMI.
    Gmi { rm: u8, rn: u8, rd: u8 },
    /// LDG.
    Ldg { imm9: i16, rn: u8, rt: u8 },
    /// STG, STZG, ST2G, STZ2G.
    StG { opc: u8, imm9: i16, mode: u8, rn: u8, rt: u8 },
    /// STGP.
    StGP { mode: u8, imm7: i8, rt2: u8, rn: u8, rt: u8 },
}
