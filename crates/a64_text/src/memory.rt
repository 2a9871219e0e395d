//! The lines of loads, stores and memory tagging (Arm ARM DDI 0487, C6.2).

use crate::control::target;
use crate::operand::{
    Modifier, Operand, Register, TextLine, four, general, general_or_sp, three, two,
};
use a64_instr::fields::{PairTransfer, RegisterOffset, Transfer};

/// Bytes of a granule.
const GRANULE: u8 = 16;

/// The suffix of `ldr`, `ldur`, `str` or `stur`: how many bytes and how they are extended.
fn suffix(size: u8, opc: u8) -> &'static str {
    match (size, opc) {
        (0, 0 | 1) => "b",
        (0, _) => "sb",
        (1, 0 | 1) => "h",
        (1, _) => "sh",
        (2, 2) => "sw",
        _ => "",
    }
}

/// The register of a load or store: of 64 bits where it moves 8 bytes or extends to 8.
fn transferred(size: u8, opc: u8, rt: u8) -> Operand {
    general(if size == 3 || opc == 2 { 1 } else { 0 }, rt)
}

/// A base, which may be the stack pointer.
fn base(rn: u8) -> Register {
    Register::XOrSp(rn)
}

/// A load or store of a register at an address of one operand, or of two where the base is written
/// back after the access.
fn load_store(size: u8, opc: u8, rt: u8, address: Operand, after: Operand) -> TextLine {
    let stem = if opc == 0 { "str" } else { "ldr" };
    three(stem, transferred(size, opc, rt), address, after).with_suffix(suffix(size, opc))
}

pub fn ld_st_imm(size: u8, opc: u8, imm12: u16, rn: u8, rt: u8) -> TextLine {
    let bytes = match size {
        0 => 1,
        1 => 2,
        2 => 4,
        _ => 8,
    };
    let address = Operand::Offset(base(rn), bytes * i64::from(imm12));
    load_store(size, opc, rt, address, Operand::Absent)
}

pub fn ld_st_unscaled(size: u8, opc: u8, imm9: i16, rn: u8, rt: u8) -> TextLine {
    let address = Operand::Offset(base(rn), i64::from(imm9));
    let stem = if opc == 0 { "stur" } else { "ldur" };
    two(stem, transferred(size, opc, rt), address).with_suffix(suffix(size, opc))
}

pub fn ld_st_post(size: u8, opc: u8, imm9: i16, rn: u8, rt: u8) -> TextLine {
    let address = Operand::Offset(base(rn), 0);
    load_store(size, opc, rt, address, Operand::Decimal(i64::from(imm9)))
}

pub fn ld_st_pre(size: u8, opc: u8, imm9: i16, rn: u8, rt: u8) -> TextLine {
    let address = Operand::PreIndexed(base(rn), i64::from(imm9));
    load_store(size, opc, rt, address, Operand::Absent)
}

pub fn ld_st_reg(transfer: Transfer, offset: RegisterOffset) -> TextLine {
    let Transfer { size, opc, rn, rt } = transfer;
    let RegisterOffset { rm, option, s } = offset;
    let index = if option % 2 == 1 {
        Register::X(rm)
    } else {
        Register::W(rm)
    };
    let name = match option {
        2 => "uxtw",
        3 => "lsl",
        6 => "sxtw",
        _ => "sxtx",
    };
    let amount = if s == 1 { Some(size) } else { None };
    let address = if option == 3 && s == 0 {
        Operand::Indexed(base(rn), index)
    } else {
        Operand::Extended(base(rn), index, Modifier { name, amount })
    };
    load_store(size, opc, rt, address, Operand::Absent)
}

pub fn ld_lit(pc: Option<u64>, opc: u8, imm19: i32, rt: u8) -> TextLine {
    let (name, sf) = match opc {
        0 => ("ldr", 0),
        1 => ("ldr", 1),
        _ => ("ldrsw", 1),
    };
    two(name, general(sf, rt), target(pc, 4 * i64::from(imm19)))
}

/// How an address is written: its base and its offset, which is added before the access, after it,
/// or without writing the base back.
#[derive(Clone, Copy)]
enum Indexing {
    Offset,
    Before,
    After,
}

impl Indexing {
    /// The indexing by the codes of tag stores: 1 after, 2 without writing back, 3 before.
    fn of_mode(mode: u8) -> Indexing {
        match mode {
            1 => Indexing::After,
            2 => Indexing::Offset,
            _ => Indexing::Before,
        }
    }

    /// The operands of an address.
    fn operands(self, rn: u8, offset: i64) -> (Operand, Operand) {
        match self {
            Indexing::Offset => (Operand::Offset(base(rn), offset), Operand::Absent),
            Indexing::Before => (Operand::PreIndexed(base(rn), offset), Operand::Absent),
            Indexing::After => (Operand::Offset(base(rn), 0), Operand::Decimal(offset)),
        }
    }
}

pub fn pair_post(l: u8, pair: PairTransfer, imm7: i8) -> TextLine {
    both(Indexing::After, l, pair, imm7)
}

pub fn pair_off(l: u8, pair: PairTransfer, imm7: i8) -> TextLine {
    both(Indexing::Offset, l, pair, imm7)
}

pub fn pair_pre(l: u8, pair: PairTransfer, imm7: i8) -> TextLine {
    both(Indexing::Before, l, pair, imm7)
}

/// A load or a store of two registers.
fn both(indexing: Indexing, l: u8, pair: PairTransfer, imm7: i8) -> TextLine {
    let PairTransfer { opc, rt2, rn, rt } = pair;
    let (sf, bytes) = match opc {
        0 => (0, 4),
        1 => (1, 4),
        _ => (1, 8),
    };
    let (address, after) = indexing.operands(rn, bytes * i64::from(imm7));
    let stem = if l == 0 { "stp" } else { "ldp" };
    let kind = if opc == 1 { "sw" } else { "" };
    four(stem, general(sf, rt), general(sf, rt2), address, after).with_suffix(kind)
}

pub fn add_g(op: u8, uimm6: u8, uimm4: u8, rn: u8, rd: u8) -> TextLine {
    let bytes = Operand::Hexadecimal(u64::from(GRANULE) * u64::from(uimm6));
    let tags = Operand::Hexadecimal(u64::from(uimm4));
    let name = if op == 0 { "addg" } else { "subg" };
    four(
        name,
        general_or_sp(1, rd),
        general_or_sp(1, rn),
        bytes,
        tags,
    )
}

pub fn sub_p(s: u8, rm: u8, rn: u8, rd: u8) -> TextLine {
    let (first, second) = (general_or_sp(1, rn), general_or_sp(1, rm));
    match s {
        0 => three("subp", general(1, rd), first, second),
        _ if rd == 31 => two("cmpp", first, second),
        _ => three("subps", general(1, rd), first, second),
    }
}

pub fn irg(rm: u8, rn: u8, rd: u8) -> TextLine {
    let excluded = if rm == 31 {
        Operand::Absent
    } else {
        general(1, rm)
    };
    three("irg", general_or_sp(1, rd), general_or_sp(1, rn), excluded)
}

pub fn gmi(rm: u8, rn: u8, rd: u8) -> TextLine {
    three("gmi", general(1, rd), general_or_sp(1, rn), general(1, rm))
}

pub fn ldg(imm9: i16, rn: u8, rt: u8) -> TextLine {
    two(
        "ldg",
        general(1, rt),
        Operand::Offset(base(rn), i64::from(GRANULE) * i64::from(imm9)),
    )
}

pub fn st_g(opc: u8, imm9: i16, mode: u8, rn: u8, rt: u8) -> TextLine {
    let name = match opc {
        0 => "stg",
        1 => "stzg",
        2 => "st2g",
        _ => "stz2g",
    };
    let (address, after) = Indexing::of_mode(mode).operands(
        rn,
        i64::from(GRANULE) * i64::from(imm9),
    );
    three(name, general_or_sp(1, rt), address, after)
}

pub fn st_g_p(mode: u8, imm7: i8, rt2: u8, rn: u8, rt: u8) -> TextLine {
    let (address, after) = Indexing::of_mode(mode).operands(
        rn,
        i64::from(GRANULE) * i64::from(imm7),
    );
    four("stgp", general(1, rt), general(1, rt2), address, after)
}
