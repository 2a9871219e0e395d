//! The lines of branches, of what reads the program counter, and of system instructions
//! (Arm ARM DDI 0487, C6.2).

use crate::data_processing::condition;
use crate::operand::{Operand, TextLine, alone, general, one, three, two};

/// The address at a distance from an instruction: as such where it is known where the instruction
/// is, else as the distance.
pub fn target(pc: Option<u64>, distance: i64) -> Operand {
    match pc {
        Some(pc) => Operand::Absolute(pc.wrapping_add(distance.cast_unsigned())),
        None => Operand::Relative(distance),
    }
}

pub fn adr(pc: Option<u64>, op: u8, immlo: u8, immhi: i32, rd: u8) -> TextLine {
    let distance = 4 * i64::from(immhi) + i64::from(immlo);
    if op == 0 {
        return two("adr", general(1, rd), target(pc, distance));
    }
    let page = pc.map(|pc| pc - pc % 4096);
    two("adrp", general(1, rd), target(page, 4096 * distance))
}

pub fn branch(pc: Option<u64>, op: u8, imm26: i32) -> TextLine {
    one(
        if op == 0 { "b" } else { "bl" },
        target(pc, 4 * i64::from(imm26)),
    )
}

pub fn branch_cond(pc: Option<u64>, imm19: i32, cond: u8) -> TextLine {
    one("b.", target(pc, 4 * i64::from(imm19))).with_suffix(condition(cond))
}

pub fn cmp_branch(pc: Option<u64>, sf: u8, op: u8, imm19: i32, rt: u8) -> TextLine {
    let name = if op == 0 { "cbz" } else { "cbnz" };
    two(name, general(sf, rt), target(pc, 4 * i64::from(imm19)))
}

pub fn test_branch(pc: Option<u64>, b5: u8, op: u8, b40: u8, imm14: i16, rt: u8) -> TextLine {
    let name = if op == 0 { "tbz" } else { "tbnz" };
    let bit = Operand::Decimal(32 * i64::from(b5) + i64::from(b40));
    three(name, general(b5, rt), bit, target(pc, 4 * i64::from(imm14)))
}

pub fn branch_reg(opc: u8, rn: u8) -> TextLine {
    match opc {
        0 => one("br", general(1, rn)),
        1 => one("blr", general(1, rn)),
        _ if rn == 30 => alone("ret"),
        _ => one("ret", general(1, rn)),
    }
}

pub fn svc() -> TextLine {
    one("svc", Operand::Hexadecimal(0))
}

pub fn brk(imm16: u16) -> TextLine {
    one("brk", Operand::Hexadecimal(u64::from(imm16)))
}

/// The hints that have a name, and `hint` with its number.
pub fn hint(imm7: u8) -> TextLine {
    let name = match imm7 {
        0 => "nop",
        1 => "yield",
        2 => "wfe",
        3 => "wfi",
        4 => "sev",
        5 => "sevl",
        7 => "xpaclri",
        8 => "pacia1716",
        10 => "pacib1716",
        12 => "autia1716",
        14 => "autib1716",
        16 => "esb",
        17 => return one("psb", Operand::Word("csync")),
        18 => return one("tsb", Operand::Word("csync")),
        20 => "csdb",
        22 => "clearbhb",
        24 => "paciaz",
        25 => "paciasp",
        26 => "pacibz",
        27 => "pacibsp",
        28 => "autiaz",
        29 => "autiasp",
        30 => "autibz",
        31 => "autibsp",
        32 => "bti",
        34 => return one("bti", Operand::Word("c")),
        36 => return one("bti", Operand::Word("j")),
        38 => return one("bti", Operand::Word("jc")),
        _ => return one("hint", Operand::Hexadecimal(u64::from(imm7))),
    };
    alone(name)
}
