//! The lines of data-processing instructions, with the aliases that the manual prefers
//! (Arm ARM DDI 0487, C6.2).

use crate::operand::{
    Modifier, Operand, TextLine, four, general, general_or_sp, shifted, three, two,
};
use a64_bits::bit_masks;
use a64_instr::fields::{
    AddSub, ComparedOperands, ExtendedRegister, Logical, LogicalImmediate, RegisterOperands,
    ShiftedRegister,
};

/// The zero register, or the stack pointer.
const LAST: u8 = 31;

fn add_sub_name(addition: AddSub) -> &'static str {
    match (addition.op, addition.s) {
        (0, 0) => "add",
        (0, _) => "adds",
        (_, 0) => "sub",
        _ => "subs",
    }
}

pub fn add_sub_imm(sf: u8, addition: AddSub, sh: u8, imm12: u16) -> TextLine {
    let AddSub { op, s, rn, rd } = addition;
    let (destination, source) = (general_or_sp(sf, rd), general_or_sp(sf, rn));
    let immediate = Operand::Hexadecimal(u64::from(imm12));
    let shift = shifted(0, if sh == 1 { 12 } else { 0 });
    match (op, s) {
        (0, 1) if rd == LAST => three("cmn", source, immediate, shift),
        (1, 1) if rd == LAST => three("cmp", source, immediate, shift),
        (0, 0) if (rd == LAST || rn == LAST) && sh == 0 && imm12 == 0 => {
            two("mov", destination, source)
        }
        _ => four(
            add_sub_name(addition),
            destination,
            source,
            immediate,
            shift,
        ),
    }
}

pub fn add_sub_shift(addition: AddSub, second: ShiftedRegister) -> TextLine {
    let AddSub { op, s, rn, rd } = addition;
    let ShiftedRegister {
        sf,
        shift,
        rm,
        imm6,
    } = second;
    let destination = general(sf, rd);
    let (first, second) = (general(sf, rn), general(sf, rm));
    let shift = shifted(shift, imm6);
    match (op, s) {
        (0, 1) if rd == LAST => three("cmn", first, second, shift),
        (1, 1) if rd == LAST => three("cmp", first, second, shift),
        (1, 0) if rn == LAST => three("neg", destination, second, shift),
        (1, 1) if rn == LAST => three("negs", destination, second, shift),
        _ => four(add_sub_name(addition), destination, first, second, shift),
    }
}

/// The extension with the code `option`. Where the form speaks of the stack pointer, the one to the
/// register's own size is written as a shift.
fn extension(sf: u8, option: u8, amount: u8, with_sp: bool) -> Operand {
    if with_sp && option == 2 + sf % 2 {
        return shifted(0, amount);
    }
    let name = match option {
        0 => "uxtb",
        1 => "uxth",
        2 => "uxtw",
        3 => "uxtx",
        4 => "sxtb",
        5 => "sxth",
        6 => "sxtw",
        _ => "sxtx",
    };
    let amount = if amount == 0 { None } else { Some(amount) };
    Operand::Modified(Modifier { name, amount })
}

pub fn add_sub_ext(addition: AddSub, second: ExtendedRegister) -> TextLine {
    let AddSub { op, s, rn, rd } = addition;
    let ExtendedRegister {
        sf,
        rm,
        option,
        imm3,
    } = second;
    let (destination, first) = (general_or_sp(sf, rd), general_or_sp(sf, rn));
    let second = general(if option % 4 == 3 { sf } else { 0 }, rm);
    let extension = extension(sf, option, imm3, rn == LAST || rd == LAST && s == 0);
    match (op, s) {
        (0, 1) if rd == LAST => three("cmn", first, second, extension),
        (1, 1) if rd == LAST => three("cmp", first, second, extension),
        _ => four(
            add_sub_name(addition),
            destination,
            first,
            second,
            extension,
        ),
    }
}

/// Whether one MOVZ makes the value: at most one of its four halfwords is not 0.
fn is_one_halfword(value: u64) -> bool {
    value & !0xFFFF == 0
        || value & !0xFFFF_0000 == 0
        || value & !0xFFFF_0000_0000 == 0
        || value & !0xFFFF_0000_0000_0000 == 0
}

/// All ones of a register.
fn ones(sf: u8) -> u64 {
    if sf == 1 { u64::MAX } else { 0xFFFF_FFFF }
}

pub fn log_imm(logic: LogicalImmediate, n: u8, immr: u8, imms: u8) -> TextLine {
    let LogicalImmediate { sf, opc, rn, rd } = logic;
    let size = if sf == 1 { 64 } else { 32 };
    let mask = bit_masks(n % 2, imms % 64, immr % 64, size).unwrap_or(0);
    let by_move = is_one_halfword(mask) || is_one_halfword(mask ^ ones(sf));
    let (first, immediate) = (general(sf, rn), Operand::Hexadecimal(mask));
    match opc {
        0 => three("and", general_or_sp(sf, rd), first, immediate),
        // No other move of an immediate writes the stack pointer.
        1 if rn == LAST && (rd == LAST || !by_move) => two("mov", general_or_sp(sf, rd), immediate),
        1 => three("orr", general_or_sp(sf, rd), first, immediate),
        2 => three("eor", general_or_sp(sf, rd), first, immediate),
        _ if rd == LAST => two("tst", first, immediate),
        _ => three("ands", general(sf, rd), first, immediate),
    }
}

pub fn log_shift(logic: Logical, second: ShiftedRegister) -> TextLine {
    let Logical { opc, n, rn, rd } = logic;
    let ShiftedRegister {
        sf,
        shift,
        rm,
        imm6,
    } = second;
    let destination = general(sf, rd);
    let (first, second) = (general(sf, rn), general(sf, rm));
    let plain = shift == 0 && imm6 == 0;
    let shift = shifted(shift, imm6);
    let name = match (opc, n) {
        (1, 0) if rn == LAST && plain => return two("mov", destination, second),
        (1, 1) if rn == LAST => return three("mvn", destination, second, shift),
        (3, 0) if rd == LAST => return three("tst", first, second, shift),
        (0, 0) => "and",
        (0, _) => "bic",
        (1, 0) => "orr",
        (1, _) => "orn",
        (2, 0) => "eor",
        (2, _) => "eon",
        (_, 0) => "ands",
        _ => "bics",
    };
    four(name, destination, first, second, shift)
}

pub fn move_wide(sf: u8, opc: u8, hw: u8, imm16: u16, rd: u8) -> TextLine {
    let destination = general(sf, rd);
    let amount = 16 * (hw % 4);
    let value = u64::from(imm16) << amount;
    let is_first = imm16 != 0 || hw == 0;
    let name = match opc {
        0 if is_first && (sf == 1 || imm16 != 0xFFFF) => {
            return two("mov", destination, Operand::Hexadecimal(value ^ ones(sf)));
        }
        2 if is_first => return two("mov", destination, Operand::Hexadecimal(value)),
        0 => "movn",
        2 => "movz",
        _ => "movk",
    };
    three(
        name,
        destination,
        Operand::Hexadecimal(u64::from(imm16)),
        shifted(0, amount),
    )
}

/// The line of a field of `width` bits from bit `lsb` on.
fn field(name: &'static str, to: Operand, from: Operand, lsb: i64, width: i64) -> TextLine {
    four(
        name,
        to,
        from,
        Operand::Decimal(lsb),
        Operand::Decimal(width),
    )
}

fn signed_bitfield(sf: u8, immr: u8, imms: u8, rn: u8, rd: u8) -> TextLine {
    let (immr, imms) = (i64::from(immr), i64::from(imms));
    let (to, from, half) = (general(sf, rd), general(sf, rn), general(0, rn));
    let size = if sf == 1 { 64 } else { 32 };
    match imms {
        _ if imms == size - 1 => three("asr", to, from, Operand::Decimal(immr)),
        _ if imms < immr => field("sbfiz", to, from, size - immr, imms + 1),
        7 if immr == 0 => two("sxtb", to, half),
        15 if immr == 0 => two("sxth", to, half),
        31 if immr == 0 => two("sxtw", to, half),
        _ => field("sbfx", to, from, immr, imms - immr + 1),
    }
}

fn unsigned_bitfield(sf: u8, immr: u8, imms: u8, rn: u8, rd: u8) -> TextLine {
    let (immr, imms) = (i64::from(immr), i64::from(imms));
    let (to, from) = (general(sf, rd), general(sf, rn));
    let size = if sf == 1 { 64 } else { 32 };
    match imms {
        _ if imms == size - 1 => three("lsr", to, from, Operand::Decimal(immr)),
        _ if imms + 1 == immr => three("lsl", to, from, Operand::Decimal(size - immr)),
        _ if imms < immr => field("ubfiz", to, from, size - immr, imms + 1),
        7 if immr == 0 && sf == 0 => two("uxtb", to, from),
        15 if immr == 0 && sf == 0 => two("uxth", to, from),
        _ => field("ubfx", to, from, immr, imms - immr + 1),
    }
}

fn inserted_bitfield(sf: u8, immr: u8, imms: u8, rn: u8, rd: u8) -> TextLine {
    let (immr, imms) = (i64::from(immr), i64::from(imms));
    let (to, from) = (general(sf, rd), general(sf, rn));
    let size = if sf == 1 { 64 } else { 32 };
    if imms >= immr {
        return field("bfxil", to, from, immr, imms - immr + 1);
    }
    let (lsb, width) = (size - immr, imms + 1);
    if rn == LAST {
        return three("bfc", to, Operand::Decimal(lsb), Operand::Decimal(width));
    }
    field("bfi", to, from, lsb, width)
}

pub fn bitfield(sf: u8, opc: u8, immr: u8, imms: u8, rn: u8, rd: u8) -> TextLine {
    match opc {
        0 => signed_bitfield(sf, immr, imms, rn, rd),
        1 => inserted_bitfield(sf, immr, imms, rn, rd),
        _ => unsigned_bitfield(sf, immr, imms, rn, rd),
    }
}

pub fn extr(sf: u8, rm: u8, imms: u8, rn: u8, rd: u8) -> TextLine {
    let (destination, high, low) = (general(sf, rd), general(sf, rn), general(sf, rm));
    let lsb = Operand::Decimal(i64::from(imms));
    if rn == rm {
        three("ror", destination, high, lsb)
    } else {
        four("extr", destination, high, low, lsb)
    }
}

pub fn adc_sbc(sf: u8, op: u8, s: u8, rm: u8, rn: u8, rd: u8) -> TextLine {
    let (destination, first, second) = (general(sf, rd), general(sf, rn), general(sf, rm));
    let line = match op {
        0 => three("adc", destination, first, second),
        _ if rn == LAST => two("ngc", destination, second),
        _ => three("sbc", destination, first, second),
    };
    line.with_suffix(if s == 1 { "s" } else { "" })
}

/// The name of a condition by its code.
pub fn condition(code: u8) -> &'static str {
    match code {
        0 => "eq",
        1 => "ne",
        2 => "cs",
        3 => "cc",
        4 => "mi",
        5 => "pl",
        6 => "vs",
        7 => "vc",
        8 => "hi",
        9 => "ls",
        10 => "ge",
        11 => "lt",
        12 => "gt",
        13 => "le",
        14 => "al",
        _ => "nv",
    }
}

pub fn cond_cmp(operands: ComparedOperands, op: u8, cond: u8, nzcv: u8) -> TextLine {
    let ComparedOperands { sf, rm, i, rn } = operands;
    let second = match i {
        0 => general(sf, rm),
        _ => Operand::Hexadecimal(u64::from(rm)),
    };
    let flags = Operand::Hexadecimal(u64::from(nzcv));
    let name = if op == 0 { "ccmn" } else { "ccmp" };
    four(
        name,
        general(sf, rn),
        second,
        flags,
        Operand::Word(condition(cond)),
    )
}

pub fn cond_sel(operands: RegisterOperands, op: u8, cond: u8, o2: u8) -> TextLine {
    let RegisterOperands { sf, rm, rn, rd } = operands;
    let (destination, first, second) = (general(sf, rd), general(sf, rn), general(sf, rm));
    // The aliases write the other condition. AL and NV, which always hold, have none.
    let inverted = Operand::Word(condition(cond ^ 1));
    let same = rn == rm && cond < 14;
    let name = match (op, o2) {
        (0, 1) if same && rn == LAST => return two("cset", destination, inverted),
        (0, 1) if same => return three("cinc", destination, first, inverted),
        (1, 0) if same && rn == LAST => return two("csetm", destination, inverted),
        (1, 0) if same => return three("cinv", destination, first, inverted),
        (1, 1) if same => return three("cneg", destination, first, inverted),
        (0, 0) => "csel",
        (0, _) => "csinc",
        (_, 0) => "csinv",
        _ => "csneg",
    };
    four(
        name,
        destination,
        first,
        second,
        Operand::Word(condition(cond)),
    )
}

pub fn two_source(sf: u8, rm: u8, opcode: u8, rn: u8, rd: u8) -> TextLine {
    let name = match opcode {
        2 => "udiv",
        3 => "sdiv",
        8 => "lsl",
        9 => "lsr",
        10 => "asr",
        _ => "ror",
    };
    three(name, general(sf, rd), general(sf, rn), general(sf, rm))
}

pub fn one_source(sf: u8, opcode: u8, rn: u8, rd: u8) -> TextLine {
    let name = match opcode {
        0 => "rbit",
        1 => "rev16",
        2 if sf == 1 => "rev32",
        2 | 3 => "rev",
        4 => "clz",
        _ => "cls",
    };
    two(name, general(sf, rd), general(sf, rn))
}

pub fn mul_add(sf: u8, rm: u8, o0: u8, ra: u8, rn: u8, rd: u8) -> TextLine {
    let (destination, addend) = (general(sf, rd), general(sf, ra));
    let (first, second) = (general(sf, rn), general(sf, rm));
    match o0 {
        0 if ra == LAST => three("mul", destination, first, second),
        0 => four("madd", destination, first, second, addend),
        _ if ra == LAST => three("mneg", destination, first, second),
        _ => four("msub", destination, first, second, addend),
    }
}

pub fn mul_add_long(u: u8, rm: u8, o0: u8, ra: u8, rn: u8, rd: u8) -> TextLine {
    let (destination, addend) = (general(1, rd), general(1, ra));
    let (first, second) = (general(0, rn), general(0, rm));
    if ra == LAST {
        let name = match (u, o0) {
            (0, 0) => "smull",
            (0, _) => "smnegl",
            (_, 0) => "umull",
            _ => "umnegl",
        };
        return three(name, destination, first, second);
    }
    let name = match (u, o0) {
        (0, 0) => "smaddl",
        (0, _) => "smsubl",
        (_, 0) => "umaddl",
        _ => "umsubl",
    };
    four(name, destination, first, second, addend)
}

pub fn mul_high(u: u8, rm: u8, rn: u8, rd: u8) -> TextLine {
    let name = if u == 0 { "smulh" } else { "umulh" };
    three(name, general(1, rd), general(1, rn), general(1, rm))
}
