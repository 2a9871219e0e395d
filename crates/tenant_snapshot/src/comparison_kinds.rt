//! The kinds of comparisons, by their numbers.

ghost use Rattle.std.specs.Prelude.{◌≡◌};

/// Nothing is compared.
pub const NOT_COMPARED: u32 = 0;
/// SUBS compares both operands.
pub const COMPARED_SUBS: u32 = 1;
/// ADDS compares the first operand with the second one's negative.
pub const COMPARED_ADDS: u32 = 2;
/// ANDS tests the bits of the first operand that the second one has.
pub const COMPARED_ANDS: u32 = 3;
/// CCMP compares as SUBS does, where its condition holds.
pub const COMPARED_CCMP: u32 = 4;
/// CCMN compares as ADDS does, where its condition holds.
pub const COMPARED_CCMN: u32 = 5;
/// CBZ or CBNZ compares a register with 0.
pub const COMPARED_CBZ: u32 = 6;
/// TBZ or TBNZ tests the bit of the first operand that the second one has.
pub const COMPARED_TBZ: u32 = 7;
/// SUB, and CBZ or CBNZ of its result right after it, compare the operands of SUB.
pub const COMPARED_SUB_CBZ: u32 = 8;
/// EOR or EON, and CBZ or CBNZ of its result right after it, compare its operands.
pub const COMPARED_EOR_CBZ: u32 = 9;
/// A function that compares texts is called, or jumped to.
pub const COMPARED_CALL: u32 = 10;

/// The kinds in digits, as `tombolopan.h` has them.
pub fn comparisons_in_digits()
    ensures none { NOT_COMPARED ≡ 0 }
    ensures subs { COMPARED_SUBS ≡ 1 }
    ensures adds { COMPARED_ADDS ≡ 2 }
    ensures ands { COMPARED_ANDS ≡ 3 }
    ensures ccmp { COMPARED_CCMP ≡ 4 }
    ensures ccmn { COMPARED_CCMN ≡ 5 }
    ensures cbz { COMPARED_CBZ ≡ 6 }
    ensures tbz { COMPARED_TBZ ≡ 7 }
    ensures sub_cbz { COMPARED_SUB_CBZ ≡ 8 }
    ensures eor_cbz { COMPARED_EOR_CBZ ≡ 9 }
    ensures call { COMPARED_CALL ≡ 10 }
{}
