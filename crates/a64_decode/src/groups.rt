// Written by tools/isa.py from isa/a64.rows. Do not edit.
//! The row of a word, by the encoding groups of the Arm ARM (DDI 0487, C4.1): bits 28 to 24 select
//! the group, and other fixed bits the row.

ghost use Rattle.std.specs.Prelude.{◌≡◌, IfSome};
ghost use Rattle.a64_bits.specs.Fields.{field_of};
ghost use Rattle.a64_asm.specs.Encoding.{word_of};
ghost use Rattle.a64_decode.specs.Decoded.{Reads};
ghost use Rattle.a64_decode.specs.Groups;

use crate::rows::*;
use a64_asm::Instr;
use a64_bits::field;

/// Writes the instruction of `word`, whose row and fields are found by its fixed bits. All rows
/// write to one place, so that their fields are not merged where the rows meet.
#[inline(never)]
#[tactic(auto, unfolding(crate::specs::Groups::row_of))]
pub fn read(word: u32, found: &mut Option<Instr>)
    ensures row { Reads found.new (Groups.row_of word) }
    ensures same { IfSome found.new (λ i. word_of i ≡ word) }
{
    match field(word, 24, 5) {
        8..=9 => load_store_pair(word, found),
        10 => logical_shifted_register(word, found),
        11 => add_sub_register(word, found),
        16 => pc_rel_addressing(word, found),
        17 => add_sub_immediate(word, found),
        18 => logical_and_move_wide(word, found),
        19 => bitfield_and_extract(word, found),
        20..=23 => branches_exceptions_system(word, found),
        24 => load_store_register(word, found),
        25 => load_store_unsigned_immediate(word, found),
        26 => data_processing_register(word, found),
        27 => data_processing_3_source(word, found),
        _ => *found = None,
    }
}

/// Load/store register pair (post-indexed, offset and pre-indexed).
#[rattlefmt::skip]
#[tactic(auto, unfolding(crate::specs::Groups::load_store_pair_of))]
fn load_store_pair(word: u32, found: &mut Option<Instr>)
    requires bits_25_4 { field_of 25 4 word ≡ 4 }
    ensures row { Reads found.new (Groups.load_store_pair_of word) }
    ensures same { IfSome found.new (λ i. word_of i ≡ word) }
{
    if field(word, 29, 1) == 0 {
        *found = None
    } else if field(word, 30, 2) == 1 && field(word, 22, 1) == 0 {
        *found = st_g_p(word)
    } else if field(word, 23, 2) == 1 {
        *found = pair_post(word)
    } else if field(word, 23, 2) == 2 {
        *found = pair_off(word)
    } else if field(word, 23, 2) == 3 {
        *found = pair_pre(word)
    } else {
        *found = None
    }
}

/// Logical (shifted register).
#[rattlefmt::skip]
#[tactic(auto, unfolding(crate::specs::Groups::logical_shifted_register_of))]
fn logical_shifted_register(word: u32, found: &mut Option<Instr>)
    requires bits_24_5 { field_of 24 5 word ≡ 10 }
    ensures row { Reads found.new (Groups.logical_shifted_register_of word) }
    ensures same { IfSome found.new (λ i. word_of i ≡ word) }
{
    *found = log_shift(word)
}

/// Add/subtract (shifted register and extended register).
#[rattlefmt::skip]
#[tactic(auto, unfolding(crate::specs::Groups::add_sub_register_of))]
fn add_sub_register(word: u32, found: &mut Option<Instr>)
    requires bits_24_5 { field_of 24 5 word ≡ 11 }
    ensures row { Reads found.new (Groups.add_sub_register_of word) }
    ensures same { IfSome found.new (λ i. word_of i ≡ word) }
{
    if field(word, 21, 1) == 0 {
        *found = add_sub_shift(word)
    } else if field(word, 22, 2) == 0 {
        *found = add_sub_ext(word)
    } else {
        *found = None
    }
}

/// PC-rel. addressing.
#[rattlefmt::skip]
#[tactic(auto, unfolding(crate::specs::Groups::pc_rel_addressing_of))]
fn pc_rel_addressing(word: u32, found: &mut Option<Instr>)
    requires bits_24_5 { field_of 24 5 word ≡ 16 }
    ensures row { Reads found.new (Groups.pc_rel_addressing_of word) }
    ensures same { IfSome found.new (λ i. word_of i ≡ word) }
{
    *found = adr(word)
}

/// Add/subtract (immediate, and immediate with tags).
#[rattlefmt::skip]
#[tactic(auto, unfolding(crate::specs::Groups::add_sub_immediate_of))]
fn add_sub_immediate(word: u32, found: &mut Option<Instr>)
    requires bits_24_5 { field_of 24 5 word ≡ 17 }
    ensures row { Reads found.new (Groups.add_sub_immediate_of word) }
    ensures same { IfSome found.new (λ i. word_of i ≡ word) }
{
    if field(word, 23, 1) == 0 {
        *found = add_sub_imm(word)
    } else if field(word, 31, 1) == 1 && field(word, 29, 1) == 0 && field(word, 22, 1) == 0 && field(word, 14, 2) == 0 {
        *found = add_g(word)
    } else {
        *found = None
    }
}

/// Logical (immediate), and move wide (immediate).
#[rattlefmt::skip]
#[tactic(auto, unfolding(crate::specs::Groups::logical_and_move_wide_of))]
fn logical_and_move_wide(word: u32, found: &mut Option<Instr>)
    requires bits_24_5 { field_of 24 5 word ≡ 18 }
    ensures row { Reads found.new (Groups.logical_and_move_wide_of word) }
    ensures same { IfSome found.new (λ i. word_of i ≡ word) }
{
    if field(word, 23, 1) == 0 {
        *found = log_imm(word)
    } else {
        *found = move_wide(word)
    }
}

/// Bitfield, and extract.
#[rattlefmt::skip]
#[tactic(auto, unfolding(crate::specs::Groups::bitfield_and_extract_of))]
fn bitfield_and_extract(word: u32, found: &mut Option<Instr>)
    requires bits_24_5 { field_of 24 5 word ≡ 19 }
    ensures row { Reads found.new (Groups.bitfield_and_extract_of word) }
    ensures same { IfSome found.new (λ i. word_of i ≡ word) }
{
    if field(word, 23, 1) == 0 {
        *found = bitfield(word)
    } else if field(word, 29, 2) == 0 && field(word, 21, 1) == 0 {
        *found = extr(word)
    } else {
        *found = None
    }
}

/// Branches, exception generating and system instructions.
#[rattlefmt::skip]
#[tactic(auto, unfolding(crate::specs::Groups::branches_exceptions_system_of))]
fn branches_exceptions_system(word: u32, found: &mut Option<Instr>)
    requires bits_26_3 { field_of 26 3 word ≡ 5 }
    ensures row { Reads found.new (Groups.branches_exceptions_system_of word) }
    ensures same { IfSome found.new (λ i. word_of i ≡ word) }
{
    if field(word, 30, 1) == 0 {
        branch_immediate(word, found)
    } else if field(word, 29, 1) == 1 {
        *found = None
    } else if field(word, 31, 1) == 1 {
        exceptions_and_system(word, found)
    } else if field(word, 24, 2) == 0 && field(word, 4, 1) == 0 {
        *found = branch_cond(word)
    } else {
        *found = None
    }
}

/// Unconditional, compare and test branch (immediate).
#[rattlefmt::skip]
#[tactic(auto, unfolding(crate::specs::Groups::branch_immediate_of))]
fn branch_immediate(word: u32, found: &mut Option<Instr>)
    requires bits_26_3 { field_of 26 3 word ≡ 5 }
    requires bits_30_1 { field_of 30 1 word ≡ 0 }
    ensures row { Reads found.new (Groups.branch_immediate_of word) }
    ensures same { IfSome found.new (λ i. word_of i ≡ word) }
{
    if field(word, 29, 1) == 0 {
        *found = branch(word)
    } else if field(word, 25, 1) == 0 {
        *found = cmp_branch(word)
    } else {
        *found = test_branch(word)
    }
}

/// Exception generation, hints, and unconditional branch (register).
#[rattlefmt::skip]
#[tactic(auto, unfolding(crate::specs::Groups::exceptions_and_system_of))]
fn exceptions_and_system(word: u32, found: &mut Option<Instr>)
    requires bits_26_3 { field_of 26 3 word ≡ 5 }
    requires bits_30_1 { field_of 30 1 word ≡ 1 }
    requires bits_29_1 { field_of 29 1 word ≡ 0 }
    requires bits_31_1 { field_of 31 1 word ≡ 1 }
    ensures row { Reads found.new (Groups.exceptions_and_system_of word) }
    ensures same { IfSome found.new (λ i. word_of i ≡ word) }
{
    match field(word, 24, 2) {
        0 if word == 0xD400_0001 => *found = Some(Instr::Svc),
        0 if field(word, 21, 3) == 1 && field(word, 0, 5) == 0 => *found = brk(word),
        1 if field(word, 12, 12) == 0x032 && field(word, 0, 5) == 31 => *found = hint(word),
        2 if field(word, 23, 1) == 0 && field(word, 10, 11) == 0x7C0 && field(word, 0, 5) == 0 =>
            *found = branch_reg(word),
        _ => *found = None,
    }
}

/// Load register (literal), and load/store register but for an unsigned immediate.
#[rattlefmt::skip]
#[tactic(auto, unfolding(crate::specs::Groups::load_store_register_of))]
fn load_store_register(word: u32, found: &mut Option<Instr>)
    requires bits_24_5 { field_of 24 5 word ≡ 24 }
    ensures row { Reads found.new (Groups.load_store_register_of word) }
    ensures same { IfSome found.new (λ i. word_of i ≡ word) }
{
    if field(word, 29, 1) == 0 {
        *found = ld_lit(word)
    } else if field(word, 21, 1) == 0 {
        load_store_signed_offset(word, found)
    } else if field(word, 10, 2) == 2 {
        *found = ld_st_reg(word)
    } else {
        *found = None
    }
}

/// Load/store register (unscaled immediate, immediate post-indexed and pre-indexed).
#[rattlefmt::skip]
#[tactic(auto, unfolding(crate::specs::Groups::load_store_signed_offset_of))]
fn load_store_signed_offset(word: u32, found: &mut Option<Instr>)
    requires bits_24_5 { field_of 24 5 word ≡ 24 }
    requires bits_29_1 { field_of 29 1 word ≡ 1 }
    requires bits_21_1 { field_of 21 1 word ≡ 0 }
    ensures row { Reads found.new (Groups.load_store_signed_offset_of word) }
    ensures same { IfSome found.new (λ i. word_of i ≡ word) }
{
    match field(word, 10, 2) {
        0 => *found = ld_st_unscaled(word),
        1 => *found = ld_st_post(word),
        3 => *found = ld_st_pre(word),
        _ => *found = None,
    }
}

/// Load/store register (unsigned immediate), and load/store memory tags.
#[rattlefmt::skip]
#[tactic(auto, unfolding(crate::specs::Groups::load_store_unsigned_immediate_of))]
fn load_store_unsigned_immediate(word: u32, found: &mut Option<Instr>)
    requires bits_24_5 { field_of 24 5 word ≡ 25 }
    ensures row { Reads found.new (Groups.load_store_unsigned_immediate_of word) }
    ensures same { IfSome found.new (λ i. word_of i ≡ word) }
{
    if field(word, 29, 1) == 1 {
        *found = ld_st_imm(word)
    } else if field(word, 30, 2) == 3 && field(word, 21, 1) == 1 {
        load_store_memory_tags(word, found)
    } else {
        *found = None
    }
}

/// Load/store memory tags.
#[rattlefmt::skip]
#[tactic(auto, unfolding(crate::specs::Groups::load_store_memory_tags_of))]
fn load_store_memory_tags(word: u32, found: &mut Option<Instr>)
    requires bits_24_5 { field_of 24 5 word ≡ 25 }
    requires bits_29_1 { field_of 29 1 word ≡ 0 }
    requires bits_30_2 { field_of 30 2 word ≡ 3 }
    requires bits_21_1 { field_of 21 1 word ≡ 1 }
    ensures row { Reads found.new (Groups.load_store_memory_tags_of word) }
    ensures same { IfSome found.new (λ i. word_of i ≡ word) }
{
    match field(word, 10, 2) {
        0 if field(word, 22, 2) == 1 => *found = ldg(word),
        _ => *found = st_g(word),
    }
}

/// Data processing (register): with carry, conditional, and 1 or 2 sources.
#[rattlefmt::skip]
#[tactic(auto, unfolding(crate::specs::Groups::data_processing_register_of))]
fn data_processing_register(word: u32, found: &mut Option<Instr>)
    requires bits_24_5 { field_of 24 5 word ≡ 26 }
    ensures row { Reads found.new (Groups.data_processing_register_of word) }
    ensures same { IfSome found.new (λ i. word_of i ≡ word) }
{
    match field(word, 21, 3) {
        0 if field(word, 10, 6) == 0 => *found = adc_sbc(word),
        2 if field(word, 29, 1) == 1 && field(word, 10, 1) == 0 && field(word, 4, 1) == 0 =>
            *found = cond_cmp(word),
        4 if field(word, 29, 1) == 0 && field(word, 11, 1) == 0 => *found = cond_sel(word),
        6 => data_processing_1_2_source(word, found),
        _ => *found = None,
    }
}

/// Data-processing (1 source and 2 source).
#[rattlefmt::skip]
#[tactic(auto, unfolding(crate::specs::Groups::data_processing_1_2_source_of))]
fn data_processing_1_2_source(word: u32, found: &mut Option<Instr>)
    requires bits_24_5 { field_of 24 5 word ≡ 26 }
    requires bits_21_3 { field_of 21 3 word ≡ 6 }
    ensures row { Reads found.new (Groups.data_processing_1_2_source_of word) }
    ensures same { IfSome found.new (λ i. word_of i ≡ word) }
{
    if field(word, 30, 1) == 1 {
        data_processing_1_source(word, found)
    } else if field(word, 10, 6) == 0 && field(word, 31, 1) == 1 {
        *found = sub_p(word)
    } else if field(word, 29, 1) == 0 {
        data_processing_2_source(word, found)
    } else {
        *found = None
    }
}

/// Data-processing (1 source).
#[rattlefmt::skip]
#[tactic(auto, unfolding(crate::specs::Groups::data_processing_1_source_of))]
fn data_processing_1_source(word: u32, found: &mut Option<Instr>)
    requires bits_24_5 { field_of 24 5 word ≡ 26 }
    requires bits_21_3 { field_of 21 3 word ≡ 6 }
    requires bits_30_1 { field_of 30 1 word ≡ 1 }
    ensures row { Reads found.new (Groups.data_processing_1_source_of word) }
    ensures same { IfSome found.new (λ i. word_of i ≡ word) }
{
    if field(word, 29, 1) == 0 && field(word, 16, 5) == 0 {
        *found = one_source(word)
    } else {
        *found = None
    }
}

/// Data-processing (2 source).
#[rattlefmt::skip]
#[tactic(auto, unfolding(crate::specs::Groups::data_processing_2_source_of))]
fn data_processing_2_source(word: u32, found: &mut Option<Instr>)
    requires bits_24_5 { field_of 24 5 word ≡ 26 }
    requires bits_21_3 { field_of 21 3 word ≡ 6 }
    requires bits_30_1 { field_of 30 1 word ≡ 0 }
    requires bits_29_1 { field_of 29 1 word ≡ 0 }
    ensures row { Reads found.new (Groups.data_processing_2_source_of word) }
    ensures same { IfSome found.new (λ i. word_of i ≡ word) }
{
    match field(word, 10, 6) {
        4 if field(word, 31, 1) == 1 => *found = irg(word),
        5 if field(word, 31, 1) == 1 => *found = gmi(word),
        _ => *found = two_source(word),
    }
}

/// Data-processing (3 source).
#[rattlefmt::skip]
#[tactic(auto, unfolding(crate::specs::Groups::data_processing_3_source_of))]
fn data_processing_3_source(word: u32, found: &mut Option<Instr>)
    requires bits_24_5 { field_of 24 5 word ≡ 27 }
    ensures row { Reads found.new (Groups.data_processing_3_source_of word) }
    ensures same { IfSome found.new (λ i. word_of i ≡ word) }
{
    match field(word, 21, 2) {
        0 if field(word, 29, 2) == 0 && field(word, 23, 1) == 0 => *found = mul_add(word),
        1 if field(word, 29, 3) == 4 => *found = mul_add_long(word),
        2 if field(word, 29, 3) == 4 && field(word, 15, 1) == 0 && field(word, 10, 5) == 31 =>
            *found = mul_high(word),
        _ => *found = None,
    }
}
