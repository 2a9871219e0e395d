//! What an instruction compares.

ghost use Rattle.std.specs.Prelude.{◌≡◌, ◌==◌, ◌<◌, Some, position};
ghost use Rattle.a64_asm.specs.Encoding.{IsAllowed};
ghost use Rattle.a64_decode.specs.Decoded.{instr_of_word};
ghost use Rattle.tenant_snapshot.specs.Comparisons.{by_flags, call_of, comparison, comparison_of};
ghost use Rattle.tenant_snapshot.specs.Comparisons.{is_result, logic_kind, logic_of};
ghost use Rattle.tenant_snapshot.specs.Comparisons.{operation_before, operation_of, sum_kind};
ghost use Rattle.tenant_snapshot.specs.Comparisons.{sum_of, with_zero};

use crate::comparison_kinds::{
    COMPARED_ADDS, COMPARED_ANDS, COMPARED_CALL, COMPARED_CBZ, COMPARED_CCMN, COMPARED_CCMP,
    COMPARED_EOR_CBZ, COMPARED_SUB_CBZ, COMPARED_SUBS, COMPARED_TBZ, NOT_COMPARED,
};
use a64_bits::{bit_masks, shift_left};
use a64_decode::Decoder;
use a64_instr::Instr;
use a64_registers::Regs;
use a64_registers::conditions::condition_holds;
use a64_registers::operands::{extend, size_of_operands, truncate};
use a64_step::addressing::moved_by;
use a64_step::logical::shift_operand;

/// What an instruction compared, or what a function that compares texts was called with.
#[repr(C)]
#[derive(Clone, Copy)]
pub struct ComparisonEntry {
    /// The number of the instruction among those that the run attempted, from 1.
    pub step: u64,
    /// The address of the instruction.
    pub pc: u64,
    /// The first operand; of a call the first argument.
    pub left: u64,
    /// The second operand; of a call the second argument.
    pub right: u64,
    /// Of a call the third argument; else 0.
    pub length: u64,
    /// COMPARED_SUBS to COMPARED_CALL; 0 where nothing is entered.
    pub kind: u32,
    /// The bytes of an operand, 4 or 8; of a call the place of the function among those that were
    /// lent.
    pub width: u32,
}

/// An addition, a subtraction or an operation on bits, with its operands.
#[derive(Clone, Copy)]
pub(crate) struct ComparedOperation {
    /// What it compares by itself (SUBS, ADDS, ANDS), or with a CBZ of its result.
    kind: u32,
    /// 0 has 32 bits, 1 has 64.
    sf: u8,
    left: u64,
    right: u64,
    /// The register of the second operand; 31 where it has none.
    rm: u8,
    /// The register of the result.
    rd: u8,
}

/// A comparison of two operands.
#[inline(always)]
fn compare(kind: u32, sf: u8, left: u64, right: u64) -> ComparisonEntry
    ensures { result ≡ comparison kind sf left right }
{
    ComparisonEntry {
        step: 0,
        pc: 0,
        left,
        right,
        length: 0,
        kind,
        width: size_of_operands(sf) / 8,
    }
}

/// What ADD, ADDS, SUB and SUBS compare by themselves, or with a CBZ of their result.
#[inline(always)]
fn kind_of_sum(op: u8, s: u8) -> u32
    ensures { result ≡ sum_kind op s }
{
    match (s, op) {
        (1, 1) => COMPARED_SUBS,
        (1, _) => COMPARED_ADDS,
        (_, 1) => COMPARED_SUB_CBZ,
        _ => NOT_COMPARED,
    }
}

/// What AND, ORR, EOR and ANDS compare so.
#[inline(always)]
fn kind_of_logic(opc: u8) -> u32
    ensures { result ≡ logic_kind opc }
{
    match opc {
        2 => COMPARED_EOR_CBZ,
        3 => COMPARED_ANDS,
        _ => NOT_COMPARED,
    }
}

/// The operands of an addition or a subtraction; `None` of another instruction.
#[rattlefmt::skip]
#[inline(always)]
fn sum(instr: &Instr, regs: &Regs) -> Option<ComparedOperation>
    requires { IsAllowed instr.now }
    ensures { result ≡ sum_of regs.now instr.now }
{
    match *instr {
        Instr::AddSubImm { sf, op, s, sh, imm12, rn, rd } => Some(ComparedOperation {
            kind: kind_of_sum(op, s),
            sf,
            left: truncate(sf, regs.get_or_sp(rn)),
            right: if sh == 1 { u64::from(imm12) * 4096 } else { u64::from(imm12) },
            rm: 31,
            rd,
        }),
        Instr::AddSubShift { sf, op, s, shift, rm, imm6, rn, rd } => Some(ComparedOperation {
            kind: kind_of_sum(op, s),
            sf,
            left: truncate(sf, regs.get(rn)),
            right: shift_operand(sf, shift, 0, imm6, regs.get(rm)),
            rm,
            rd,
        }),
        Instr::AddSubExt { sf, op, s, rm, option, imm3, rn, rd } => Some(ComparedOperation {
            kind: kind_of_sum(op, s),
            sf,
            left: truncate(sf, regs.get_or_sp(rn)),
            right: truncate(sf, shift_left(extend(option, regs.get(rm)), u32::from(imm3), 64)),
            rm,
            rd,
        }),
        _ => None,
    }
}

/// The operands of an operation on bits; `None` of another instruction.
#[rattlefmt::skip]
#[inline(always)]
fn logic(instr: &Instr, regs: &Regs) -> Option<ComparedOperation>
    requires { IsAllowed instr.now }
    ensures { result ≡ logic_of regs.now instr.now }
{
    match *instr {
        Instr::LogImm { sf, opc, n, immr, imms, rn, rd } => Some(ComparedOperation {
            kind: kind_of_logic(opc),
            sf,
            left: truncate(sf, regs.get(rn)),
            right: bit_masks(n, imms, immr, size_of_operands(sf)).unwrap_or(0),
            rm: 31,
            rd,
        }),
        Instr::LogShift { sf, opc, shift, n, rm, imm6, rn, rd } => Some(ComparedOperation {
            kind: kind_of_logic(opc),
            sf,
            left: truncate(sf, regs.get(rn)),
            right: shift_operand(sf, shift, n, imm6, regs.get(rm)),
            rm,
            rd,
        }),
        _ => None,
    }
}

/// The operands of either.
#[inline(always)]
fn find_operation(instr: &Instr, regs: &Regs) -> Option<ComparedOperation>
    requires { IsAllowed instr.now }
    ensures { result ≡ operation_of regs.now instr.now }
{
    match sum(instr, regs) {
        Some(found) => Some(found),
        None => logic(instr, regs),
    }
}

impl ComparedOperation {
    /// What it compares by itself, if it sets the flags.
    #[inline(always)]
    fn by_flags(&self) -> Option<ComparisonEntry>
        ensures { result ≡ by_flags (Some self.now) }
    {
        match self.kind {
            COMPARED_SUBS | COMPARED_ADDS | COMPARED_ANDS => Some(compare(
                self.kind, self.sf, self.left, self.right,
            )),
            _ => None,
        }
    }

    /// Whether the value of a register is that of a subtraction, or of an exclusive OR, right
    /// before, whose second operand is still in its register.
    #[inline(always)]
    fn gave(&self, sf: u8, rt: u8) -> bool
        ensures { result ≡ is_result self.now sf rt }
    {
        let is_difference = self.kind == COMPARED_SUB_CBZ || self.kind == COMPARED_EOR_CBZ;
        is_difference && self.sf == sf && self.rd == rt && self.rm != rt && rt != 31
    }
}

/// What CBZ and CBNZ at an address compare, where a word was attempted right before.
#[inline(always)]
fn compare_with_zero(
    decoder: &mut Decoder,
    before: u32,
    regs: &Regs,
    pc: u64,
    sf: u8,
    rt: u8,
) -> ComparisonEntry
    requires { rt < 32 }
    ensures { result ≡ with_zero (operation_before regs.now (instr_of_word before)) regs.now sf rt }
{
    let value = truncate(sf, regs.get(rt));
    let found = match decoder.decode(pc.wrapping_sub(4), before) {
        Some(instr) => find_operation(instr, regs),
        None => None,
    };
    match found {
        Some(it) if it.gave(sf, rt) => {
            let left = if it.kind == COMPARED_SUB_CBZ {
                truncate(sf, value.wrapping_add(it.right))
            } else {
                value ^ it.right
            };
            compare(it.kind, sf, left, it.right)
        }
        _ => compare(COMPARED_CBZ, sf, value, 0),
    }
}

/// The place of an address among those of functions.
#[inline(always)]
fn find_function(functions: &[u64], target: u64) -> Option<usize>
    ensures { result ≡ position (λ f. f == target) functions.now }
{
    functions.iter().position(|function| *function == target)
}

/// The call of one of some functions.
#[inline(always)]
fn call(functions: &[u64], regs: &Regs, target: u64) -> Option<ComparisonEntry>
    ensures { result ≡ call_of functions.now regs.now target }
{
    let place = find_function(functions, target % (1 << 56))?;
    Some(ComparisonEntry {
        step: 0,
        pc: 0,
        left: regs.x[0],
        right: regs.x[1],
        length: regs.x[2],
        kind: COMPARED_CALL,
        width: u32::try_from(place).unwrap_or(u32::MAX),
    })
}

/// What an instruction at an address compares, where a word was attempted right before it. The
/// registers have the values before it, but for the program counter. `step` and `pc` are 0.
#[rattlefmt::skip]
#[inline(always)]
pub(crate) fn compared(
    functions: &[u64],
    decoder: &mut Decoder,
    before: u32,
    regs: &Regs,
    pc: u64,
    instr: &Instr,
) -> Option<ComparisonEntry>
    requires { IsAllowed instr.now }
    ensures { result ≡ comparison_of functions.now before regs.now pc instr.now }
{
    match *instr {
        Instr::CondCmp { sf, op, rm, cond, i, rn, .. } => {
            if !condition_holds(regs.flags, cond) {
                return None;
            }
            let right = if i == 1 { u64::from(rm) } else { truncate(sf, regs.get(rm)) };
            let kind = if op == 1 { COMPARED_CCMP } else { COMPARED_CCMN };
            Some(compare(kind, sf, truncate(sf, regs.get(rn)), right))
        }
        Instr::CmpBranch { sf, rt, .. } => Some(compare_with_zero(decoder, before, regs, pc, sf, rt)),
        Instr::TestBranch { b5, b40, rt, .. } => {
            let bit = 1 << (32 * u32::from(b5) + u32::from(b40));
            Some(compare(COMPARED_TBZ, 1, regs.get(rt), bit))
        }
        Instr::Branch { imm26, .. } => call(functions, regs, moved_by(pc, 4, i64::from(imm26))),
        Instr::BranchReg { opc: 2, .. } => None,
        Instr::BranchReg { rn, .. } => call(functions, regs, regs.get(rn)),
        _ => find_operation(instr, regs)?.by_flags(),
    }
}
