//! The access to memory that an instruction makes.

ghost use Rattle.std.specs.Prelude.{◌≡◌, ◌*◌, ◌≤◌, ◌∷◌, []};
ghost use Rattle.a64_instr.specs.Fields.{AreRegisters};
ghost use Rattle.a64_asm.specs.Encoding.{IsAllowed};
ghost use Rattle.a64_step.specs.LoadStorePair.{pair_unit};
ghost use Rattle.a64_step.specs.MemoryTagging.{granule_count, tag_target};
ghost use Rattle.tombolopan.specs.InstructionAccesses;
ghost use Rattle.tombolopan.specs.InstructionAccesses.{accessed, both_of, byte_kind};
ghost use Rattle.tombolopan.specs.InstructionAccesses.{literal_access};
ghost use Rattle.tombolopan.specs.InstructionAccesses.{pair_access, single_access, tag_access};
ghost use Rattle.tombolopan.specs.InstructionAccesses.{tagged_pair_access};

use crate::kinds::{ACCESS_READ, ACCESS_READ_TAG, ACCESS_WRITE, ACCESS_WRITE_TAG};
use a64_instr::Instr;
use a64_instr::fields::RegisterOffset;
use a64_registers::Regs;
use a64_registers::operands::byte_count;
use a64_step::addressing::{Target, moved_by};
use mte_tags::tag_of;

/// An access to memory: what it does, where, to how much, and by which registers.
#[derive(Clone, Copy)]
pub struct InstructionAccess {
    /// A sum of ACCESS_READ to ACCESS_WRITE_TAG.
    pub kind: u32,
    /// The address, its tag in bits 59 to 56; of tags alone the first granule's.
    pub addr: u64,
    /// How many bytes: 1 to 16; of the tags of one granule 16, of two 32.
    pub size: u32,
    /// The value that is stored: the bytes, the lowest first, or of tags alone the tag; 0 of a
    /// load.
    pub value: [u64; 2],
    /// The register that is loaded or stored.
    pub first: u8,
    /// The other one of a pair.
    pub second: Option<u8>,
}

impl InstructionAccess {
    /// Of one register of 2^size bytes.
    #[inline(always)]
    fn single(regs: &Regs, size: u8, opc: u8, rt: u8, target: Target) -> InstructionAccess
        requires { AreRegisters (rt ∷ []) }
        ensures { result ≡ single_access regs.now size opc rt target }
    {
        let bytes = byte_count(size);
        let stored = [low_bytes(bytes, regs.get(rt)), 0];
        InstructionAccess {
            kind: kind_of(opc),
            addr: target.address,
            size: bytes as u32,
            value: if opc == 0 { stored } else { [0, 0] },
            first: rt,
            second: None,
        }
    }

    /// Of a literal.
    #[inline(always)]
    fn literal(regs: &Regs, opc: u8, imm19: i32, rt: u8) -> InstructionAccess
        ensures { result ≡ literal_access regs.now opc imm19 rt }
    {
        InstructionAccess {
            kind: ACCESS_READ,
            addr: moved_by(regs.pc, 4, i64::from(imm19)),
            size: if opc == 1 { 8 } else { 4 },
            value: [0, 0],
            first: rt,
            second: None,
        }
    }

    /// Of two registers.
    #[inline(always)]
    fn pair(regs: &Regs, opc: u8, l: u8, rt2: u8, rt: u8, target: Target) -> InstructionAccess
        requires { AreRegisters (rt2 ∷ rt ∷ []) }
        ensures { result ≡ pair_access regs.now opc l rt2 rt target }
    {
        let unit = unit_of(opc);
        let first = low_bytes(unit, regs.get(rt));
        let second = low_bytes(unit, regs.get(rt2));
        InstructionAccess {
            kind: kind_of(l),
            addr: target.address,
            size: 2 * unit as u32,
            value: if l == 0 {
                both(unit, first, second)
            } else {
                [0, 0]
            },
            first: rt,
            second: Some(rt2),
        }
    }

    /// Of a tag and two registers.
    #[inline(always)]
    fn tagged_pair(regs: &Regs, rt2: u8, rt: u8, target: Target) -> InstructionAccess
        requires { AreRegisters (rt2 ∷ rt ∷ []) }
        ensures { result ≡ tagged_pair_access regs.now rt2 rt target }
    {
        InstructionAccess {
            kind: ACCESS_WRITE | ACCESS_WRITE_TAG,
            addr: target.address,
            size: 16,
            value: [regs.get(rt), regs.get(rt2)],
            first: rt,
            second: Some(rt2),
        }
    }

    /// Of the tags of the granules of some bytes, from the one of an address on.
    #[inline(always)]
    fn tags(kind: u32, size: u32, address: u64, tag: u8, rt: u8) -> InstructionAccess
        ensures { result ≡ tag_access kind size address tag rt }
    {
        InstructionAccess {
            kind,
            addr: address - address % 16,
            size,
            value: [u64::from(tag), 0],
            first: rt,
            second: None,
        }
    }
}

/// The number in the low bytes of a register.
#[inline(always)]
pub(crate) fn low_bytes(size: u64, value: u64) -> u64
    ensures { result ≡ InstructionAccesses.low_bytes size value }
{
    if size < 8 {
        value % (1 << (8 * size))
    } else {
        value
    }
}

/// Two numbers of eight bytes, or of four, as two of eight.
#[inline(always)]
pub(crate) fn both(unit: u64, first: u64, second: u64) -> [u64; 2]
    ensures { result ≡ both_of unit first second }
{
    if unit == 8 {
        [first, second]
    } else {
        [first % (1 << 32) + (1 << 32) * (second % (1 << 32)), 0]
    }
}

/// The effect on bytes of an instruction with STORE or a load in this field.
#[inline(always)]
fn kind_of(op: u8) -> u32
    ensures { result ≡ byte_kind op }
{
    if op == 0 { ACCESS_WRITE } else { ACCESS_READ }
}

/// How many bytes each of two registers has in memory.
#[inline(always)]
#[tactic(auto, unfolding(a64_step::specs::LoadStorePair::pair_unit))]
fn unit_of(opc: u8) -> u64
    ensures value { result ≡ pair_unit opc }
    ensures most { result ≤ 8 }
{
    if opc == 2 { 8 } else { 4 }
}

/// How many bytes the granules have whose tags are stored.
#[inline(always)]
#[tactic(auto, unfolding(a64_step::specs::MemoryTagging::granule_count))]
fn tagged_bytes(opc: u8) -> u32
    ensures { result ≡ 16 * granule_count opc }
{
    if opc == 2 || opc == 3 { 32 } else { 16 }
}

/// The target of a store of tags.
#[inline(always)]
#[tactic(auto, unfolding(a64_step::specs::MemoryTagging::tag_target))]
fn target_of(regs: &Regs, offset: i64, mode: u8, rn: u8) -> Target
    requires { AreRegisters (rn ∷ []) }
    ensures { result ≡ tag_target regs.now offset mode rn }
{
    match mode {
        1 => Target::post(regs, 16, offset, rn),
        2 => Target::offset(regs, 16, offset, rn),
        _ => Target::pre(regs, 16, offset, rn),
    }
}

/// The access that an instruction makes where it completes, by the registers before it. Most of
/// them are of one form, which is told from the others without a jump by a table.
#[inline(always)]
#[tactic(auto, unfolding(crate::specs::InstructionAccesses::accessed))]
pub fn access_of(instr: &Instr, regs: &Regs) -> Option<InstructionAccess>
    requires { IsAllowed instr.now }
    ensures { result ≡ accessed instr.now regs.now }
{
    match *instr {
        Instr::LdStImm {
            size,
            opc,
            imm12,
            rn,
            rt,
        } => {
            let target = Target::scaled(regs, size, imm12, rn);
            Some(InstructionAccess::single(regs, size, opc, rt, target))
        }
        Instr::LdStUnscaled { .. }
        | Instr::LdStPost { .. }
        | Instr::LdStPre { .. }
        | Instr::LdStReg { .. }
        | Instr::LdLit { .. }
        | Instr::PairPost { .. }
        | Instr::PairOff { .. }
        | Instr::PairPre { .. }
        | Instr::Ldg { .. }
        | Instr::StG { .. }
        | Instr::StGP { .. } => access_by_form(instr, regs),
        _ => None,
    }
}

/// The access of each form that makes one.
#[rattlefmt::skip]
#[inline(never)]
#[tactic(auto, unfolding(crate::specs::InstructionAccesses::accessed))]
fn access_by_form(instr: &Instr, regs: &Regs) -> Option<InstructionAccess>
    requires { IsAllowed instr.now }
    ensures { result ≡ accessed instr.now regs.now }
{
    Some(match *instr {
        Instr::LdStImm { size, opc, imm12, rn, rt } => InstructionAccess::single(regs, size, opc, rt, Target::scaled(regs, size, imm12, rn)),
        Instr::LdStUnscaled { size, opc, imm9, rn, rt } => InstructionAccess::single(regs, size, opc, rt, Target::offset(regs, 1, i64::from(imm9), rn)),
        Instr::LdStPost { size, opc, imm9, rn, rt } => InstructionAccess::single(regs, size, opc, rt, Target::post(regs, 1, i64::from(imm9), rn)),
        Instr::LdStPre { size, opc, imm9, rn, rt } => InstructionAccess::single(regs, size, opc, rt, Target::pre(regs, 1, i64::from(imm9), rn)),
        Instr::LdStReg { size, opc, rm, option, s, rn, rt } => InstructionAccess::single(regs, size, opc, rt, Target::register(regs, size, RegisterOffset { rm, option, s }, rn)),
        Instr::LdLit { opc, imm19, rt } => InstructionAccess::literal(regs, opc, imm19, rt),
        Instr::PairPost { opc, l, imm7, rt2, rn, rt } => InstructionAccess::pair(regs, opc, l, rt2, rt, Target::post(regs, unit_of(opc), i64::from(imm7), rn)),
        Instr::PairOff { opc, l, imm7, rt2, rn, rt } => InstructionAccess::pair(regs, opc, l, rt2, rt, Target::offset(regs, unit_of(opc), i64::from(imm7), rn)),
        Instr::PairPre { opc, l, imm7, rt2, rn, rt } => InstructionAccess::pair(regs, opc, l, rt2, rt, Target::pre(regs, unit_of(opc), i64::from(imm7), rn)),
        Instr::Ldg { imm9, rn, rt } => InstructionAccess::tags(ACCESS_READ_TAG, 16, moved_by(regs.get_or_sp(rn), 16, i64::from(imm9)), 0, rt),
        Instr::StG { opc, imm9, mode, rn, rt } => InstructionAccess::tags(ACCESS_WRITE_TAG, tagged_bytes(opc), target_of(regs, i64::from(imm9), mode, rn).address, tag_of(regs.get_or_sp(rt)), rt),
        Instr::StGP { mode, imm7, rt2, rn, rt } => InstructionAccess::tagged_pair(regs, rt2, rt, target_of(regs, i64::from(imm7), mode, rn)),
        _ => return None,
    })
}
