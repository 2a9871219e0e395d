//! Load/store addressing modes: the target of an access, and its write-back.

ghost use Rattle.std.specs.Prelude.{◌≡◌, ◌<◌, ◌≤◌, ◌+◌, ◌*◌, ◌%◌, ◌^◌, [], ◌∷◌};
ghost use Rattle.a64_instr.specs.Fields.{AreRegisters, IsRegisterOffset};
ghost use Rattle.a64_registers.specs.Operands.{bytes_of};

use a64_bits::plain;
use a64_instr::fields::RegisterOffset;
use a64_registers::Regs;
use a64_registers::operands::{byte_count, extend};
use mte_tags::{FaultKind, MemFault, tag_of};

/// The target of an access.
#[derive(Clone, Copy)]
pub struct Target {
    /// The address with its tag.
    pub address: u64,
    /// Whether the address tag is compared with the allocation tags.
    pub checked: bool,
    /// The value that is written back to the base register.
    pub new_base: Option<u64>,
}

impl Target {
    ghost use Rattle.a64_step.specs.Addressing.{scaled_target, offset_target, post_target};
    ghost use Rattle.a64_step.specs.Addressing.{pre_target, register_target};

    /// Base plus an unsigned offset in units of the access.
    #[inline(always)]
    #[tactic(auto, unfolding(crate::specs::Addressing::scaled_target))]
    pub fn scaled(regs: &Regs, size: u8, imm12: u16, rn: u8) -> Target
        requires { AreRegisters (rn ∷ []) }
        ensures { result ≡ scaled_target regs.now size imm12 rn }
    {
        Target {
            address: regs
                .get_or_sp(rn)
                .wrapping_add(byte_count(size) * u64::from(imm12)),
            checked: rn != 31,
            new_base: None,
        }
    }

    /// Base plus a signed offset in units.
    #[inline(always)]
    #[tactic(auto, unfolding(crate::specs::Addressing::offset_target))]
    pub fn offset(regs: &Regs, unit: u64, offset: i64, rn: u8) -> Target
        requires { AreRegisters (rn ∷ []) }
        ensures { result ≡ offset_target regs.now unit offset rn }
    {
        Target {
            address: moved_by(regs.get_or_sp(rn), unit, offset),
            checked: rn != 31,
            new_base: None,
        }
    }

    /// Post-indexed: at the base, which then moves.
    #[inline(always)]
    #[tactic(auto, unfolding(crate::specs::Addressing::post_target))]
    pub fn post(regs: &Regs, unit: u64, offset: i64, rn: u8) -> Target
        requires { AreRegisters (rn ∷ []) }
        ensures { result ≡ post_target regs.now unit offset rn }
    {
        let base = regs.get_or_sp(rn);
        Target {
            address: base,
            checked: true,
            new_base: Some(moved_by(base, unit, offset)),
        }
    }

    /// Pre-indexed: at the moved base, which is kept.
    #[inline(always)]
    #[tactic(auto, unfolding(crate::specs::Addressing::pre_target))]
    pub fn pre(regs: &Regs, unit: u64, offset: i64, rn: u8) -> Target
        requires { AreRegisters (rn ∷ []) }
        ensures { result ≡ pre_target regs.now unit offset rn }
    {
        let address = moved_by(regs.get_or_sp(rn), unit, offset);
        Target {
            address,
            checked: true,
            new_base: Some(address),
        }
    }

    /// Base plus a register offset.
    #[inline(always)]
    #[tactic(auto, unfolding(crate::specs::Addressing::register_target))]
    pub fn register(regs: &Regs, size: u8, offset: RegisterOffset, rn: u8) -> Target
        requires offset { IsRegisterOffset offset }
        requires rn { AreRegisters (rn ∷ []) }
        ensures { result ≡ register_target regs.now size offset.rm offset.option offset.s rn }
    {
        let unit = if offset.s == 1 { byte_count(size) } else { 1 };
        let bytes = extend(offset.option, regs.get(offset.rm)).wrapping_mul(unit);
        Target {
            address: regs.get_or_sp(rn).wrapping_add(bytes),
            checked: true,
            new_base: None,
        }
    }
}

ghost use Rattle.a64_step.specs.Addressing.{offset_address, with_new_base, stack_fault};

/// An address plus an offset that counts units, modulo 2^64.
#[inline(always)]
#[tactic(auto, unfolding(crate::specs::Addressing::offset_address))]
pub fn moved_by(address: u64, unit: u64, offset: i64) -> u64
    ensures { result ≡ offset_address address unit offset }
{
    address.wrapping_add(offset.cast_unsigned().wrapping_mul(unit))
}

/// Writes the base register back where the target has a new base.
#[inline(always)]
pub fn write_back(regs: &mut Regs, rn: u8, new_base: Option<u64>)
    requires { AreRegisters (rn ∷ []) }
    ensures { regs.new ≡ with_new_base regs.old rn new_base }
{
    if let Some(base) = new_base {
        regs.set_or_sp(rn, base);
    }
}

/// The fault of SP as a base that is no multiple of 16 (CheckSPAlignment).
#[inline(always)]
#[tactic(auto, unfolding(crate::specs::Addressing::stack_fault))]
pub fn fault_of_stack(regs: &Regs, rn: u8, write: bool) -> Option<MemFault>
    ensures { result ≡ stack_fault regs.now rn write }
{
    if rn == 31 && regs.sp % 16 != 0 {
        Some(MemFault {
            kind: FaultKind::SpAlignment,
            addr: plain(regs.sp),
            write,
            ptr_tag: tag_of(regs.sp),
            mem_tag: 0,
        })
    } else {
        None
    }
}
