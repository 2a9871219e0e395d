//! Whether something depends on undefined bits: a branch, an address, a jump, a service.

use crate::state::{UndefinedBits, number_in};
use a64_access::{AccessForm, AddressingMode};
use a64_instr::Instr;
use a64_instr::fields::RegisterOffset;
use a64_registers::operands::truncate;
use shadow_memory::Step;
use undefined_values::UndefinedOrigin;

/// The use of undefined bits.
#[derive(Clone, Copy, Debug, PartialEq, Eq)]
pub enum UseKind {
    /// Whether a branch is taken.
    Branch,
    /// The address that an instruction loads from or stores to.
    Address,
    /// The target of a jump.
    Jump,
    /// Bytes that are written out.
    Output,
    /// An argument of a service.
    Argument,
    /// The exit status.
    ExitStatus,
}

/// A use of undefined bits.
#[derive(Clone, Copy, PartialEq, Eq)]
pub struct UndefinedUse {
    /// The use of the bits.
    pub kind: UseKind,
    /// The origin of the bits.
    pub origin: UndefinedOrigin,
    /// The plain address of the first byte that has some, where bytes are written out.
    pub addr: Option<u64>,
}

impl UndefinedUse {
    /// A use of no bytes of memory.
    pub(crate) fn of(kind: UseKind, origin: UndefinedOrigin) -> UndefinedUse {
        UndefinedUse {
            kind,
            origin,
            addr: None,
        }
    }
}

impl UndefinedBits {
    /// The use of undefined bits by an instruction other than SVC, of which nothing is noted
    /// yet.
    pub fn judge(&self, step: &Step<'_>) -> Option<UndefinedUse> {
        match *step.instr {
            Instr::BranchCond { cond, .. } => {
                let origin = self.flags().undefined_origin(cond % 16)?;
                Some(UndefinedUse::of(UseKind::Branch, origin))
            }
            Instr::CmpBranch { sf, rt, .. } => self.judge_zero(step, sf, rt),
            Instr::TestBranch { b5, b40, rt, .. } => {
                let bit = 1u64.wrapping_shl(u32::from(b5) * 32 + u32::from(b40));
                self.judge_bits(rt, bit, UseKind::Branch)
            }
            Instr::BranchReg { rn, .. } => self.judge_bits(rn, u64::MAX, UseKind::Jump),
            _ => self.judge_address(step.form.as_ref()?),
        }
    }

    /// Whether it is undefined that a register is 0.
    fn judge_zero(&self, step: &Step<'_>, sf: u8, rt: u8) -> Option<UndefinedUse> {
        let value = self.register(rt);
        let bits = truncate(sf, value.bits);
        let known = truncate(sf, number_in(step.before, rt)) & !bits;
        if bits == 0 || known != 0 {
            return None;
        }
        Some(UndefinedUse::of(UseKind::Branch, value.origin))
    }

    /// Whether some bits of a register are undefined, on which something depends.
    fn judge_bits(&self, n: u8, mask: u64, kind: UseKind) -> Option<UndefinedUse> {
        let value = self.register(n);
        if value.bits & mask == 0 {
            return None;
        }
        Some(UndefinedUse::of(kind, value.origin))
    }

    /// Whether the address that an instruction accesses is undefined.
    fn judge_address(&self, form: &AccessForm) -> Option<UndefinedUse> {
        if let AddressingMode::RegisterOffset(RegisterOffset { rm, option, .. }) = form.mode {
            let mask = if option % 4 == 3 {
                u64::MAX
            } else {
                0xffff_ffff
            };
            let index = self.judge_bits(rm, mask, UseKind::Address);
            if index.is_some() {
                return index;
            }
        }
        self.judge_bits(form.base, u64::MAX, UseKind::Address)
    }
}
