//! The request of a traced run.

ghost use Rattle.std.specs.Prelude.{◌≡◌};
ghost use Rattle.tombolopan.specs.InstructionAccesses.{is_wanted};
ghost use Rattle.tombolopan.specs.Traces.{is_code};

use crate::instruction_access::InstructionAccess;
use a64_bits::plain;

/// How far a run goes, and which of its instructions and accesses are entered.
#[repr(C)]
#[derive(Clone, Copy)]
pub struct TraceRequest<'a> {
    /// Addresses at which it stops after an instruction.
    pub stops: &'a [u64],
    /// The most instructions that are attempted.
    pub steps: u64,
    /// The first address of instructions that are entered.
    pub code_low: u64,
    /// The last of them.
    pub code_high: u64,
    /// The first plain address of accesses that are entered: those that have a byte in the range.
    pub low: u64,
    /// The last of them.
    pub high: u64,
    /// Which kinds of accesses are entered: a sum of ACCESS_READ to ACCESS_WRITE_TAG.
    pub kinds: u32,
    /// Not used.
    pub unused: u32,
}

impl TraceRequest<'_> {
    /// Whether an instruction at an address is entered.
    #[inline(always)]
    pub(crate) fn has_code(&self, pc: u64) -> bool
        ensures { result ≡ is_code self.now.code_low self.now.code_high pc }
    {
        self.code_low <= pc && pc <= self.code_high
    }

    /// Whether an access is entered.
    #[inline(always)]
    pub(crate) fn has_access(&self, access: &InstructionAccess) -> bool
        ensures { result ≡ is_wanted self.now access.now }
    {
        let first = plain(access.addr);
        let last = first + u64::from(access.size.saturating_sub(1));
        access.kind & self.kinds != 0 && first <= self.high && self.low <= last
    }
}
