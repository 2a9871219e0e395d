//! An instruction that completed, and why no more can be noted of one.

use crate::access::RegisterAccess;
use a64_access::AccessForm;
use a64_instr::Instr;
use a64_registers::Regs;
use std::alloc::AllocError;

/// An instruction that completed, with the registers before it and after it.
#[derive(Clone, Copy)]
pub struct Step<'a> {
    /// The instruction.
    pub instr: &'a Instr,
    /// How it accessed memory, if it did.
    pub form: Option<AccessForm>,
    /// The registers that it loaded or stored, if it did.
    pub access: Option<RegisterAccess>,
    /// The registers before it.
    pub before: &'a Regs,
    /// The registers after it.
    pub after: &'a Regs,
}

/// Why no more is known.
#[derive(Clone, Copy, PartialEq, Eq)]
pub enum Full {
    /// An allocation failed.
    OutOfMemory,
    /// More chunks were pointed into than are kept.
    Chunks,
    /// More pages had something than are kept.
    Pages,
}

impl From<AllocError> for Full {
    fn from(_: AllocError) -> Full {
        Full::OutOfMemory
    }
}
