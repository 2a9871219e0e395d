//! How a step and a run end.

use mte_tags::MemFault;

/// How a step ended.
#[derive(Clone, Copy, Debug, PartialEq, Eq)]
pub enum Outcome {
    /// The program counter is at the instruction that comes next.
    Next,
    /// SVC #0; the program counter is still at it.
    Svc,
    /// The instruction or its fetch faulted, and nothing changed.
    Fault(MemFault),
    /// The word has no meaning here; the program counter is at it.
    Illegal(u32),
    /// BRK with its number; the program counter is at it.
    Breakpoint(u16),
}

/// Why a run ended, and how many of its steps are left.
#[derive(Clone, Copy, Debug, PartialEq, Eq)]
pub struct Stop {
    /// The last step's outcome, or `None` where each was `Next`.
    pub outcome: Option<Outcome>,
    /// The steps that were not attempted.
    pub left: u64,
}
