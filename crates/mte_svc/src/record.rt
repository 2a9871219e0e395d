//! A tenant's record, from its admission on.

ghost use Rattle.std.specs.Prelude.{◌≡◌, IfOk};

use crate::calls::HeapCalls;
use crate::output::Output;
use mte_tags::MemFault;
use scudo_heap::HeapAbort;
use std::alloc::{AllocError, Global};

/// A tenant's status. Addresses are those of instructions.
#[derive(Clone, Copy, Debug, PartialEq, Eq)]
pub enum Status {
    /// It goes on with its next slice.
    Running,
    /// It ended itself, with a code.
    Exited(u8),
    /// An access failed, in the instruction at the address.
    Faulted(MemFault, u64),
    /// A word that encodes no instruction, and its address.
    Illegal(u32, u64),
    /// A breakpoint instruction's number, and its address.
    Breakpoint(u16, u64),
    /// In the asynchronous mode a tag differed in an access: it ended at its next SVC, which had no
    /// effect, or with its slice. The address is that of the SVC, or of the next instruction.
    AsyncTag(u64),
    /// A heap call's check of a pointer failed: the check, the pointer, and the SVC's address.
    Aborted(HeapAbort, u64, u64),
    /// It was stopped while it was running.
    Stopped,
}

/// A tenant's record: what the report says of it.
pub struct Record {
    /// Its number.
    pub id: u16,
    /// Its status.
    pub status: Status,
    /// How many instructions it has attempted; the count stops at 2^64 - 1.
    pub steps: u64,
    /// The output that it has written.
    pub output: Output,
    /// The heap calls that it has made.
    pub calls: HeapCalls,
}

impl Drop for Record {
    fn drop(self) {
        let Record {
            id: _,
            status: _,
            steps: _,
            output: _,
            calls: _,
        } = self;
    }
}

impl Record {
    /// A copy of the record.
    pub fn copy(&self, alloc: Global) -> Result<Record, AllocError>
        ensures { IfOk result (λ log. log ≡ self.now) }
    {
        let output = self.output.copy(alloc)?;
        let calls = self.calls.copy(alloc)?;
        Ok(Record {
            id: self.id,
            status: self.status,
            steps: self.steps,
            output,
            calls,
        })
    }
}
