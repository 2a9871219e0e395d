//! The parts of a tenant's machine besides its memory.

ghost use Rattle.std.specs.Prelude.{◌≡◌, IfOk};
ghost use Rattle.mte_svc.specs.Results.{with_answer, with_logged_call, is_running};

use crate::calls::AnsweredCall;
use crate::input::Input;
use crate::record::{Record, Status};
use a64_registers::Regs;
use scudo_heap::Heap;
use std::alloc::{AllocError, Global};

/// All of a tenant's machine but its memory.
#[derive(Drop)]
pub struct TenantParts {
    /// Its registers. They are the first field, so that a run holds one address for both.
    pub regs: Regs,
    /// Its record.
    pub history: Record,
    /// Its heap.
    pub heap: Heap,
    /// The input that it has not yet read.
    pub input: Input,
    /// The steps of its slice that are left; 0 between slices.
    pub left: u64,
}

impl TenantParts {
    /// Whether it is running.
    pub fn is_running(&self) -> bool
        ensures { result ≡ is_running self.now.history.status }
    {
        match self.history.status {
            Status::Running => true,
            _ => false,
        }
    }

    /// A copy of them. It is refused only where its memory is.
    pub fn copy(&self, alloc: Global) -> Result<TenantParts, AllocError>
        ensures { IfOk result (λ parts. parts ≡ self.now) }
    {
        let history = self.history.copy(alloc)?;
        let heap = self.heap.copy(alloc)?;
        let input = self.input.copy(alloc)?;
        Ok(TenantParts {
            history,
            regs: self.regs,
            heap,
            input,
            left: self.left,
        })
    }

    /// Enters a heap call that was answered, and returns its result.
    #[tactic(auto, unfolding(crate::specs::Results::with_logged_call))]
    pub(crate) fn enter(&mut self, call: AnsweredCall)
        ensures parts { self.new ≡ with_answer (with_logged_call self.old call) call.answer }
        ensures heap { self.new.heap ≡ self.old.heap }
        ensures rgsr { self.new.regs.rgsr ≡ self.old.regs.rgsr }
    {
        self.history.calls.note(call);
        self.answer(call.answer);
    }

    /// Returns a service's result in x0, and resumes after the SVC.
    #[tactic(auto, unfolding(crate::specs::Results::with_answer))]
    pub(crate) fn answer(&mut self, value: u64)
        ensures parts { self.new ≡ with_answer self.old value }
        ensures heap { self.new.heap ≡ self.old.heap }
        ensures rgsr { self.new.regs.rgsr ≡ self.old.regs.rgsr }
    {
        self.regs.x[0] = value;
        self.regs.pc = self.regs.pc.wrapping_add(4) % (1 << 56);
    }
}
