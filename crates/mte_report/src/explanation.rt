//! The explanation of a tenant's end, which is found once for all that is written of it.

use crate::report::Report;
use mte_backtrace::{CallStack, FrameAddresses, FrameNames};
use mte_flat::Flat;
use run_cause::{Cause, Finding, LastStore, branch_in};
use run_records::{BookEntry, Moment, push_turns};
use std::alloc::{AllocError, Global};

/// The explanation of a tenant's end.
pub struct Explanation<'a> {
    /// The most likely cause, where a fault or a refused pointer ended it.
    pub cause: Option<Cause>,
    /// The calls that led to the end.
    pub stack: CallStack,
    /// The names of the addresses that are written: those of the calls that led to the end and to
    /// the heap calls of the cause, of the last calls and returns, and of the jump that is hinted.
    pub names: FrameNames<'a>,
}

impl<'a> Drop for Explanation<'a> {
    fn drop(self) {
        let Explanation {
            cause: _,
            stack: _,
            names: _,
        } = self;
    }
}

impl<'a> Report<'a> {
    /// The explanation of the end.
    pub fn explain(&self, alloc: Global, memory: &mut Flat) -> Result<Explanation<'a>, AllocError> {
        let cause = self.cause();
        let stack = self.end_stack(alloc, memory)?;
        let names = self.frame_names(alloc, cause.as_ref(), &stack)?;
        Ok(Explanation {
            cause,
            stack,
            names,
        })
    }

    /// The calls that led to the end.
    fn end_stack(&self, alloc: Global, memory: &mut Flat) -> Result<CallStack, AllocError> {
        let symbols = &self.names.symbols;
        match self.finding {
            Some(
                Finding {
                    before,
                    callers,
                    ..
                },
            ) => CallStack::of_heap_call(alloc, before.pc, callers, symbols),
            None => CallStack::of_next(alloc, memory, &self.parts.regs, symbols),
        }
    }

    /// The names of the addresses that are written.
    fn frame_names(
        &self,
        alloc: Global,
        cause: Option<&Cause>,
        stack: &CallStack,
    ) -> Result<FrameNames<'a>, AllocError> {
        let mut frames = FrameAddresses::new(alloc);
        self.push_told(alloc, &mut frames, cause, stack)?;
        self.names.of_frames(alloc, &frames)
    }

    /// Adds the addresses that are written.
    fn push_told(
        &self,
        alloc: Global,
        frames: &mut FrameAddresses,
        cause: Option<&Cause>,
        stack: &CallStack,
    ) -> Result<(), AllocError> {
        stack.push_frames(frames)?;
        if let Some(cause) = cause {
            self.push_cause(alloc, frames, cause)?;
        }
        if let Some(turns) = self.turns {
            push_turns(frames, turns)?;
        }
        self.push_jump(alloc, frames)
    }

    /// Adds the addresses of the jump that is hinted, and of the store after it.
    fn push_jump(&self, alloc: Global, frames: &mut FrameAddresses) -> Result<(), AllocError> {
        if let Some(moment) = self.branch() {
            frames.push_instruction(moment.regs.pc)?;
        }
        match self.store {
            Some(store) => {
                let stack = self.stack_of_store(alloc, store)?;
                stack.push_frames(frames)
            }
            None => Ok(()),
        }
    }

    /// The instruction in front of the last one, if it is known.
    fn branch(&self) -> Option<&'a Moment> {
        branch_in(self.last?)
    }

    /// Adds the addresses of the calls that led to the heap calls of a cause.
    pub(crate) fn push_cause(
        &self,
        alloc: Global,
        frames: &mut FrameAddresses,
        cause: &Cause,
    ) -> Result<(), AllocError> {
        for entry in cause.calls().iter() {
            if let Some(entry) = entry {
                self.push_entry(alloc, frames, entry)?;
            }
        }
        match cause.instruction() {
            Some((pc, _)) => frames.push_instruction(pc),
            None => Ok(()),
        }
    }

    /// Adds the addresses of the calls that led to a heap call.
    pub(crate) fn push_entry(
        &self,
        alloc: Global,
        frames: &mut FrameAddresses,
        entry: &BookEntry,
    ) -> Result<(), AllocError> {
        let stack = self.stack_of(alloc, entry)?;
        stack.push_frames(frames)
    }

    /// The calls that led to a heap call.
    pub fn stack_of(&self, alloc: Global, entry: &BookEntry) -> Result<CallStack, AllocError> {
        CallStack::of_heap_call(alloc, entry.pc, &entry.callers, &self.names.symbols)
    }

    /// The calls that led to a store.
    pub fn stack_of_store(
        &self,
        alloc: Global,
        store: &LastStore,
    ) -> Result<CallStack, AllocError> {
        CallStack::of_heap_call(alloc, store.pc, &store.callers, &self.names.symbols)
    }
}
