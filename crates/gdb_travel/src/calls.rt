//! The heap calls of a tenant.

use crate::traveller::Traveller;
use heap_bounds::CallText;
use mte_svc::AnsweredCall;
use std::alloc::{AllocError, Global};
use std::io::Write;
use std::{fmt, io};

/// How many calls are written at once.
const TOLD: usize = 64;

/// A heap call that was answered.
#[derive(Clone, Copy)]
pub(crate) struct Made {
    /// Its number among the heap calls, from 1.
    pub(crate) number: u64,
    /// The step that made it, from 1.
    pub(crate) step: u64,
    /// The address of its SVC.
    pub(crate) pc: u64,
    /// The call.
    pub(crate) call: AnsweredCall,
}

impl fmt::Display for Made {
    fn fmt<W: fmt::Write>(&self, f: &mut fmt::Formatter<W>) -> fmt::Result {
        let (number, step, pc) = (self.number, self.step, self.pc);
        let (call, answer) = (CallText(self.call.call), self.call.answer);
        write!(
            f,
            "call {number}, {call} = {answer:#018x} by the SVC at {pc:#018x}, step {step}"
        )
    }
}

/// The heap calls that a tenant has made, the oldest first: it runs again for them.
pub(crate) fn made_calls(alloc: Global, tenant: &Traveller<'_>) -> Result<Vec<Made>, AllocError> {
    let mut all = Vec::new(alloc);
    let (mut past, steps) = tenant.past(alloc)?;
    for _ in 0..steps {
        let before = past.parts().history.calls.count();
        past.attempt();
        let parts = past.parts();
        let calls = &parts.history.calls;
        if calls.count() == before {
            continue;
        }
        if let Some(call) = calls.get(calls.kept().saturating_sub(1)) {
            all.push(Made {
                number: calls.count(),
                step: parts.history.steps,
                pc: parts.regs.pc.wrapping_sub(4),
                call,
            })?;
        }
    }
    Ok(all)
}

/// Writes the last heap calls that a tenant has made, the oldest first.
pub fn tell_calls<W: Write>(alloc: Global, out: &mut W, tenant: &Traveller<'_>) -> io::Result<()> {
    let calls = made_calls(alloc, tenant)?;
    if calls.is_empty() {
        return writeln!(out, "no heap calls yet");
    }
    let skipped = calls.len().saturating_sub(TOLD);
    if skipped > 0 {
        writeln!(out, "{skipped} older calls")?;
    }
    for call in calls.iter().skip(skipped) {
        writeln!(out, "{call}")?;
    }
    Ok(())
}
