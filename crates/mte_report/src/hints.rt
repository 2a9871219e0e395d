//! Hints for a cause that no chunk explains.

use crate::context::Context;
use circular_buffer::HeapCircularBuffer;
use mte_backtrace::FrameNames;
use run_cause::{Cause, CauseKind, LastStore, TargetLoad, branch_in};
use run_records::{BookEntry, EntryText, Instruction, Moment};
use scudo_heap::{HeapCall, MAX_REQUEST};
use std::io;
use std::io::Write;

impl<'a> Context<'a> {
    /// Writes what led to a null pointer or to a jump to no code, as far as it is known.
    pub(crate) fn tell_hint<W: Write>(&self, out: &mut W, cause: &Cause) -> io::Result<()> {
        match cause.kind {
            CauseKind::NullPointer => match self.report.book.newest_refused() {
                Some(entry) => tell_refused(out, &entry),
                None => Ok(()),
            },
            CauseKind::WildJump => {
                if let Some(last) = self.report.last {
                    tell_jump(out, last, self.names)?;
                }
                match self.report.store {
                    Some(store) => self.tell_store(out, store),
                    None => Ok(()),
                }
            }
            _ => Ok(()),
        }
    }

    /// Writes what wrote the target of a jump last, and the calls that led there.
    fn tell_store<W: Write>(&self, out: &mut W, store: &LastStore) -> io::Result<()> {
        let LastStore { addr, step, pc, .. } = *store;
        let what = if store.is_return {
            "return address"
        } else {
            "target"
        };
        let frame = self.names.instruction(pc);
        writeln!(
            out,
            "  the {what} at {addr:#018x} was last written by {frame}, step {step}"
        )?;
        let stack = self.report.stack_of_store(self.alloc, store)?;
        stack.write(out, self.names, "    ")
    }
}

/// Writes the branch that jumped, and the load that brought its target.
fn tell_jump<W: Write>(
    out: &mut W,
    last: &HeapCircularBuffer<Moment>,
    names: &FrameNames<'_>,
) -> io::Result<()> {
    let Some(moment) = branch_in(last) else {
        return Ok(());
    };
    let (pc, step) = (moment.regs.pc, moment.step);
    let word = moment.word.unwrap_or(0);
    let (frame, instruction) = (names.instruction(pc), Instruction { word, pc });
    writeln!(out, "  jumped by {instruction} in {frame}, step {step}")?;
    match TargetLoad::of(last) {
        Some(load) => tell_load(out, load),
        None => Ok(()),
    }
}

/// Writes the load that brought the target of a jump.
fn tell_load<W: Write>(out: &mut W, load: TargetLoad) -> io::Result<()> {
    let TargetLoad {
        register,
        addr,
        step,
    } = load;
    writeln!(
        out,
        "  x{register} was loaded from [{addr:#018x}], step {step}"
    )
}

/// Writes a call that returned no chunk, and why.
fn tell_refused<W: Write>(out: &mut W, entry: &BookEntry) -> io::Result<()> {
    let call = EntryText(entry);
    let why = if requested_bytes(entry.call.call) > MAX_REQUEST {
        "a chunk has at most 1,048,576 bytes"
    } else {
        "too few pages were left, or the request was none that can be met"
    };
    writeln!(out, "  the newest call without a chunk is {call}: {why}")
}

/// The bytes of the chunk that a call asks for, 2^64 - 1 where they are more; 0 where it asks for
/// none.
pub fn requested_bytes(call: HeapCall) -> u64 {
    match call {
        HeapCall::Malloc { size }
        | HeapCall::Realloc { size, .. }
        | HeapCall::Memalign { size, .. } => size,
        HeapCall::Calloc { count, size } => count.saturating_mul(size),
        HeapCall::Free { .. } | HeapCall::UsableSize { .. } => 0,
    }
}
