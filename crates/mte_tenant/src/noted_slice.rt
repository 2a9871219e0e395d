//! A slice of which a watch is passed the accesses, and is shown little else.

ghost use Rattle.std.specs.Prelude.{◌≡◌, ◌<◌, ◌≤◌, ◌-◌, ℕ, true, None, Some};
ghost use Rattle.mte_tags.specs.Memory.{Memory};
ghost use Rattle.a64_run.specs.OpCaches.{Knows};
ghost use Rattle.a64_run.specs.Stops.{stop_of};
ghost use Rattle.a64_step.specs.Steps.{run_of};
ghost use Rattle.a64_step.specs.declared.outcome.Outcome.TheVariants as Outcome;
ghost use Rattle.mte_svc.specs.Ready.{IsReady};
ghost use Rattle.mte_svc.specs.Results.{is_running};
ghost use Rattle.mte_tenant.specs.Machines.{machine_of, after_slice, after_attempts};

use crate::alone::{Watch, attempt_all};
use crate::machine::{handle, settle};
use crate::noted::{MOST_UNSEEN, NoAccesses, Notes, note_accesses};
use a64_run::{OpCache, known_words_stay, run_with_edges};
use a64_step::{Outcome, Regs, steps_keep_pages};
use mte_svc::TenantParts;
use mte_tags::{Paged, Tagged};
use scudo_heap::condition_of_calls;

/// A slice by a table, of which a watch is passed each access that an instruction completes, or
/// each instruction. It is shown an attempt only where that leads to no next instruction, or where
/// at most `last` steps of the slice are left before it; of the latter no access or instruction is
/// passed, nor are those of services. It is what `slice` makes of the machine, whatever watches it;
/// what a watch is shown is in no clause.
#[inline(never)]
pub fn slice_noted<M: Paged, W: Notes>(
    ops: &mut OpCache,
    watch: &mut W,
    parts: &mut TenantParts,
    memory: &mut M,
    steps: u32,
    last: u32,
)
    requires ready { IsReady parts.old (M.Tagged.memory memory.old) }
    ensures machine { machine_of parts.new (M.Tagged.memory memory.new)
        ≡ after_slice steps (machine_of parts.old (M.Tagged.memory memory.old)) }
    ensures ready { IsReady parts.new (M.Tagged.memory memory.new) }
    ensures kept { M.Tagged.kept memory.old memory.new }
{
    ops.begin_run();
    let last = u64::from(last);
    let mut left = u64::from(steps);
    while left > last && parts.is_running() {
        left = run_noted(ops, watch, parts, memory, left, last);
    }
    attempt_all(watch, parts, memory, left);
    settle(parts, memory);
}

/// Runs to the next service, fault or end, until `last` steps are left, or [`MOST_UNSEEN`]
/// instructions; returns how many the slice has left, 0 after a yield.
#[inline(always)]
fn run_noted<M: Paged, W: Notes>(
    ops: &mut OpCache,
    watch: &mut W,
    parts: &mut TenantParts,
    memory: &mut M,
    left: u64,
    last: u64,
) -> u64
    requires more { last < left }
    requires known { Knows (M.Tagged.memory memory.old) ops.old }
    requires running { is_running parts.old.history.status ≡ true }
    requires ready { IsReady parts.old (M.Tagged.memory memory.old) }
    ensures rest { after_attempts result (machine_of parts.new (M.Tagged.memory memory.new))
        ≡ after_attempts left (machine_of parts.old (M.Tagged.memory memory.old)) }
    ensures known { Knows (M.Tagged.memory memory.new) ops.new }
    ensures fewer { result < left }
    ensures ready { IsReady parts.new (M.Tagged.memory memory.new) }
    ensures kept { M.Tagged.kept memory.old memory.new }
{
    steps_keep_pages();
    condition_of_calls();
    known_words_stay();
    let most = (left - last).min(MOST_UNSEEN);
    let behind = left - most;
    let mut outcome = Outcome::Next;
    let unused = run_by_table(ops, &mut parts.regs, memory, watch, &mut outcome, most);
    let rest = behind + unused;
    let made = most - unused;
    if let Outcome::Next = outcome {
        parts.history.steps = parts.history.steps.saturating_add(made);
        watch.pass(parts, memory);
        parts.left = rest;
        return rest;
    }
    parts.history.steps = parts.history.steps.saturating_add(made - 1);
    watch.pass(parts, memory);
    watch.before(parts, memory);
    parts.history.steps = parts.history.steps.saturating_add(1);
    parts.left = rest;
    let goes_on = handle(&outcome, parts, memory);
    watch.after(parts, memory);
    if goes_on { rest } else { 0 }
}

/// Runs instructions by the table, as `run_with_edges` does, and passes on what the watch is to be
/// passed of them.
#[inline(always)]
fn run_by_table<M: Tagged, W: Notes>(
    ops: &mut OpCache,
    regs: &mut Regs,
    memory: &mut M,
    watch: &mut W,
    outcome: &mut Outcome,
    steps: u64,
) -> u64
    requires known { Knows (M.memory memory.old) ops.old }
    requires next { outcome.old ≡ Outcome.Next }
    ensures known { Knows (M.memory memory.new) ops.new }
    ensures stop { stop_of outcome.new result
        ≡ (run_of steps regs.old (M.memory memory.old)).stop }
    ensures regs { regs.new ≡ (run_of steps regs.old (M.memory memory.old)).regs }
    ensures memory { M.memory memory.new ≡ (run_of steps regs.old (M.memory memory.old)).memory }
    ensures kept { M.kept memory.old memory.new }
    ensures tag { regs.old.rgsr.tag < 16 → regs.new.rgsr.tag < 16 }
{
    if watch.follows() {
        run_followed(ops, regs, memory, watch, outcome, steps)
    } else {
        run_with_notes(ops, regs, memory, watch, outcome, steps)
    }
}

/// Runs instructions by the table, as `run_with_edges` does, passes their accesses on, and counts
/// the branches that they take.
#[inline(never)]
fn run_with_notes<M: Tagged, W: Notes>(
    ops: &mut OpCache,
    regs: &mut Regs,
    memory: &mut M,
    watch: &mut W,
    outcome: &mut Outcome,
    steps: u64,
) -> u64
    requires known { Knows (M.memory memory.old) ops.old }
    requires next { outcome.old ≡ Outcome.Next }
    ensures known { Knows (M.memory memory.new) ops.new }
    ensures stop { stop_of outcome.new result
        ≡ (run_of steps regs.old (M.memory memory.old)).stop }
    ensures regs { regs.new ≡ (run_of steps regs.old (M.memory memory.old)).regs }
    ensures memory { M.memory memory.new ≡ (run_of steps regs.old (M.memory memory.old)).memory }
    ensures kept { M.kept memory.old memory.new }
    ensures tag { regs.old.rgsr.tag < 16 → regs.new.rgsr.tag < 16 }
{
    let mut counts = watch.take_counts();
    let mut noted = note_accesses(memory, watch);
    let unused = run_with_edges(ops, regs, &mut noted, &mut counts, outcome, steps);
    watch.put_counts(counts);
    unused
}

/// Runs instructions by the table, as `run_with_edges` does, and passes them on.
#[inline(never)]
fn run_followed<M: Tagged, W: Notes>(
    ops: &mut OpCache,
    regs: &mut Regs,
    memory: &mut M,
    watch: &mut W,
    outcome: &mut Outcome,
    steps: u64,
) -> u64
    requires known { Knows (M.memory memory.old) ops.old }
    requires next { outcome.old ≡ Outcome.Next }
    ensures known { Knows (M.memory memory.new) ops.new }
    ensures stop { stop_of outcome.new result
        ≡ (run_of steps regs.old (M.memory memory.old)).stop }
    ensures regs { regs.new ≡ (run_of steps regs.old (M.memory memory.old)).regs }
    ensures memory { M.memory memory.new ≡ (run_of steps regs.old (M.memory memory.old)).memory }
    ensures kept { M.kept memory.old memory.new }
    ensures tag { regs.old.rgsr.tag < 16 → regs.new.rgsr.tag < 16 }
{
    let mut none = NoAccesses;
    let mut apart = note_accesses(memory, &mut none);
    run_with_edges(ops, regs, &mut apart, watch, outcome, steps)
}
