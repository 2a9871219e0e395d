//! A tenant's machine: its first state and its slices, over any memory with pages.

ghost use Rattle.std.specs.Prelude.{◌≡◌, ℕ, ◌+◌, ◌*◌, ◌^◌, ◌<◌, ◌≤◌, IfOk, IfErr, IsOkUnless, true};
ghost use Rattle.std.specs.Prelude.{None, ◌/◌};
ghost use Rattle.mte_tags.specs.Memory.{Memory, page_at, pages_left, no_pages, with_new_pages};
ghost use Rattle.mte_tags.specs.Memory.{data_attrs};
ghost use Rattle.mte_elf.specs.Headers.{segments_of, entry_of};
ghost use Rattle.mte_elf.specs.Images.{refusal_of, pages_of};
ghost use Rattle.mte_tags.specs.Fixed.{KeepsFixed};
ghost use Rattle.a64_run.specs.OpCaches.{Knows};
ghost use Rattle.scudo_heap.specs.Served.{IsUntouched};
ghost use Rattle.mte_svc.specs.Ready.{IsReady};
ghost use Rattle.mte_svc.specs.Results.{is_running};
ghost use Rattle.mte_svc.specs.Services.{after_svc};
ghost use Rattle.mte_tenant.specs.Machines.{machine_of, first_parts, first_memory, first_registers};
ghost use Rattle.mte_tenant.specs.Admissions.{start_in};
ghost use Rattle.mte_tenant.specs.Machines.{after_slice, after_attempts, after_slice_end};
ghost use Rattle.mte_tenant.specs.Machines.{after_outcome, after_stop, continues, with_service};

use crate::admission::Admission;
use a64_run::{CompiledBlocks, Edges, NoBlocks, NoEdges, OpCache, known_words_stay};
use a64_step::{Outcome, Regs, steps_keep_pages};
use common::{MAX_PAGES, PAGE_SIZE, STACK_END, STACK_PAGES, STACK_START};
use mte_elf::{Plan, load};
use mte_svc::{HeapCalls, Input, Output, Record, Status, SvcEnd, TenantParts, svc};
use mte_tags::{Attrs, Paged, Rgsr, TagMode, Tagged};
use scudo_heap::{Heap, condition_of_calls};
use std::alloc::{AllocError, Global};

/// All of a machine but its memory, at its first instruction. `plan` is the image's plan.
#[tactic(auto, unfolding(crate::specs::Machines::first_parts))]
pub fn start_parts(
    alloc: Global,
    admission: &Admission<'_>,
    plan: &Plan,
) -> Result<TenantParts, AllocError>
    requires entry { plan.now.entry ≡ entry_of admission.now.image.now }
    requires some { 0 < admission.now.terms.pages }
    requires most { admission.now.terms.pages ≤ MAX_PAGES }
    ensures { IfOk result
        (λ parts. parts ≡ first_parts admission.now.id (start_in admission.now)) }
{
    let output = Output::new(alloc, admission.terms.room)?;
    let input = Input::new(alloc, admission.input)?;
    let heap = Heap::new(
        alloc,
        (admission.terms.seed >> 32) as u32,
        u64::from(admission.terms.pages),
    )?;
    let calls = HeapCalls::new(alloc)?;
    let history = Record {
        id: admission.id,
        status: Status::Running,
        steps: 0,
        output,
        calls,
    };
    Ok(TenantParts {
        history,
        regs: registers_at(plan.entry, admission.terms.seed),
        heap,
        input,
        left: 0,
    })
}

/// Maps and loads the image's pages and a stack of four pages, in a memory that has none. `plan` is
/// the image's plan, and the memory may have its pages and the stack's.
pub fn fill<M: Paged>(plan: &Plan, image: &[u8], pages: u32, mode: TagMode, memory: &mut M)
    requires image { refusal_of image.now ≡ None }
    requires segments { plan.now.segments.items ≡ segments_of image.now }
    requires room { pages_of image.now + STACK_PAGES ≤ pages }
    requires empty { M.Tagged.memory memory.old ≡ no_pages pages mode }
    ensures memory { M.Tagged.memory memory.new ≡ first_memory image.now pages mode }
    ensures limit { (M.Tagged.memory memory.new).limit ≡ pages }
    ensures untouched { IsUntouched (M.Tagged.memory memory.new) }
    ensures kept { M.Tagged.kept memory.old memory.new }
{
    load(plan, image, memory);
    map_stack(memory);
}

/// Lets a tenant attempt at most `steps` instructions while it is running and does not yield. It
/// ends where its flag is set then. A table may serve any number of slices, of any tenants. A slice
/// is one run of decoded instructions, since no service changes a page without WRITE. What counts
/// the branches that it takes changes nothing of it, nor do blocks that were compiled.
#[inline(never)]
pub fn slice_with_blocks<M: Paged, E: Edges, T: CompiledBlocks>(
    ops: &mut OpCache,
    parts: &mut TenantParts,
    memory: &mut M,
    edges: &mut E,
    steps: u32,
)
    requires ready { IsReady parts.old (M.Tagged.memory memory.old) }
    ensures machine { machine_of parts.new (M.Tagged.memory memory.new)
        ≡ after_slice steps (machine_of parts.old (M.Tagged.memory memory.old)) }
    ensures ready { IsReady parts.new (M.Tagged.memory memory.new) }
    ensures kept { M.Tagged.kept memory.old memory.new }
{
    ops.begin_run();
    let mut blocks = T::begin();
    let mut left = u64::from(steps);
    while left > 0 && parts.is_running() {
        left = run_on(ops, parts, memory, edges, &mut blocks, left);
    }
    settle(parts, memory);
}

/// The same slice by the table alone.
#[inline(always)]
pub fn slice_with_edges<M: Paged, E: Edges>(
    ops: &mut OpCache,
    parts: &mut TenantParts,
    memory: &mut M,
    edges: &mut E,
    steps: u32,
)
    requires ready { IsReady parts.old (M.Tagged.memory memory.old) }
    ensures machine { machine_of parts.new (M.Tagged.memory memory.new)
        ≡ after_slice steps (machine_of parts.old (M.Tagged.memory memory.old)) }
    ensures ready { IsReady parts.new (M.Tagged.memory memory.new) }
    ensures kept { M.Tagged.kept memory.old memory.new }
{
    slice_with_blocks::<M, E, NoBlocks>(ops, parts, memory, edges, steps);
}

/// Lets a tenant attempt at most `steps` instructions while it is running and does not yield. It
/// ends where its flag is set then. A table may serve any number of slices, of any tenants. A slice
/// is one run of decoded instructions, since no service changes a page without WRITE.
pub fn slice<M: Paged>(ops: &mut OpCache, parts: &mut TenantParts, memory: &mut M, steps: u32)
    requires ready { IsReady parts.old (M.Tagged.memory memory.old) }
    ensures machine { machine_of parts.new (M.Tagged.memory memory.new)
        ≡ after_slice steps (machine_of parts.old (M.Tagged.memory memory.old)) }
    ensures ready { IsReady parts.new (M.Tagged.memory memory.new) }
    ensures kept { M.Tagged.kept memory.old memory.new }
{
    slice_with_edges(ops, parts, memory, &mut NoEdges, steps);
}

/// Runs to the next service, fault or end, or for `left` instructions; returns how many the slice
/// has left, 0 after a yield.
#[inline(always)]
fn run_on<M: Paged, E: Edges, T: CompiledBlocks>(
    ops: &mut OpCache,
    parts: &mut TenantParts,
    memory: &mut M,
    edges: &mut E,
    blocks: &mut T,
    left: u64,
) -> u64
    requires some { 0 < left }
    requires known { Knows (M.Tagged.memory memory.old) ops.old }
    requires found { T.knows blocks.old (M.Tagged.memory memory.old) }
    requires running { is_running parts.old.history.status ≡ true }
    requires ready { IsReady parts.old (M.Tagged.memory memory.old) }
    ensures rest { after_attempts result (machine_of parts.new (M.Tagged.memory memory.new))
        ≡ after_attempts left (machine_of parts.old (M.Tagged.memory memory.old)) }
    ensures known { Knows (M.Tagged.memory memory.new) ops.new }
    ensures found { T.knows blocks.new (M.Tagged.memory memory.new) }
    ensures fewer { result < left }
    ensures ready { IsReady parts.new (M.Tagged.memory memory.new) }
    ensures kept { M.Tagged.kept memory.old memory.new }
{
    steps_keep_pages();
    condition_of_calls();
    known_words_stay();
    let mut outcome = Outcome::Next;
    let rest = blocks.run(ops, &mut parts.regs, memory, edges, &mut outcome, left);
    parts.history.steps = parts.history.steps.saturating_add(left - rest);
    parts.left = rest;
    if handle(&outcome, parts, memory) {
        rest
    } else {
        0
    }
}

/// Ends the slice, and the tenant where it is running and its flag is set.
#[tactic(auto, unfolding(crate::specs::Machines::after_slice_end))]
pub fn settle<M: Tagged>(parts: &mut TenantParts, memory: &mut M)
    ensures machine { machine_of parts.new (M.memory memory.new)
        ≡ after_slice_end (machine_of parts.old (M.memory memory.old)) }
    ensures heap { parts.new.heap ≡ parts.old.heap }
    ensures tag { parts.new.regs ≡ parts.old.regs }
    ensures memory { M.memory memory.new ≡ M.memory memory.old }
    ensures kept { M.kept memory.old memory.new }
{
    parts.left = 0;
    if parts.is_running() && memory.pending() {
        parts.history.status = Status::AsyncTag(parts.regs.pc);
    }
}

/// Handles an outcome: serves an SVC where the flag is clear, and ends the tenant at anything else
/// that stops a run. Returns whether the slice goes on.
#[tactic(auto, unfolding(crate::specs::Machines::after_outcome))]
#[inline(always)]
pub(crate) fn handle<M: Paged>(outcome: &Outcome, parts: &mut TenantParts, memory: &mut M) -> bool
    requires ready { IsReady parts.old (M.Tagged.memory memory.old) }
    ensures machine { record {
      machine = machine_of parts.new (M.Tagged.memory memory.new);
      goes_on = result;
    }
        ≡ after_outcome outcome.now (machine_of parts.old (M.Tagged.memory memory.old)) }
    ensures fixed { KeepsFixed (M.Tagged.memory memory.old) (M.Tagged.memory memory.new) }
    ensures ready { IsReady parts.new (M.Tagged.memory memory.new) }
    ensures kept { M.Tagged.kept memory.old memory.new }
{
    match outcome {
        Outcome::Svc => {
            if memory.pending() {
                parts.history.status = Status::AsyncTag(parts.regs.pc);
                return true;
            }
            serve(parts, memory)
        }
        _ => {
            end_at(outcome, parts);
            true
        }
    }
}

/// Ends the tenant at an outcome that stops a run and is no SVC.
#[tactic(auto, unfolding(crate::specs::Machines::after_outcome))]
#[cold]
#[inline(never)]
fn end_at(outcome: &Outcome, parts: &mut TenantParts)
    requires { outcome.now ≡ Outcome.Svc → ⊥ }
    ensures machine { (m : Memory)
        → continues (machine_of parts.new m)
        ≡ after_outcome outcome.now (machine_of parts.old m) }
    ensures heap { parts.new.heap ≡ parts.old.heap }
    ensures regs { parts.new.regs ≡ parts.old.regs }
{
    let pc = parts.regs.pc;
    match *outcome {
        Outcome::Next | Outcome::Svc => {}
        Outcome::Fault(fault) => parts.history.status = Status::Faulted(fault, pc),
        Outcome::Illegal(word) => parts.history.status = Status::Illegal(word, pc),
        Outcome::Breakpoint(number) => parts.history.status = Status::Breakpoint(number, pc),
    }
}

/// Serves an SVC; returns whether the slice goes on.
fn serve<M: Paged>(parts: &mut TenantParts, memory: &mut M) -> bool
    requires ready { IsReady parts.old (M.Tagged.memory memory.old) }
    ensures machine { record {
      machine = machine_of parts.new (M.Tagged.memory memory.new);
      goes_on = result;
    }
        ≡ with_service (after_svc parts.old (M.Tagged.memory memory.old)) }
    ensures fixed { KeepsFixed (M.Tagged.memory memory.old) (M.Tagged.memory memory.new) }
    ensures ready { IsReady parts.new (M.Tagged.memory memory.new) }
    ensures kept { M.Tagged.kept memory.old memory.new }
{
    match svc(parts, memory) {
        SvcEnd::Resume => {}
        SvcEnd::Yield => return false,
        SvcEnd::Exit(code) => parts.history.status = Status::Exited(code),
        SvcEnd::Fault(fault) => parts.history.status = Status::Faulted(fault, parts.regs.pc),
        SvcEnd::Abort(abort, pointer) => {
            parts.history.status = Status::Aborted(abort, pointer, parts.regs.pc);
        }
    }
    true
}

/// Stops a tenant where it is running.
#[tactic(auto, unfolding(crate::specs::Machines::after_stop))]
pub fn halt(parts: &mut TenantParts)
    ensures machine { (m : Memory) → machine_of parts.new m ≡ after_stop (machine_of parts.old m) }
    ensures heap { parts.new.heap ≡ parts.old.heap }
    ensures regs { parts.new.regs ≡ parts.old.regs }
{
    if parts.is_running() {
        parts.history.status = Status::Stopped;
    }
}

/// Maps the four pages of a stack.
fn map_stack<M: Paged>(memory: &mut M)
    requires free { (page : ℕ)
        → 65536 ≤ page → page_at (M.Tagged.memory memory.old) page ≡ None }
    requires room { STACK_PAGES ≤ pages_left (M.Tagged.memory memory.old) }
    ensures memory { M.Tagged.memory memory.new
        ≡ with_new_pages (M.Tagged.memory memory.old) (STACK_START / PAGE_SIZE) STACK_PAGES
        data_attrs }
    ensures kept { M.Tagged.kept memory.old memory.new }
{
    match memory.map_pages(STACK_START / PAGE_SIZE, STACK_PAGES as usize, Attrs::DATA) {
        Ok(()) => {}
        Err(_) => unreachable!(),
    }
}

/// The registers at a tenant's first instruction.
#[tactic(auto, unfolding(crate::specs::Machines::first_registers))]
fn registers_at(entry: u64, seed: u64) -> Regs
    ensures { result ≡ first_registers entry seed }
{
    let mut regs = Regs::new(entry, STACK_END);
    regs.rgsr = Rgsr {
        tag: (seed / 65536 % 16) as u8,
        seed: (seed % 65536) as u16,
    };
    regs
}
