//! The exports that replay heap calls, whose arguments may be answers of earlier ones.

ghost use Rattle.std.specs.Prelude.{◌≡◌, ◌≢◌, ◌≤◌, ◌<◌, ◌⊎◌, length, true, false};
ghost use Rattle.std.specs.Prelude.{Err, IfOk, IfErr, OnOk, OnErr};
ghost use Rattle.tombolopan_c.specs.HeapCalls.{is_setup, start_of};
ghost use Rattle.tombolopan_c.specs.HeapReplays.{step_made, replayed, first_bad, HasHeapPages};
ghost use Rattle.tombolopan_c.specs.declared.codes.TheConstants.{OK, BAD_ARGUMENT, OUT_OF_MEMORY};
ghost use Rattle.tombolopan_c.specs.declared.codes.TheConstants.{NO_ROOM};

use crate::codes::{BAD_ARGUMENT, NO_ROOM, OK, OUT_OF_MEMORY};
use crate::heap_lists::make;
use crate::lent_bytes::copy_to;
use crate::lent_heap::HeapSetup;
use crate::lent_step::{HeapStep, find_bad};
use crate::pages::{PageEntry, page_map};
use std::alloc::Global;
use tombolopan::HeapBench;

/// Makes the call of a step of a list, and returns the step with its answer.
#[inline(always)]
fn make_step(bench: &mut HeapBench, steps: &[HeapStep], step: &HeapStep) -> HeapStep
    ensures step { result ≡ (step_made bench.old steps.now step.now).step }
    ensures world { bench.new ≡ (step_made bench.old steps.now step.now).world }
{
    match step.resolved(steps) {
        Some(call) => step.with(&make(bench, &call)),
        None => step.with(&step.call.without_op()),
    }
}

/// Makes the calls of steps in order on a new heap over a memory of its own, enters the answer of
/// each, and returns the heap; or a code, and then no answer is entered.
fn replay(
    alloc: Global,
    setup: &HeapSetup,
    steps: &mut [HeapStep],
    bad: &mut u64,
) -> Result<HeapBench, u32>
    ensures setup { is_setup setup.now ≡ false → (result ≡ Err BAD_ARGUMENT) × (bad.new ≡ 0) }
    ensures bad { is_setup setup.now ≡ true → bad.new ≡ first_bad steps.old }
    ensures refused { is_setup setup.now ≡ true → bad.new ≢ 0 → result ≡ Err BAD_ARGUMENT }
    ensures taken { is_setup setup.now ≡ true → bad.new ≡ 0
        → IfErr result (λ code. code ≡ OUT_OF_MEMORY) }
    ensures codes { IfErr result (λ code. (code ≡ BAD_ARGUMENT) ⊎ (code ≡ OUT_OF_MEMORY)) }
    ensures kept { OnErr result (steps.new ≡ steps.old) }
    ensures answers { OnOk result
        (steps.new ≡ (replayed (start_of setup.now) steps.old (length steps.old)).steps) }
    ensures world { IfOk result
        (λ bench. bench ≡ (replayed (start_of setup.now) steps.old (length steps.old)).world) }
{
    *bad = 0;
    if !setup.is_in_range() {
        return Err(BAD_ARGUMENT);
    }
    *bad = find_bad(steps);
    if *bad != 0 {
        return Err(BAD_ARGUMENT);
    }
    let (mode, rgsr) = (setup.mode(), setup.rgsr());
    let Ok(mut bench) = HeapBench::new(alloc, setup.cookie, setup.pages, mode, rgsr) else {
        return Err(OUT_OF_MEMORY);
    };
    for i in 0..steps.len() {
        let step = steps[i];
        steps[i] = make_step(&mut bench, steps, &step);
    }
    Ok(bench)
}

/// Makes the calls of steps in order on a new heap over a memory of its own, and enters the answer
/// of each. An argument of a call may be the answer of an earlier one. BAD_ARGUMENT where the setup
/// is out of range, with `bad` 0, or where a step is none, with the number of the first such from 1
/// on, and OUT_OF_MEMORY, the only one that asks the allocator, change nothing else.
#[unsafe(no_mangle)]
pub extern "C" fn tb_heap_replay(
    alloc: Global,
    setup: &HeapSetup,
    steps: &mut [HeapStep],
    bad: &mut u64,
) -> u32
    ensures setup { is_setup setup.now ≡ false → (result ≡ BAD_ARGUMENT) × (bad.new ≡ 0) }
    ensures bad { is_setup setup.now ≡ true → bad.new ≡ first_bad steps.old }
    ensures refused { is_setup setup.now ≡ true → bad.new ≢ 0 → result ≡ BAD_ARGUMENT }
    ensures taken { is_setup setup.now ≡ true → bad.new ≡ 0
        → (result ≡ OK) ⊎ (result ≡ OUT_OF_MEMORY) }
    ensures kept { result ≢ OK → steps.new ≡ steps.old }
    ensures answers { result ≡ OK
        → steps.new ≡ (replayed (start_of setup.now) steps.old (length steps.old)).steps }
{
    match replay(alloc, setup, steps, bad) {
        Ok(_) => OK,
        Err(code) => code,
    }
}

/// Makes the calls of steps as `tb_heap_replay` does, and copies as many of the heap's pages as the
/// array holds, each once, in no order. OK where it holds all; NO_ROOM where it does not: `mapped`
/// says how many there are. BAD_ARGUMENT changes nothing but `bad`, and `mapped`, which is 0.
/// OUT_OF_MEMORY leaves the pages as they were, with `mapped` 0; the answers may be entered.
#[unsafe(no_mangle)]
pub extern "C" fn tb_heap_pages(
    alloc: Global,
    setup: &HeapSetup,
    steps: &mut [HeapStep],
    pages: &mut [PageEntry],
    mapped: &mut u64,
    bad: &mut u64,
) -> u32
    ensures setup { is_setup setup.now ≡ false → (result ≡ BAD_ARGUMENT) × (bad.new ≡ 0) }
    ensures bad { is_setup setup.now ≡ true → bad.new ≡ first_bad steps.old }
    ensures refused { is_setup setup.now ≡ true → bad.new ≢ 0 → result ≡ BAD_ARGUMENT }
    ensures taken { is_setup setup.now ≡ true → bad.new ≡ 0
        → (result ≡ OK) ⊎ (result ≡ NO_ROOM) ⊎ (result ≡ OUT_OF_MEMORY) }
    ensures pages { (result ≡ OK) ⊎ (result ≡ NO_ROOM)
        → HasHeapPages setup.now steps.old pages.old pages.new mapped.new }
    ensures answers { (result ≡ OK) ⊎ (result ≡ NO_ROOM)
        → steps.new ≡ (replayed (start_of setup.now) steps.old (length steps.old)).steps }
    ensures room { result ≡ OK → mapped.new ≤ length pages.old }
    ensures short { result ≡ NO_ROOM → length pages.old < mapped.new }
    ensures kept { result ≡ BAD_ARGUMENT → steps.new ≡ steps.old }
    ensures none { (result ≡ BAD_ARGUMENT) ⊎ (result ≡ OUT_OF_MEMORY)
        → (pages.new ≡ pages.old) × (mapped.new ≡ 0) }
{
    *mapped = 0;
    let bench = match replay(alloc, setup, steps, bad) {
        Ok(bench) => bench,
        Err(code) => return code,
    };
    let Ok(entries) = page_map(alloc, bench.memory()) else {
        return OUT_OF_MEMORY;
    };
    *mapped = entries.len() as u64;
    if copy_to(entries.as_slice(), pages) {
        OK
    } else {
        NO_ROOM
    }
}
