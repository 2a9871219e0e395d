//! The export that makes heap calls.

ghost use Rattle.std.specs.Prelude.{◌≡◌, ◌≢◌, ◌⊎◌, ℕ, ◌<◌, length, slice_index_or, true, false};
ghost use Rattle.tombolopan_c.specs.HeapCalls.{is_setup, after_heap_call, start_of, call_made};
ghost use Rattle.tombolopan_c.specs.declared.codes.TheConstants.{OK, BAD_ARGUMENT, OUT_OF_MEMORY};

use crate::codes::{BAD_ARGUMENT, OK, OUT_OF_MEMORY};
use crate::lent_heap::{HeapSetup, LentHeapCall};
use std::alloc::Global;
use tombolopan::HeapBench;

/// Makes a call, where its operation is one, and returns it with its answer.
pub(crate) fn make(bench: &mut HeapBench, call: &LentHeapCall) -> LentHeapCall
    ensures call { result ≡ (after_heap_call bench.old call.now).call }
    ensures world { bench.new ≡ (after_heap_call bench.old call.now).world }
{
    match call.op() {
        Some(op) => call.with(&bench.answer(&op)),
        None => call.without_op(),
    }
}

/// Makes calls in order on a new heap over a memory of its own, and enters the answer of each.
/// BAD_ARGUMENT where the setup is out of range and OUT_OF_MEMORY, the only one that asks the
/// allocator, change nothing.
#[unsafe(no_mangle)]
pub extern "C" fn tb_heap_calls(alloc: Global, setup: &HeapSetup, calls: &mut [LentHeapCall]) -> u32
    ensures refused { is_setup setup.now ≡ false → result ≡ BAD_ARGUMENT }
    ensures taken { is_setup setup.now ≡ true → (result ≡ OK) ⊎ (result ≡ OUT_OF_MEMORY) }
    ensures kept { result ≢ OK → calls.new ≡ calls.old }
    ensures count { length calls.new ≡ length calls.old }
    ensures answers { result ≡ OK → (k : ℕ) (d : LentHeapCall)
        → k < length calls.old
        → slice_index_or calls.new k d ≡ call_made (start_of setup.now) calls.old k d }
{
    if !setup.is_in_range() {
        return BAD_ARGUMENT;
    }
    let (mode, rgsr) = (setup.mode(), setup.rgsr());
    let Ok(mut bench) = HeapBench::new(alloc, setup.cookie, setup.pages, mode, rgsr) else {
        return OUT_OF_MEMORY;
    };
    for call in calls.iter_mut() {
        *call = make(&mut bench, call);
    }
    OK
}
