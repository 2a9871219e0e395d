//! The exports of a run whose comparisons are entered, and of the memory that a run left.

ghost use Rattle.std.specs.Prelude.{◌≡◌, ◌≢◌, ◌&&◌, length};
ghost use Rattle.tenant_snapshot.specs.Maps.{is_map_length};
ghost use Rattle.mte_tenant.specs.Alone.{after_slices};
ghost use Rattle.tombolopan_c.specs.declared.codes.TheConstants.{OK};
ghost use Rattle.tombolopan_c.specs.LentFuzz.{HasAnswered, HasRead, HasRun, now_of, saved_of};

use crate::alone_end::AloneEnd;
use crate::codes::{BAD_ARGUMENT, NO_MACHINE, NO_REFUSAL, OK, OUT_OF_MEMORY};
use crate::faults::{FaultReport, report};
use crate::fuzz_input::LentFuzzInput;
use std::alloc::Global;
use tenant_snapshot::{
    ComparedEdges, ComparisonEntry, Comparisons, EdgeMap, FuzzHandle, SnapshotTenant,
};

/// Does what `tb_fuzz_run` does, and enters what the instructions of the run compare, and the calls
/// of functions that compare texts. An address has eight places; of each the comparison that comes
/// last stays. BAD_ARGUMENT is also where the entries are no power of two from 256 to 65536; only
/// with OK do entries change.
#[unsafe(no_mangle)]
pub extern "C" fn tb_fuzz_run_compared(
    alloc: Global,
    fuzz: &mut FuzzHandle,
    run: &LentFuzzInput<'_>,
    map: &mut [u8],
    compared: &mut Comparisons<'_, '_>,
    end: &mut AloneEnd,
) -> u32
    ensures code { result ≡ end.new.code }
    ensures ran { HasRun run.now (is_map_length (length map.old)
        && is_map_length (length compared.old.entries.now)) fuzz.old.value fuzz.new.value end.new }
    ensures map { result ≢ OK → map.new ≡ map.old }
    ensures entries { result ≢ OK → compared.new.entries.now ≡ compared.old.entries.now }
{
    *end = compare_kept(alloc, fuzz, run, map, compared);
    end.code
}

/// Runs the machine that a handle holds, if it holds one, and reports how the tenant ended.
fn compare_kept(
    alloc: Global,
    fuzz: &mut FuzzHandle,
    run: &LentFuzzInput<'_>,
    map: &mut [u8],
    compared: &mut Comparisons<'_, '_>,
) -> AloneEnd
    ensures ran { HasRun run.now (is_map_length (length map.old)
        && is_map_length (length compared.old.entries.now)) fuzz.old.value fuzz.new.value result }
    ensures map { result.code ≢ OK → map.new ≡ map.old }
    ensures entries { result.code ≢ OK → compared.new.entries.now ≡ compared.old.entries.now }
{
    match fuzz.take(alloc) {
        Some(mut machine) => {
            let told = answer_compared(alloc, &mut machine, run, map, compared);
            fuzz.put(machine);
            told
        }
        None => AloneEnd::without_tenant(NO_MACHINE, NO_REFUSAL),
    }
}

/// Runs a machine with an input, enters its comparisons, and reports how the tenant ended.
fn answer_compared(
    alloc: Global,
    machine: &mut SnapshotTenant,
    run: &LentFuzzInput<'_>,
    map: &mut [u8],
    compared: &mut Comparisons<'_, '_>,
) -> AloneEnd
    ensures answered { HasAnswered run.now (is_map_length (length map.old)
        && is_map_length (length compared.old.entries.now)) machine.old machine.new result }
    ensures saved { saved_of machine.new ≡ saved_of machine.old }
    ensures map { result.code ≢ OK → map.new ≡ map.old }
    ensures entries { result.code ≢ OK → compared.new.entries.now ≡ compared.old.entries.now }
{
    if !EdgeMap::fits(map.len()) || !EdgeMap::fits(compared.entries.len()) {
        return AloneEnd::without_tenant(BAD_ARGUMENT, NO_REFUSAL);
    }
    if machine.restore(alloc, run.input).is_err() {
        return AloneEnd::without_tenant(OUT_OF_MEMORY, NO_REFUSAL);
    }
    run_compared(
        machine,
        run,
        map,
        compared.functions,
        &mut *compared.entries,
    );
    AloneEnd::of_record(OK, &machine.parts.history)
}

/// Runs a machine for slices, counts its branches, and enters its comparisons.
fn run_compared(
    machine: &mut SnapshotTenant,
    run: &LentFuzzInput<'_>,
    map: &mut [u8],
    functions: &[u64],
    entries: &mut [ComparisonEntry],
)
    ensures machine { now_of machine.new ≡ after_slices (now_of machine.old) run.now.slices.now }
    ensures saved { saved_of machine.new ≡ saved_of machine.old }
{
    let map = EdgeMap::new(map, run.saturating != 0);
    let mut edges = ComparedEdges::new(map, functions, entries);
    run_slices(machine, &mut edges, run.slices);
}

/// Runs a machine for slices, and enters its comparisons.
fn run_slices(machine: &mut SnapshotTenant, edges: &mut ComparedEdges<'_, '_, '_>, slices: &[u32])
    ensures machine { now_of machine.new ≡ after_slices (now_of machine.old) slices.now }
    ensures saved { saved_of machine.new ≡ saved_of machine.old }
{
    for steps in slices {
        machine.slice_compared(edges, *steps);
    }
}

/// Copies bytes out of the memory of the machine that a handle holds, as its last run left it:
/// pages with READ, whatever their tags. OK; NO_MACHINE, and FAULT where the bytes cannot be read,
/// change nothing.
#[unsafe(no_mangle)]
pub extern "C" fn tb_fuzz_read(
    alloc: Global,
    fuzz: &mut FuzzHandle,
    addr: u64,
    buffer: &mut [u8],
) -> u32
    ensures { HasRead addr fuzz.old.value fuzz.new.value buffer.old buffer.new result }
{
    match fuzz.take(alloc) {
        Some(mut machine) => {
            let answer = machine.read(addr, buffer);
            fuzz.put(machine);
            report(answer, &mut FaultReport::none())
        }
        None => NO_MACHINE,
    }
}
