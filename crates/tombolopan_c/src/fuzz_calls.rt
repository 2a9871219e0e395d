//! The exports that run a tenant many times from one snapshot, each time with another input.

ghost use Rattle.std.specs.Prelude.{◌≡◌, ◌≢◌, length, None, Some, IfOk};
ghost use Rattle.mte_tenant.specs.Machines.{start_of};
ghost use Rattle.mte_tenant.specs.Alone.{after_slices, refusal_alone};
ghost use Rattle.tenant_snapshot.specs.Maps.{is_map_length};
ghost use Rattle.tombolopan_c.specs.declared.codes.TheConstants.{OK};
ghost use Rattle.tombolopan_c.specs.LoneTenants.{lent_start};
ghost use Rattle.tombolopan_c.specs.LentFuzz.{HasSaved, HasRun, HasAnswered, now_of, saved_of};
ghost use Rattle.tombolopan_c.specs.LentFuzz.{no_finding, after_run};

use crate::alone_end::AloneEnd;
use crate::blocks::Hot;
use crate::codes::{BAD_ARGUMENT, NO_MACHINE, NO_REFUSAL, OK, OUT_OF_MEMORY};
use crate::fuzz_answer::{FuzzAnswer, FuzzFinding};
use crate::fuzz_input::LentFuzzInput;
use crate::lent_terms::LentTerms;
use heap_bounds::Bounds;
use std::alloc::{AllocError, Global};
use tenant_snapshot::{EdgeMap, FuzzHandle, RunWatch, SnapshotTenant};

/// Admits a tenant alone, runs the slices of `terms`, and keeps the machine as it is then; a
/// machine that the handle held is freed first. OK; REFUSED and OUT_OF_MEMORY leave a handle that
/// holds none.
#[unsafe(no_mangle)]
pub extern "C" fn tb_fuzz_new(
    alloc: Global,
    terms: &LentTerms<'_>,
    fuzz: &mut FuzzHandle,
    end: &mut AloneEnd,
) -> u32
    ensures code { result ≡ end.new.code }
    ensures saved { HasSaved terms.now fuzz.new.value end.new }
{
    fuzz.free(alloc);
    *end = match SnapshotTenant::new(alloc, &terms.admission()) {
        Ok(machine) => set_up(alloc, machine, terms, fuzz),
        Err(obstacle) => AloneEnd::of_obstacle(obstacle),
    };
    end.code
}

/// Runs the setup of a machine, keeps it as it is then, and reports where the tenant is. The setup
/// is watched, so that a run may be exact.
fn set_up(
    alloc: Global,
    machine: SnapshotTenant,
    terms: &LentTerms<'_>,
    fuzz: &mut FuzzHandle,
) -> AloneEnd
    requires accepted { refusal_alone 0 (lent_start terms.now) ≡ None }
    requires fresh { now_of machine ≡ start_of 0 (lent_start terms.now) }
    requires none { fuzz.old.value ≡ None }
    ensures { HasSaved terms.now fuzz.new.value result }
{
    let mut machine = machine;
    let mut watch = RunWatch::shown_after(u64::MAX, None, Some(Bounds::new(alloc)));
    run_slices(&mut machine, &mut watch, terms.slices);
    let end = AloneEnd::of_record(OK, &machine.parts.history);
    let Ok(kept) = saved(alloc, machine, watch) else {
        return AloneEnd::without_tenant(OUT_OF_MEMORY, NO_REFUSAL);
    };
    fuzz.put(kept);
    end
}

/// A machine as its own snapshot, with the chunks that a watch of its setup has found.
fn saved(
    alloc: Global,
    machine: SnapshotTenant,
    watch: RunWatch<'_>,
) -> Result<Box<SnapshotTenant>, AllocError>
    ensures machine { IfOk result (λ kept. now_of kept.value ≡ now_of machine) }
    ensures saved { IfOk result (λ kept. saved_of kept.value ≡ now_of machine) }
{
    let mut machine = machine;
    let Some(chunks) = watch.into_chunks() else {
        return Err(AllocError);
    };
    machine.chunks = chunks;
    machine.save(alloc)?;
    let kept = Box::new(alloc, machine)?;
    Ok(kept)
}

/// Runs a machine for slices, whatever watches it.
fn run_slices(machine: &mut SnapshotTenant, watch: &mut RunWatch<'_>, slices: &[u32])
    ensures machine { now_of machine.new ≡ after_slices (now_of machine.old) slices.now }
    ensures saved { saved_of machine.new ≡ saved_of machine.old }
{
    for steps in slices {
        machine.slice_with::<Hot>(watch, *steps);
    }
}

/// Makes the machine what it was after its setup, with an input, and runs it for slices; counts
/// its edges in `map`. OK; NO_MACHINE where the handle holds none, BAD_ARGUMENT
/// where the length of the map is no power of two from 256 to 65536 and OUT_OF_MEMORY change
/// nothing but `end`.
#[unsafe(no_mangle)]
pub extern "C" fn tb_fuzz_run(
    alloc: Global,
    fuzz: &mut FuzzHandle,
    run: &LentFuzzInput<'_>,
    map: &mut [u8],
    end: &mut AloneEnd,
) -> u32
    ensures code { result ≡ end.new.code }
    ensures ran { HasRun run.now (is_map_length (length map.old))
        fuzz.old.value fuzz.new.value end.new }
    ensures map { result ≢ OK → map.new ≡ map.old }
{
    let told = run_kept(alloc, fuzz, run, map, false);
    *end = told.end;
    end.code
}

/// Does what `tb_fuzz_run` does, and reports the first access of the run to bytes of the heap that
/// no live chunk has, or that the chunk there has not, whatever the tags. The run goes on after it.
/// Where no run was done, `finding` has none.
#[unsafe(no_mangle)]
pub extern "C" fn tb_fuzz_run_exact(
    alloc: Global,
    fuzz: &mut FuzzHandle,
    run: &LentFuzzInput<'_>,
    map: &mut [u8],
    end: &mut AloneEnd,
    finding: &mut FuzzFinding,
) -> u32
    ensures code { result ≡ end.new.code }
    ensures ran { HasRun run.now (is_map_length (length map.old))
        fuzz.old.value fuzz.new.value end.new }
    ensures map { result ≢ OK → map.new ≡ map.old }
    ensures none { result ≢ OK → finding.new ≡ no_finding }
{
    let told = run_kept(alloc, fuzz, run, map, true);
    *end = told.end;
    *finding = told.finding;
    end.code
}

/// Runs the machine that a handle holds, if it holds one, and reports how the tenant ended.
fn run_kept(
    alloc: Global,
    fuzz: &mut FuzzHandle,
    run: &LentFuzzInput<'_>,
    map: &mut [u8],
    is_exact: bool,
) -> FuzzAnswer
    ensures ran { HasRun run.now (is_map_length (length map.old))
        fuzz.old.value fuzz.new.value result.end }
    ensures map { result.end.code ≢ OK → map.new ≡ map.old }
    ensures none { result.end.code ≢ OK → result.finding ≡ no_finding }
{
    match fuzz.take(alloc) {
        Some(mut machine) => {
            let told = answer(alloc, &mut machine, run, map, is_exact);
            fuzz.put(machine);
            told
        }
        None => FuzzAnswer::without_run(NO_MACHINE),
    }
}

/// Runs a machine with an input, and reports how the tenant ended, and what was found if the run is
/// to be exact.
fn answer(
    alloc: Global,
    machine: &mut SnapshotTenant,
    run: &LentFuzzInput<'_>,
    map: &mut [u8],
    is_exact: bool,
) -> FuzzAnswer
    ensures answered { HasAnswered run.now (is_map_length (length map.old)) machine.old machine.new
        result.end }
    ensures saved { saved_of machine.new ≡ saved_of machine.old }
    ensures map { result.end.code ≢ OK → map.new ≡ map.old }
    ensures none { result.end.code ≢ OK → result.finding ≡ no_finding }
{
    if !EdgeMap::fits(map.len()) {
        return FuzzAnswer::without_run(BAD_ARGUMENT);
    }
    let Ok(chunks) = chunks_of(alloc, machine, is_exact) else {
        return FuzzAnswer::without_run(OUT_OF_MEMORY);
    };
    if machine.restore(alloc, run.input).is_err() {
        return FuzzAnswer::without_run(OUT_OF_MEMORY);
    }
    let map = EdgeMap::new(map, run.saturating != 0);
    let mut watch = RunWatch::shown_after(u64::MAX, map, chunks);
    run_slices(machine, &mut watch, run.slices);
    let finding = finding_of(alloc, machine, run, &watch);
    FuzzAnswer {
        end: AloneEnd::of_record(OK, &machine.parts.history),
        finding,
    }
}

/// What a watch of a run found. Where an access may have been wrong, the machine runs once more.
fn finding_of(
    alloc: Global,
    machine: &mut SnapshotTenant,
    run: &LentFuzzInput<'_>,
    watch: &RunWatch<'_>,
) -> FuzzFinding
    requires ran { now_of machine.old ≡ after_run run.now (saved_of machine.old) }
    ensures ran { now_of machine.new ≡ after_run run.now (saved_of machine.old) }
    ensures saved { saved_of machine.new ≡ saved_of machine.old }
{
    match watch.suspect() {
        Some(steps) => judge_after(alloc, machine, run, steps),
        None => FuzzFinding::of(watch.finding(), watch.is_complete()),
    }
}

/// Runs the machine once more, and judges each access after so many steps. Where memory is refused,
/// nothing is judged.
fn judge_after(
    alloc: Global,
    machine: &mut SnapshotTenant,
    run: &LentFuzzInput<'_>,
    steps: u64,
) -> FuzzFinding
    requires ran { now_of machine.old ≡ after_run run.now (saved_of machine.old) }
    ensures ran { now_of machine.new ≡ after_run run.now (saved_of machine.old) }
    ensures saved { saved_of machine.new ≡ saved_of machine.old }
{
    let Ok(chunks) = machine.chunks.copy(alloc) else {
        return FuzzFinding::of(None, false);
    };
    if machine.restore(alloc, run.input).is_err() {
        return FuzzFinding::of(None, false);
    }
    let mut watch = RunWatch::shown_after(steps, None, Some(chunks));
    run_slices(machine, &mut watch, run.slices);
    FuzzFinding::of(watch.finding(), watch.is_complete())
}

/// The chunks with which an exact run begins; none for another run.
fn chunks_of(
    alloc: Global,
    machine: &SnapshotTenant,
    is_exact: bool,
) -> Result<Option<Bounds>, AllocError> {
    if !is_exact {
        return Ok(None);
    }
    let chunks = machine.chunks.copy(alloc)?;
    Ok(Some(chunks))
}

/// Frees the machine that a handle holds, if it holds one; then it holds none.
#[unsafe(no_mangle)]
pub extern "C" fn tb_fuzz_free(alloc: Global, fuzz: &mut FuzzHandle)
    ensures { fuzz.new.value ≡ None }
{
    fuzz.free(alloc);
}
