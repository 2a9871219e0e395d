//! What a check of a tenant's run finds first, before GDB moves the tenant.

use crate::limits::failure_of;
use crate::request::RunRequest;
use debuggee::Cuts;
use mte_tenant::Admission;
use run_cause::Finding;
use run_terms::Failure;
use std::alloc::Global;
use tenant_run::{Observer, TenantBench, WatchLevel, Watcher, finder_of};

/// What the checks that are requested find first in a tenant that is admitted like this and cut
/// into slices, if they find something. It runs to its end for that.
pub(crate) fn first_finding<'a>(
    request: &RunRequest<'a, '_>,
    admission: &Admission<'_>,
    cuts: &Cuts<'_>,
) -> Result<Option<Finding>, Failure<'a>> {
    let (alloc, options) = (request.rt.alloc(), request.options);
    let mut observer = finder_of(alloc, options, admission.image, request.suppressions)?;
    found_by(alloc, admission, cuts, &mut observer)
}

/// What a watch finds first, if it watches for anything. It is borrowed, so that no end has to drop
/// it.
fn found_by<'a>(
    alloc: Global,
    admission: &Admission<'_>,
    cuts: &Cuts<'_>,
    observer: &mut Observer<'_>,
) -> Result<Option<Finding>, Failure<'a>> {
    if observer.shown == WatchLevel::Nothing {
        return Ok(None);
    }
    let steps = run_cuts(alloc, admission, cuts, observer)?;
    if observer.is_suspicious() {
        observer.restart(alloc, steps)?;
        run_cuts(alloc, admission, cuts, observer)?;
    }
    match observer.full() {
        Some(full) => Err(failure_of(full)),
        None => Ok(observer.finding().copied()),
    }
}

/// Runs a tenant from its first instruction, and returns how many steps it attempted.
fn run_cuts<'a, O: Watcher>(
    alloc: Global,
    admission: &Admission<'_>,
    cuts: &Cuts<'_>,
    watcher: &mut O,
) -> Result<u64, Failure<'a>> {
    match TenantBench::new(alloc, admission) {
        Ok(mut bench) => Ok(run_bench(&mut bench, cuts, watcher)),
        Err(_) => Err(Failure::Memory),
    }
}

/// Runs a tenant to its end or that of its slices, and returns how many steps it attempted.
fn run_bench<O: Watcher>(bench: &mut TenantBench, cuts: &Cuts<'_>, watcher: &mut O) -> u64 {
    for slices in 0..u64::MAX {
        let steps = cuts.next(slices, bench.parts.history.steps);
        if steps == 0 || watcher.has_ended() || !bench.parts.is_running() {
            break;
        }
        bench.slice(watcher, steps);
    }
    bench.parts.history.steps
}
