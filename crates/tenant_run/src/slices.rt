//! The slices of a tenant that is alone.

use crate::bench::{TenantBench, Watcher};
use crate::output_stream::OutputStream;
use common::MAX_STEPS;
use run_terms::Options;

/// Runs the slices that are named, or as many as the limit of steps holds.
pub fn run_slices<O: Watcher>(
    bench: &mut TenantBench,
    watcher: &mut O,
    out: &mut OutputStream<'_>,
    options: &Options,
    limit: u64,
) {
    match &options.length.slices {
        Some(slices) => {
            for steps in slices {
                run_slice(bench, watcher, out, *steps, limit);
            }
        }
        None => {
            for _ in 0..limit {
                if is_over(bench, watcher, out, limit) {
                    return;
                }
                run_slice(bench, watcher, out, MAX_STEPS as u32, limit);
            }
        }
    }
}

/// Whether no slice follows.
fn is_over<O: Watcher>(
    bench: &TenantBench,
    watcher: &O,
    out: &OutputStream<'_>,
    limit: u64,
) -> bool {
    watcher.has_ended()
        || out.ends_run()
        || !bench.parts.is_running()
        || bench.parts.history.steps >= out.limit(limit)
}

/// Runs a slice, or what the limit of steps leaves of it, and writes what it wrote, unless an
/// access ended the tenant within it.
fn run_slice<O: Watcher>(
    bench: &mut TenantBench,
    watcher: &mut O,
    out: &mut OutputStream<'_>,
    steps: u32,
    limit: u64,
) {
    let left = out.limit(limit).saturating_sub(bench.parts.history.steps);
    bench.slice(watcher, u32::try_from(left).unwrap_or(u32::MAX).min(steps));
    if !watcher.has_ended() {
        out.update(&bench.parts);
    }
}
