//! How a tenant is moved alone.

use crate::points::Points;
use crate::stop::{StopReason, Until};
use a64_bits::plain;
use common::MAX_STEPS;
use debuggee::Debuggee;

/// Moves a tenant on until it has attempted `steps` instructions, or cannot go on. It attempts no
/// more.
pub fn advance(tenant: &mut Debuggee<'_>, steps: u64) {
    run_slices(tenant, steps);
    for _ in tenant.steps()..steps {
        if !tenant.attempt() {
            return;
        }
    }
}

/// Moves it on by whole slices, as long as each of them keeps to the steps.
fn run_slices(tenant: &mut Debuggee<'_>, steps: u64) {
    for _ in 0..steps {
        let left = steps.saturating_sub(tenant.steps());
        if left < MAX_STEPS as u64 || !tenant.attempt_slice() {
            return;
        }
    }
}

/// Attempts the slice that comes next. `false` where it meets no point; `true` also where no slice
/// is attempted, since none comes or one goes on.
fn try_slice(tenant: &mut Debuggee<'_>, points: &Points) -> bool {
    let mut screen = points.screen();
    tenant.forget_hit();
    let is_attempted = tenant.attempt_slice_watched(&mut screen);
    !is_attempted || screen.is_met || tenant.hit().is_some()
}

/// Moves a tenant on by whole slices, up to the end of the first that meets a point or its own end,
/// or up to one with the step `last`; returns how many steps it had attempted before that slice.
pub fn pass_slices(tenant: &mut Debuggee<'_>, points: &Points, last: u64) -> u64 {
    let mut steps = tenant.steps();
    for _ in 0..u64::MAX {
        if tenant.slice_end() >= last || try_slice(tenant, points) || !tenant.can_go_on() {
            return steps;
        }
        steps = tenant.steps();
    }
    steps
}

/// Moves a tenant on up to the first access that is watched or point that stops it; `None` where it
/// ends or has attempted `steps` instructions before that. The access has been made.
pub fn look_ahead(
    tenant: &mut Debuggee<'_>,
    points: &Points,
    until: Until,
    steps: u64,
) -> Option<StopReason> {
    tenant.forget_hit();
    for _ in tenant.steps()..steps {
        if !tenant.attempt() {
            return None;
        }
        if let Some(hit) = tenant.hit() {
            return Some(StopReason::Watch(hit));
        }
        if !tenant.parts().is_running() {
            return None;
        }
        let stop = until.stop_at(points, plain(tenant.regs().pc));
        if stop.is_some() {
            return stop;
        }
    }
    None
}

/// Whether a tenant is about to do an SVC (Arm ARM DDI 0487, "SVC").
pub fn is_at_svc(tenant: &mut Debuggee<'_>) -> bool {
    let pc = plain(tenant.regs().pc);
    match tenant.word_at(pc) {
        Some(word) => word & 0xFFE0_001F == 0xD400_0001,
        None => false,
    }
}

/// The last point on a way.
#[derive(Clone, Copy)]
pub enum LastPoint {
    /// It stops after so many steps, and why.
    At(u64, StopReason),
    /// It is in the slice after so many steps, which ends after as many.
    In(u64, u64),
}

/// Moves a tenant on to a number of steps, by whole slices where it can, and returns the last point
/// on the way that stops it when it moves back from there.
pub fn last_point(tenant: &mut Debuggee<'_>, points: &Points, steps: u64) -> Option<LastPoint> {
    let mut last = None;
    for _ in 0..u64::MAX {
        let before = tenant.steps();
        if before >= steps || !tenant.can_go_on() {
            return last;
        }
        let end = tenant.slice_end();
        let found = if end > steps || !tenant.is_between_slices() {
            let found = last_attempted(tenant, points, end.min(steps));
            found.map(|(step, stop)| LastPoint::At(step, stop))
        } else if try_slice(tenant, points) {
            Some(LastPoint::In(before, tenant.steps()))
        } else {
            None
        };
        if found.is_some() {
            last = found;
        }
    }
    last
}

/// Attempts a tenant's instructions one at a time up to a number of steps, and returns the last
/// point on the way that stops it when it moves back from there: after how many steps, and why.
pub fn last_attempted(
    tenant: &mut Debuggee<'_>,
    points: &Points,
    steps: u64,
) -> Option<(u64, StopReason)> {
    let mut last = None;
    for step in tenant.steps()..steps {
        if points.is_breakpoint(plain(tenant.regs().pc)) {
            last = Some((step, StopReason::Breakpoint));
        }
        tenant.forget_hit();
        if !tenant.attempt() {
            return last;
        }
        if let Some(hit) = tenant.hit() {
            last = Some((step.saturating_add(1), StopReason::Watch(hit)));
        }
    }
    last
}
