//! Earlier states of a tenant, from which it is moved back.

use crate::ways::advance;
use debuggee::Debuggee;
use std::alloc::{AllocError, Global};

/// How many steps a search goes through at first, and how many are between checkpoints at least.
pub(crate) const INTERVAL: u64 = 1 << 19;

/// How many steps before its end a way of many steps leaves a checkpoint.
const NEAR: u64 = 1 << 13;

/// Two copies of a tenant, each where it was. Where one is lost, only time is.
pub(crate) struct Checkpoints<'a> {
    /// Where a search began, or what was the near one.
    far: Option<Debuggee<'a>>,
    /// The one that is made as the tenant moves.
    near: Option<Debuggee<'a>>,
}

impl<'a> Drop for Checkpoints<'a> {
    fn drop(self) {
        let Checkpoints { far: _, near: _ } = self;
    }
}

impl<'a> Checkpoints<'a> {
    /// None.
    pub(crate) fn new() -> Checkpoints<'a> {
        Checkpoints {
            far: None,
            near: None,
        }
    }

    /// Notes where a tenant is, if it is an interval after all that were noted.
    pub(crate) fn note(&mut self, alloc: Global, tenant: &Debuggee<'a>) {
        let last = steps_of(&self.far).max(steps_of(&self.near));
        if tenant.steps() < last.saturating_add(INTERVAL) {
            return;
        }
        self.far = self.near.take();
        leave(&mut self.near, alloc, tenant);
    }

    /// A tenant that has attempted `steps` instructions, from the last checkpoint on the way or
    /// else from its start. After many steps it leaves a checkpoint shortly before.
    pub(crate) fn past(
        &mut self,
        alloc: Global,
        tenant: &Debuggee<'a>,
        steps: u64,
    ) -> Result<Debuggee<'a>, AllocError> {
        let mut past = self.begin(alloc, tenant, steps)?;
        go_on(&mut past, alloc, steps, NEAR, &mut self.near);
        Ok(past)
    }

    /// The same for a search that begins after `steps` instructions. After many steps it leaves a
    /// checkpoint an interval before, for the next search.
    pub(crate) fn past_of_search(
        &mut self,
        alloc: Global,
        tenant: &Debuggee<'a>,
        steps: u64,
    ) -> Result<Debuggee<'a>, AllocError> {
        let mut past = self.begin(alloc, tenant, steps)?;
        go_on(&mut past, alloc, steps, INTERVAL, &mut self.far);
        Ok(past)
    }

    /// A copy of the last checkpoint within some steps, or the tenant at its start.
    fn begin(
        &self,
        alloc: Global,
        tenant: &Debuggee<'a>,
        steps: u64,
    ) -> Result<Debuggee<'a>, AllocError> {
        let far = self.far.as_ref().filter(|it| it.steps() <= steps);
        let near = self.near.as_ref().filter(|it| it.steps() <= steps);
        let last = match (far, near) {
            (Some(far), Some(near)) if near.steps() < far.steps() => Some(far),
            (far, near) => near.or(far),
        };
        match last {
            Some(checkpoint) => checkpoint.copy(alloc),
            None => tenant.anew(alloc),
        }
    }
}

/// Moves a tenant on until it has attempted `steps` instructions. After more than twice a distance
/// it leaves a checkpoint that distance before.
fn go_on<'a>(
    past: &mut Debuggee<'a>,
    alloc: Global,
    steps: u64,
    distance: u64,
    place: &mut Option<Debuggee<'a>>,
) {
    if past.steps().saturating_add(distance.saturating_mul(2)) < steps {
        advance(past, steps.saturating_sub(distance));
        leave(place, alloc, past);
    }
    advance(past, steps);
}

/// Leaves a copy of a tenant in a place, where there is memory for one. What was there is given
/// back first.
fn leave<'a>(place: &mut Option<Debuggee<'a>>, alloc: Global, tenant: &Debuggee<'a>) {
    *place = None;
    *place = tenant.copy(alloc).ok();
}

/// How many instructions a tenant has attempted; none where it is not there.
fn steps_of(tenant: &Option<Debuggee<'_>>) -> u64 {
    match tenant {
        Some(tenant) => tenant.steps(),
        None => 0,
    }
}
