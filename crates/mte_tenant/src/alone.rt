//! A tenant alone, on a memory of its own, and what watches it.

ghost use Rattle.std.specs.Prelude.{◌≡◌, ◌<◌, [], ◌∷◌, Some, None, true, false};
ghost use Rattle.std.specs.Prelude.{IfOk, IfErr, IsErrOf, OnOk, OnErr};
ghost use Rattle.common.specs.Obstacles.{IfRefused};
ghost use Rattle.mte_tags.specs.Memory.{no_pages};
ghost use Rattle.mte_svc.specs.Ready.{IsReady};
ghost use Rattle.mte_svc.specs.Results.{is_running};
ghost use Rattle.mte_tenant.specs.Ledger.{admission_refusal, charge_of, facts_of, is_bad};
ghost use Rattle.mte_tenant.specs.Machines.{machine_of, start_of, after_attempt, after_attempts};
ghost use Rattle.mte_tenant.specs.Machines.{after_slice};
ghost use Rattle.mte_tenant.specs.Watched.{WatchLog, with_shown, shown_of, Before, After};
ghost use Rattle.mte_tenant.specs.Admissions.{start_in};

use crate::admission::{Admission, AdmitError, LedgerFacts, accept, accepted_means, charge};
use crate::machine::{fill, handle, settle, start_parts};
use a64_step::{Decoder, run, steps_keep_pages};
use common::Obstacle;
use mte_svc::TenantParts;
use mte_tags::Paged;
use scudo_heap::condition_of_calls;
use std::alloc::Global;

/// A watch of a tenant: it is shown the machine before and after each attempt, and changes
/// nothing of it.
pub trait Watch {
    /// The machines that it was shown, as far as they are known.
    ghost log: { Self → WatchLog };

    /// An instruction is attempted next.
    fn before<M: Paged>(&mut self, parts: &TenantParts, memory: &mut M)
        ensures log { log self.new ≡ with_shown (log self.old)
            (Before (machine_of parts.now (M.Tagged.memory memory.old)) ∷ []) }
        ensures memory { M.Tagged.memory memory.new ≡ M.Tagged.memory memory.old }
        ensures kept { M.Tagged.kept memory.old memory.new };

    /// It was attempted, and its service served where it was an SVC.
    fn after<M: Paged>(&mut self, parts: &TenantParts, memory: &mut M)
        ensures log { log self.new ≡ with_shown (log self.old)
            (After (machine_of parts.now (M.Tagged.memory memory.old)) ∷ []) }
        ensures memory { M.Tagged.memory memory.new ≡ M.Tagged.memory memory.old }
        ensures kept { M.Tagged.kept memory.old memory.new };
}

/// Admits a tenant to a memory of its own that has no pages: maps and loads its image and its
/// stack, or returns the first refusal that applies, that of a host which has no tenant and just
/// the frames that it is charged. Only `OutOfMemory`, where an allocation failed, can come in place
/// of the refusals from `Image` on.
#[tactic(auto, unfolding(crate::specs::Ledger::admission_refusal))]
pub fn admit_alone<M: Paged>(
    alloc: Global,
    admission: &Admission<'_>,
    memory: &mut M,
) -> Result<TenantParts, Obstacle<AdmitError>>
    requires empty { M.Tagged.memory memory.old
        ≡ no_pages admission.now.terms.pages admission.now.terms.mode }
    ensures machine { IfOk result (λ parts. machine_of parts (M.Tagged.memory memory.new)
        ≡ start_of admission.now.id (start_in admission.now)) }
    ensures ready { IfOk result (λ parts. IsReady parts (M.Tagged.memory memory.new)) }
    ensures accepted { OnOk result (admission_refusal (charge_of admission.now.terms.pages) []
        admission.now.id (start_in admission.now) ≡ None) }
    ensures refused { IfErr result (λ o. IfRefused o (λ e.
        admission_refusal (charge_of admission.now.terms.pages) []
        admission.now.id (start_in admission.now) ≡ Some e)) }
    ensures memory { IsErrOf result Obstacle.OutOfMemory
        → is_bad admission.now.terms ≡ false }
    ensures err { OnErr result (M.Tagged.memory memory.new ≡ M.Tagged.memory memory.old) }
    ensures kept { M.Tagged.kept memory.old memory.new }
{
    condition_of_calls();
    let facts = facts_alone(admission);
    let plan = accept(alloc, admission, facts)?;
    accepted_means(facts, admission);
    let parts = start_parts(alloc, admission, &plan)?;
    fill(
        &plan,
        admission.image,
        admission.terms.pages,
        admission.terms.mode,
        memory,
    );
    Ok(parts)
}

/// The facts of the ledger of a host that has no tenant and just the frames of the charge.
fn facts_alone(admission: &Admission<'_>) -> LedgerFacts
    ensures { result ≡ facts_of (charge_of admission.now.terms.pages) [] admission.now.id }
{
    LedgerFacts {
        known: false,
        left: charge(admission.terms.pages),
        live: 0,
    }
}

/// A slice that is watched: what `slice` makes of the machine, whatever watches it. Each attempt is
/// shown once, in order.
pub fn slice_watched<M: Paged, W: Watch>(
    watch: &mut W,
    parts: &mut TenantParts,
    memory: &mut M,
    steps: u32,
)
    requires ready { IsReady parts.old (M.Tagged.memory memory.old) }
    ensures machine { machine_of parts.new (M.Tagged.memory memory.new)
        ≡ after_slice steps (machine_of parts.old (M.Tagged.memory memory.old)) }
    ensures shown { W.log watch.new ≡ with_shown (W.log watch.old)
        (shown_of steps (machine_of parts.old (M.Tagged.memory memory.old))) }
    ensures ready { IsReady parts.new (M.Tagged.memory memory.new) }
    ensures kept { M.Tagged.kept memory.old memory.new }
{
    attempt_all(watch, parts, memory, u64::from(steps));
    settle(parts, memory);
}

/// Attempts what is left of a slice, each attempt shown once, in order.
pub(crate) fn attempt_all<M: Paged, W: Watch>(
    watch: &mut W,
    parts: &mut TenantParts,
    memory: &mut M,
    steps: u64,
)
    requires ready { IsReady parts.old (M.Tagged.memory memory.old) }
    ensures machine { machine_of parts.new (M.Tagged.memory memory.new)
        ≡ after_attempts steps (machine_of parts.old (M.Tagged.memory memory.old)) }
    ensures shown { W.log watch.new ≡ with_shown (W.log watch.old)
        (shown_of steps (machine_of parts.old (M.Tagged.memory memory.old))) }
    ensures ready { IsReady parts.new (M.Tagged.memory memory.new) }
    ensures kept { M.Tagged.kept memory.old memory.new }
{
    let mut decoder = Decoder::new();
    let mut left = steps;
    while left > 0 && parts.is_running() {
        watch.before(parts, memory);
        let rest = left - 1;
        let goes_on = attempt(&mut decoder, parts, memory, rest);
        watch.after(parts, memory);
        left = if goes_on { rest } else { 0 };
    }
}

/// Attempts one instruction of a slice, which has `left` more; returns whether the slice goes on. A
/// slice is such attempts while it goes on, has steps left and the tenant is running, and `settle`.
pub fn attempt<M: Paged>(
    decoder: &mut Decoder,
    parts: &mut TenantParts,
    memory: &mut M,
    left: u64,
) -> bool
    requires running { is_running parts.old.history.status ≡ true }
    requires ready { IsReady parts.old (M.Tagged.memory memory.old) }
    ensures machine { record {
      machine = machine_of parts.new (M.Tagged.memory memory.new);
      goes_on = result;
    }
        ≡ after_attempt left (machine_of parts.old (M.Tagged.memory memory.old)) }
    ensures ready { IsReady parts.new (M.Tagged.memory memory.new) }
    ensures kept { M.Tagged.kept memory.old memory.new }
{
    steps_keep_pages();
    condition_of_calls();
    let stop = run(decoder, &mut parts.regs, memory, 1);
    parts.history.steps = parts.history.steps.saturating_add(1);
    parts.left = left;
    match stop.outcome {
        Some(outcome) => handle(&outcome, parts, memory),
        None => true,
    }
}
