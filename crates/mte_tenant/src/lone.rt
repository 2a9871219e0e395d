//! A tenant alone on a memory of its own.

ghost use Rattle.std.specs.Prelude.{◌≡◌, ◌<◌, Some, None, false, IfOk, IfErr, OnOk, IsErrOf};
ghost use Rattle.common.specs.Obstacles.{IfRefused};
ghost use Rattle.mte_svc.specs.Ready.{IsReady};
ghost use Rattle.mte_tenant.specs.Admissions.{start_in};
ghost use Rattle.mte_tenant.specs.Ledger.{is_bad};
ghost use Rattle.mte_tenant.specs.Alone.{refusal_alone, record_after};

use crate::admission::{Admission, AdmitError, is_bad_reservation};
use crate::alone::admit_alone;
use crate::machine::slice;
use a64_run::OpCache;
use common::Obstacle;
use mte_flat::Flat;
use mte_svc::{Record, TenantParts};
use std::alloc::Global;

/// A tenant's machine, as the definition has it: it is made by `admit_alone` and changed by slices
/// alone.
#[derive(Drop)]
pub struct Lone {
    /// All but its memory: its record, registers, heap and input.
    pub parts: TenantParts,
    /// Its memory.
    pub memory: Flat,
    /// Its decoded instructions.
    pub words: OpCache,
    ghost ready: { IsReady parts memory },
}

impl Lone {
    ghost use Rattle.mte_tenant.specs.Machines.{machine_of, start_of, after_slice};
    ghost use Rattle.mte_tenant.specs.Alone.{after_slices};

    /// A tenant at its first instruction, or why it is refused. Only `OutOfMemory`, where an
    /// allocation failed, can come instead of the refusals from `Image` on.
    #[tactic(auto, unfolding(crate::specs::Ledger::admission_refusal))]
    pub fn new(alloc: Global, admission: &Admission<'_>) -> Result<Lone, Obstacle<AdmitError>>
        ensures machine { IfOk result (λ l. machine_of l.parts l.memory
            ≡ start_of admission.now.id (start_in admission.now)) }
        ensures accepted { OnOk result
            (refusal_alone admission.now.id (start_in admission.now) ≡ None) }
        ensures bounds { OnOk result (is_bad admission.now.terms ≡ false) }
        ensures refused { IfErr result (λ o. IfRefused o (λ e.
            refusal_alone admission.now.id (start_in admission.now) ≡ Some e)) }
        ensures memory { IsErrOf result Obstacle.OutOfMemory
            → is_bad admission.now.terms ≡ false }
    {
        if is_bad_reservation(admission) {
            return Err(Obstacle::Refused(AdmitError::BadReservation));
        }
        let words = OpCache::new(alloc)?;
        let mut memory = Flat::new(alloc, admission.terms.pages as usize, admission.terms.mode)?;
        let parts = admit_alone(alloc, admission, &mut memory)?;
        Ok(Lone {
            parts,
            memory,
            words,
        })
    }

    /// A slice: it attempts at most `steps` instructions, while it is running and has not yielded.
    pub fn slice(&mut self, steps: u32)
        ensures { machine_of self.new.parts self.new.memory
            ≡ after_slice steps (machine_of self.old.parts self.old.memory) }
    {
        slice(&mut self.words, &mut self.parts, &mut self.memory, steps);
    }

    /// Slices, in order.
    pub fn slices(&mut self, slices: &[u32])
        ensures { machine_of self.new.parts self.new.memory
            ≡ after_slices (machine_of self.old.parts self.old.memory) slices.now }
    {
        for steps in slices {
            self.slice(*steps);
        }
    }
}

/// The record of a tenant alone at the end of its slices, or why it is refused. It is a function of
/// what the tenant is admitted with and of the slices; in a session it is the same, whatever the
/// others do (`tenants_are_alone`).
pub fn run_alone(
    alloc: Global,
    admission: &Admission<'_>,
    slices: &[u32],
) -> Result<Record, Obstacle<AdmitError>>
    ensures accepted { OnOk result
        (refusal_alone admission.now.id (start_in admission.now) ≡ None) }
    ensures record { IfOk result (λ r.
        r ≡ record_after admission.now.id (start_in admission.now) slices.now) }
    ensures refused { IfErr result (λ o. IfRefused o (λ e.
        refusal_alone admission.now.id (start_in admission.now) ≡ Some e)) }
    ensures memory { IsErrOf result Obstacle.OutOfMemory → is_bad admission.now.terms ≡ false }
{
    let mut lone = Lone::new(alloc, admission)?;
    lone.slices(slices);
    Ok(lone.parts.history)
}
