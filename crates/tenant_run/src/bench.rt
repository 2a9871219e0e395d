//! A tenant alone on a memory of its own.

ghost use Rattle.std.specs.Prelude.{◌≡◌, ◌<◌, Some, false, IfOk, IfErr, IsErrOf};
ghost use Rattle.common.specs.Obstacles.{IfRefused};
ghost use Rattle.mte_svc.specs.Ready.{IsReady};

use a64_run::{NoEdges, OpCache};
use common::Obstacle;
use mte_flat::Flat;
use mte_tenant::{
    Admission, AdmitError, Lone, Notes, Status, TenantParts, slice_noted, slice_watched,
    slice_with_edges,
};
use std::alloc::Global;

/// How much of a slice a watch is shown.
#[derive(Clone, Copy, PartialEq, Eq)]
pub enum WatchLevel {
    /// Nothing: the slice runs by a table of instructions, as a host runs it.
    Nothing,
    /// The branches that are taken, by that table, and attempts that lead to no next instruction.
    Branches,
    /// The accesses of instructions by that table, or these instructions, and attempts that lead to
    /// no next instruction; of the last steps each attempt.
    Accesses,
    /// Each attempt.
    Attempts,
}

/// A watch of a tenant.
pub trait Watcher: Notes {
    /// How much it is shown.
    fn shown(&self) -> WatchLevel;

    /// A slice of some steps begins, of which it is shown branches or accesses: of how many of the
    /// last steps it is shown each attempt.
    fn begin(&mut self, parts: &TenantParts, steps: u32) -> u32;

    /// Whether what it has met ends the tenant, so that no slice follows.
    fn has_ended(&self) -> bool;
}

/// A tenant's machine, which is the machine of the definition: it is made by `admit_alone` and
/// changed by slices alone.
pub struct TenantBench {
    /// All but its memory.
    pub parts: TenantParts,
    /// Its memory.
    pub memory: Flat,
    words: OpCache,
    ghost ready: { IsReady parts memory },
}

impl Drop for TenantBench {
    fn drop(self) {
        let TenantBench {
            parts: _,
            memory: _,
            words: _,
        } = self;
    }
}

impl TenantBench {
    ghost use Rattle.mte_tenant.specs.Machines.{machine_of, start_of, after_slice, after_stop};
    ghost use Rattle.mte_tenant.specs.Admissions.{start_in};
    ghost use Rattle.mte_tenant.specs.Alone.{refusal_alone};
    ghost use Rattle.mte_tenant.specs.Ledger.{is_bad};

    /// A tenant at its first instruction, or why it is refused. Only `OutOfMemory`, where an
    /// allocation failed, can come instead of the refusals from `Image` on.
    #[tactic(auto, unfolding(mte_tenant::specs::Ledger::admission_refusal))]
    pub fn new(
        alloc: Global,
        admission: &Admission<'_>,
    ) -> Result<TenantBench, Obstacle<AdmitError>>
        ensures machine { IfOk result (λ b. machine_of b.parts b.memory
            ≡ start_of admission.now.id (start_in admission.now)) }
        ensures refused { IfErr result (λ o. IfRefused o (λ e.
            refusal_alone admission.now.id (start_in admission.now) ≡ Some e)) }
        ensures memory { IsErrOf result Obstacle.OutOfMemory
            → is_bad admission.now.terms ≡ false }
    {
        let Lone {
            parts,
            memory,
            words,
            ..
        } = Lone::new(alloc, admission)?;
        Ok(TenantBench {
            parts,
            memory,
            words,
        })
    }

    /// A slice, which is the same whether it is watched or not.
    pub fn slice<W: Watcher>(&mut self, watch: &mut W, steps: u32)
        ensures { machine_of self.new.parts self.new.memory
            ≡ after_slice steps (machine_of self.old.parts self.old.memory) }
    {
        let (parts, memory) = (&mut self.parts, &mut self.memory);
        match watch.shown() {
            WatchLevel::Nothing => {
                slice_with_edges(&mut self.words, parts, memory, &mut NoEdges, steps)
            }
            WatchLevel::Branches | WatchLevel::Accesses => {
                let last = watch.begin(parts, steps);
                slice_noted(&mut self.words, watch, parts, memory, steps, last);
            }
            WatchLevel::Attempts => slice_watched(watch, parts, memory, steps),
        }
    }

    /// All but its memory, and its memory.
    pub fn into_machine(self) -> (TenantParts, Flat)
        ensures parts { result.0 ≡ self.parts }
        ensures memory { result.1 ≡ self.memory }
    {
        let TenantBench {
            parts,
            memory,
            words: _,
        } = self;
        (parts, memory)
    }

    /// A stop.
    #[tactic(auto, unfolding(mte_tenant::specs::Machines::after_stop))]
    pub fn stop(&mut self)
        ensures { machine_of self.new.parts self.new.memory
            ≡ after_stop (machine_of self.old.parts self.old.memory) }
    {
        if self.parts.is_running() {
            self.parts.history.status = Status::Stopped;
        }
    }
}
