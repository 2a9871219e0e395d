//! Which store wrote the target last of a jump to no code.

ghost use Rattle.std.specs.Prelude.{None};

use crate::bench::{WatchLevel, Watcher};
use a64_run::{Edges, NoEdges};
use mte_tags::Paged;
use mte_tenant::{NotedAccess, Notes, NotesAccesses, TenantParts, Watch};
use run_cause::{LastStore, StoreWatch, TargetLoad};
use run_records::Moment;

/// Shows a tenant that runs once more to the watch for such a store.
#[derive(Clone, Copy)]
pub struct StoreWatcher {
    watch: StoreWatch,
    /// The state before the instruction that is attempted.
    moment: Option<Moment>,
}

impl StoreWatcher {
    /// Watches for the store after a load.
    pub fn new(load: TargetLoad) -> StoreWatcher {
        StoreWatcher {
            watch: StoreWatch::new(load),
            moment: None,
        }
    }

    /// The store, if there was one.
    pub fn found(&self) -> Option<LastStore> {
        self.watch.found()
    }
}

impl Watcher for StoreWatcher {
    fn shown(&self) -> WatchLevel {
        WatchLevel::Attempts
    }

    fn begin(&mut self, _parts: &TenantParts, steps: u32) -> u32 {
        steps
    }

    fn has_ended(&self) -> bool {
        false
    }
}

/// It is shown each attempt, and so is passed nothing.
impl NotesAccesses for StoreWatcher {
    fn counts_tags(&self) -> bool {
        false
    }

    fn note(&mut self, _access: NotedAccess) {}
}

impl Edges for StoreWatcher {
    fn taken(&mut self, _from: u64, _word: u32, _to: u64) {}
}

impl Notes for StoreWatcher {
    type Counts = NoEdges;

    fn follows(&self) -> bool {
        false
    }

    fn take_counts(&mut self) -> NoEdges {
        NoEdges
    }

    fn put_counts(&mut self, _counts: NoEdges) {}

    fn pass<M: Paged>(&mut self, _parts: &TenantParts, _memory: &mut M) {}
}

impl Watch for StoreWatcher {
    ghost log = { λ _. None };

    fn before<M: Paged>(&mut self, parts: &TenantParts, memory: &mut M) {
        self.moment = Some(Moment {
            step: parts.history.steps.saturating_add(1),
            word: memory.fetch(parts.regs.pc).ok(),
            regs: parts.regs,
        });
    }

    fn after<M: Paged>(&mut self, parts: &TenantParts, memory: &mut M) {
        if let Some(moment) = &self.moment {
            self.watch.note(moment, parts, memory);
        }
    }
}
