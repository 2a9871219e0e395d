//! The numbers of a run.

ghost use Rattle.std.specs.Prelude.{◌≡◌};

use crate::draws::{MOST_DRAWS, draws_between};
use crate::instruction::SVC;
use crate::moment::Moment;
use a64_access::AccessForm;
use a64_decode::decode;
use mte_svc::TenantParts;
use mte_tags::{Attrs, Paged, Rgsr, Tagged};
use scudo_heap::HeapCall;

/// The heap calls, one of each kind, in the order of their services' numbers.
pub static KINDS: [HeapCall; 6] = [
    HeapCall::Malloc { size: 0 },
    HeapCall::Free { pointer: 0 },
    HeapCall::Calloc { count: 0, size: 0 },
    HeapCall::Realloc {
        pointer: 0,
        size: 0,
    },
    HeapCall::Memalign {
        alignment: 0,
        size: 0,
    },
    HeapCall::UsableSize { pointer: 0 },
];

/// The work of a tenant, in numbers. An instruction that failed counts as attempted alone.
#[derive(Clone, Copy)]
pub struct Statistics {
    /// Instructions attempted.
    pub steps: u64,
    /// Loads of bytes that completed.
    pub loads: u64,
    /// Stores of bytes that completed.
    pub stores: u64,
    /// Of these the accesses whose pointer's tag was compared with the tag of a granule.
    pub compared: u64,
    /// Requests of services that were answered.
    pub services: u64,
    /// Heap calls that were answered, by kind.
    pub calls: [u64; 6],
    /// Random tags that were drawn.
    pub draws: u64,
    /// The fewest pages that were left to map; `None` before the first instruction.
    least_left: Option<usize>,
    /// The generator after what was counted last; `None` before the first slice.
    generator: Option<Rgsr>,
}

impl Statistics {
    /// Those of a tenant that has done nothing.
    pub fn new() -> Statistics {
        Statistics {
            steps: 0,
            loads: 0,
            stores: 0,
            compared: 0,
            services: 0,
            calls: [0; 6],
            draws: 0,
            least_left: None,
            generator: None,
        }
    }

    /// Counts an instruction that was attempted, and the heap call that it made, if it made one.
    pub fn note<M: Paged>(
        &mut self,
        moment: &Moment,
        parts: &TenantParts,
        call: Option<&HeapCall>,
        memory: &mut M,
    )
        ensures memory { M.Tagged.memory memory.new ≡ M.Tagged.memory memory.old }
        ensures kept { M.Tagged.kept memory.old memory.new }
    {
        self.steps = self.steps.saturating_add(1);
        self.note_pages(memory.pages_left());
        let drawn = draws_between(&moment.regs.rgsr, &parts.regs.rgsr, MOST_DRAWS);
        self.draws = self.draws.saturating_add(drawn);
        self.generator = Some(parts.regs.rgsr);
        if !parts.is_running() || moment.regs.pc == parts.regs.pc {
            return;
        }
        if moment.word == Some(SVC) {
            self.services = self.services.saturating_add(1);
        }
        if let Some(call) = call {
            self.note_call(call);
        }
        self.note_access(moment, memory);
    }

    /// Starts to count at a state of the generator, where nothing was counted before.
    pub fn begin(&mut self, generator: &Rgsr) {
        if self.generator.is_none() {
            self.generator = Some(*generator);
        }
    }

    /// Counts an access that an instruction completed; whether its pointer's tag was compared.
    #[inline(always)]
    pub fn count_access(&mut self, is_write: bool, is_compared: bool) {
        let count = if is_write {
            &mut self.stores
        } else {
            &mut self.loads
        };
        *count = count.saturating_add(1);
        self.compared = self.compared.saturating_add(u64::from(is_compared));
    }

    /// Counts attempts, at most `most`, of which nothing but accesses was noted: what they drew,
    /// and the steps since the start. No page was mapped or unmapped by them.
    pub fn pass<M: Paged>(&mut self, parts: &TenantParts, most: u64, memory: &mut M)
        ensures memory { M.Tagged.memory memory.new ≡ M.Tagged.memory memory.old }
        ensures kept { M.Tagged.kept memory.old memory.new }
    {
        if self.steps == parts.history.steps {
            return;
        }
        self.steps = parts.history.steps;
        self.note_pages(memory.pages_left());
        let after = parts.regs.rgsr;
        if let Some(before) = &self.generator {
            self.draws = self
                .draws
                .saturating_add(draws_between(before, &after, most));
        }
        self.generator = Some(after);
    }

    /// Counts a heap call.
    fn note_call(&mut self, call: &HeapCall) {
        if let Some(count) = self.calls.get_mut(index_of(call)) {
            *count = count.saturating_add(1);
        }
    }

    /// Counts the access of an instruction that completed.
    fn note_access<M: Paged>(&mut self, moment: &Moment, memory: &mut M)
        ensures memory { M.Tagged.memory memory.new ≡ M.Tagged.memory memory.old }
        ensures kept { M.Tagged.kept memory.old memory.new }
    {
        let Some(form) = form_at(moment) else {
            return;
        };
        if form.is_write() {
            self.stores = self.stores.saturating_add(1);
        } else {
            self.loads = self.loads.saturating_add(1);
        }
        if form.is_checked() && memory.has_attrs(form.addr(&moment.regs), Attrs::TAGGED) {
            self.compared = self.compared.saturating_add(1);
        }
    }

    /// Keeps the fewest pages that were left.
    fn note_pages(&mut self, left: usize) {
        self.least_left = match self.least_left {
            Some(least) => Some(least.min(left)),
            None => Some(left),
        };
    }

    /// The most pages that were mapped at once, of a tenant that may map `reserved`.
    pub fn most_pages(&self, reserved: u64) -> u64 {
        let left = self.least_left.map_or(reserved, |left| left as u64);
        reserved.saturating_sub(left)
    }
}

/// The place of a call's kind among [`KINDS`].
fn index_of(call: &HeapCall) -> usize {
    match call {
        HeapCall::Malloc { .. } => 0,
        HeapCall::Free { .. } => 1,
        HeapCall::Calloc { .. } => 2,
        HeapCall::Realloc { .. } => 3,
        HeapCall::Memalign { .. } => 4,
        HeapCall::UsableSize { .. } => 5,
    }
}

/// How the instruction of a moment loads or stores registers, if it does.
fn form_at(moment: &Moment) -> Option<AccessForm> {
    AccessForm::of(&decode(moment.word?)?).filter(|form| form.is_of_registers())
}
