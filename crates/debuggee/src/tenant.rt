//! The tenant that is debugged.

ghost use Rattle.std.specs.Prelude.{◌≡◌, ◌<◌, ◌==◌, ◌+◌, ◌-◌, ◌⊎◌, Some, min, true, false};
ghost use Rattle.std.specs.Prelude.{IfOk, IfErr, IsErrOf};
ghost use Rattle.common.specs.Obstacles.{IfRefused};
ghost use Rattle.mte_svc.specs.Ready.{IsReady};
ghost use Rattle.mte_tenant.specs.Alone.{refusal_alone};
ghost use Rattle.mte_tenant.specs.Ledger.{is_bad};
ghost use Rattle.mte_tenant.specs.Machines.{machine_of, start_of, after_slice, after_slice_end};
ghost use Rattle.mte_tenant.specs.Admissions.{start_in};
ghost use Rattle.debuggee.specs.Courses.{IsAt};

use crate::cuts::Cuts;
use crate::memory_map::MappedRegion;
use crate::watched::{Hit, Watched, Watchpoint};
use a64_run::{Edges, OpCache};
use a64_step::{Decoder, Regs};
use common::Obstacle;
use mte_flat::Flat;
use mte_tags::TagMode;
use mte_tenant::{
    Admission, AdmitError, Lone, TenantParts, attempt, settle, slice, slice_with_edges,
};
use run_cause::StoreWatch;
use run_records::{Book, Moment};
use std::alloc::{AllocError, Global};

/// A tenant alone, which attempts its instructions one at a time, or a slice at a time, and can
/// begin again. Nothing else changes it.
pub struct Debuggee<'a> {
    admission: Admission<'a>,
    cuts: Cuts<'a>,
    parts: TenantParts,
    memory: Watched,
    decoder: Decoder,
    words: OpCache,
    /// The slices that have ended.
    slices: u64,
    /// The steps of the slice that goes on or comes next.
    cut: u32,
    /// How many of them were attempted.
    done: u32,
    ghost ready: { IsReady parts memory.flat },
    ghost some: { 0 < admission.terms.pages },
    // It is where the definition has it after these slices and attempts, whatever was done before.
    ghost law: { ∥ IsAt cuts (start_of admission.id (start_in admission)) slices cut done
        (machine_of parts memory.flat) ∥₁ },
}

impl<'a> Drop for Debuggee<'a> {
    fn drop(self) {
        let Debuggee {
            admission: _,
            cuts: _,
            parts: _,
            memory: _,
            decoder: _,
            words: _,
            slices: _,
            cut: _,
            done: _,
        } = self;
    }
}

impl<'a> Debuggee<'a> {
    ghost use Rattle.debuggee.specs.Debuggees.{admission_of, cuts_of, machine_in, steps_of};
    ghost use Rattle.debuggee.specs.Debuggees.{after_one, can_attempt, can_begin, cut_of};
    ghost use Rattle.debuggee.specs.Debuggees.{done_of, slices_of};

    /// A tenant at its first instruction, or why it is refused. Only `OutOfMemory`, where an
    /// allocation failed, can come instead of the refusals from `Image` on.
    #[tactic(auto, unfolding(mte_tenant::specs::Ledger::admission_refusal))]
    pub fn new(
        alloc: Global,
        admission: &Admission<'a>,
        cuts: &Cuts<'a>,
    ) -> Result<Debuggee<'a>, Obstacle<AdmitError>>
        ensures admission { IfOk result (λ d. admission_of d ≡ admission.now) }
        ensures cuts { IfOk result (λ d. cuts_of d ≡ cuts.now) }
        ensures machine { IfOk result (λ d. machine_in d
            ≡ start_of admission.now.id (start_in admission.now)) }
        ensures refused { IfErr result (λ o. IfRefused o (λ e.
            refusal_alone admission.now.id (start_in admission.now) ≡ Some e)) }
        ensures memory { IsErrOf result Obstacle.OutOfMemory
            → is_bad admission.now.terms ≡ false }
    {
        let Lone {
            parts,
            memory,
            words,
            ..
        } = Lone::new(alloc, admission)?;
        let cut = cuts.next(0, parts.history.steps);
        Ok(Debuggee {
            admission: *admission,
            cuts: *cuts,
            parts,
            memory: Watched::new(alloc, memory),
            decoder: Decoder::new(),
            words,
            slices: 0,
            cut,
            done: 0,
        })
    }

    /// The same tenant at its first instruction.
    pub fn anew(&self, alloc: Global) -> Result<Debuggee<'a>, AllocError>
        ensures admission { IfOk result (λ d. admission_of d ≡ admission_of self.now) }
        ensures cuts { IfOk result (λ d. cuts_of d ≡ cuts_of self.now) }
        ensures machine { IfOk result (λ d. machine_in d
            ≡ start_of (admission_of self.now).id (start_in (admission_of self.now))) }
    {
        match Debuggee::new(alloc, &self.admission, &self.cuts) {
            Ok(debuggee) => Ok(debuggee),
            Err(_) => Err(AllocError),
        }
    }

    /// The same tenant where it is, with nothing watched.
    pub fn copy(&self, alloc: Global) -> Result<Debuggee<'a>, AllocError>
        ensures admission { IfOk result (λ d. admission_of d ≡ admission_of self.now) }
        ensures cuts { IfOk result (λ d. cuts_of d ≡ cuts_of self.now) }
        ensures machine { IfOk result (λ d. machine_in d ≡ machine_in self.now) }
        ensures slices { IfOk result (λ d. slices_of d ≡ slices_of self.now) }
        ensures cut { IfOk result (λ d. cut_of d ≡ cut_of self.now) }
        ensures done { IfOk result (λ d. done_of d ≡ done_of self.now) }
    {
        let words = OpCache::new(alloc)?;
        let memory = self.memory.flat.copy(alloc)?;
        let parts = self.parts.copy(alloc)?;
        Ok(Debuggee {
            admission: self.admission,
            cuts: self.cuts,
            parts,
            memory: Watched::new(alloc, memory),
            decoder: Decoder::new(),
            words,
            slices: self.slices,
            cut: self.cut,
            done: self.done,
        })
    }

    /// After how many steps in all no more come.
    pub fn limit(&self) -> u64
        ensures { result ≡ (cuts_of self.now).limit }
    {
        self.cuts.limit
    }

    /// All of its machine but the memory.
    pub fn parts(&self) -> &TenantParts {
        &self.parts
    }

    /// Its registers.
    pub fn regs(&self) -> &Regs {
        &self.parts.regs
    }

    /// How many instructions it has attempted.
    pub fn steps(&self) -> u64
        ensures { result ≡ steps_of self.now }
    {
        self.parts.history.steps
    }

    /// How many of its slices have ended.
    pub fn slices(&self) -> u64
        ensures { result ≡ slices_of self.now }
    {
        self.slices
    }

    /// Whether no slice goes on.
    pub fn is_between_slices(&self) -> bool
        ensures { result ≡ (done_of self.now == 0) }
    {
        self.done == 0
    }

    /// How many instructions it has attempted when the slice that goes on or comes next is over, at
    /// the latest.
    pub fn slice_end(&self) -> u64
        ensures { result ≡ min 18446744073709551615
            (steps_of self.now + (cut_of self.now - done_of self.now)) }
    {
        let left = self.cut.saturating_sub(self.done);
        self.parts.history.steps.saturating_add(u64::from(left))
    }

    /// The mode of tag checks.
    pub fn mode(&self) -> TagMode
        ensures { result ≡ (admission_of self.now).terms.mode }
    {
        self.admission.terms.mode
    }

    /// Whether it is running, and has steps left.
    pub fn can_go_on(&self) -> bool
        ensures { result ≡ can_attempt self.now }
    {
        self.parts.is_running() && self.done < self.cut && self.slices < u64::MAX
    }

    /// Attempts one instruction, and ends the slice where it is over. `false` if it cannot go on;
    /// nothing has changed then.
    pub fn attempt(&mut self) -> bool
        ensures answer { result ≡ can_attempt self.old }
        ensures stays { result ≡ false → self.new ≡ self.old }
        ensures machine { result ≡ true → (machine_in self.new ≡ after_one self.old)
            ⊎ (machine_in self.new ≡ after_slice_end (after_one self.old)) }
        ensures admission { admission_of self.new ≡ admission_of self.old }
        ensures cuts { cuts_of self.new ≡ cuts_of self.old }
    {
        if !self.parts.is_running() || self.done >= self.cut || self.slices == u64::MAX {
            return false;
        }
        let left = self.cut - self.done - 1;
        let goes_on = attempt(
            &mut self.decoder,
            &mut self.parts,
            &mut self.memory,
            u64::from(left),
        );
        self.done += 1;
        if goes_on && left > 0 && self.parts.is_running() {
            return true;
        }
        settle(&mut self.parts, &mut self.memory);
        self.slices += 1;
        self.done = 0;
        self.cut = self.cuts.next(self.slices, self.parts.history.steps);
        true
    }

    /// Attempts the whole slice that comes next. `false` where one goes on, or none comes; nothing
    /// has changed then.
    pub fn attempt_slice(&mut self) -> bool
        ensures answer { result ≡ can_begin self.old }
        ensures stays { result ≡ false → self.new ≡ self.old }
        ensures machine { result ≡ true
            → machine_in self.new ≡ after_slice (cut_of self.old) (machine_in self.old) }
        ensures admission { admission_of self.new ≡ admission_of self.old }
        ensures cuts { cuts_of self.new ≡ cuts_of self.old }
    {
        if !self.parts.is_running() || self.done > 0 || self.slices == u64::MAX {
            return false;
        }
        if self.cut == 0 {
            return false;
        }
        slice(
            &mut self.words,
            &mut self.parts,
            &mut self.memory.flat,
            self.cut,
        );
        self.slices += 1;
        self.cut = self.cuts.next(self.slices, self.parts.history.steps);
        true
    }

    /// Attempts the whole slice that comes next, as `attempt_slice` does; notes the first
    /// watchpoint that is met, and shows each instruction.
    pub fn attempt_slice_watched<E: Edges>(&mut self, shown: &mut E) -> bool
        ensures answer { result ≡ can_begin self.old }
        ensures stays { result ≡ false → self.new ≡ self.old }
        ensures machine { result ≡ true
            → machine_in self.new ≡ after_slice (cut_of self.old) (machine_in self.old) }
        ensures admission { admission_of self.new ≡ admission_of self.old }
        ensures cuts { cuts_of self.new ≡ cuts_of self.old }
    {
        if !self.parts.is_running() || self.done > 0 || self.slices == u64::MAX {
            return false;
        }
        if self.cut == 0 {
            return false;
        }
        slice_with_edges(
            &mut self.words,
            &mut self.parts,
            &mut self.memory,
            shown,
            self.cut,
        );
        self.slices += 1;
        self.cut = self.cuts.next(self.slices, self.parts.history.steps);
        true
    }

    /// Watches these points and no others.
    pub fn watch(&mut self, points: &[Watchpoint]) -> Result<(), AllocError> {
        self.memory.watch(points)
    }

    /// Forgets which watchpoint was met.
    pub fn forget_hit(&mut self) {
        self.memory.forget();
    }

    /// The first watchpoint that was met.
    pub fn hit(&self) -> Option<Hit> {
        self.memory.hit()
    }

    /// The byte at an address of a page with READ or EXEC, whatever its tag.
    pub fn byte_at(&mut self, addr: u64) -> Option<u8> {
        self.memory.byte_at(addr)
    }

    /// The instruction word at a multiple of 4, of a page with EXEC.
    pub fn word_at(&mut self, addr: u64) -> Option<u32> {
        self.memory.word_at(addr)
    }

    /// The tag of the granule of an address, if it can be read.
    pub fn tag_at(&mut self, addr: u64) -> Option<u8> {
        self.memory.tag_at(addr)
    }

    /// Enters the heap call that the last step made into a book, if it made one.
    pub fn note_in(&mut self, book: &mut Book) {
        let _ = book.note(&self.parts, &mut self.memory.flat);
    }

    /// Shows the last step to a watch for a store, with what was there before it.
    pub fn show_to(&mut self, watch: &mut StoreWatch, moment: &Moment) {
        watch.note(moment, &self.parts, &mut self.memory.flat);
    }

    /// The regions of its memory, the lowest first.
    pub fn regions(&mut self, alloc: Global) -> Result<Vec<MappedRegion>, AllocError> {
        self.memory.regions(alloc)
    }

    /// Its machine alone.
    pub fn into_machine(self) -> (TenantParts, Flat) {
        let Debuggee {
            admission: _,
            cuts: _,
            parts,
            memory,
            decoder: _,
            words: _,
            slices: _,
            cut: _,
            done: _,
        } = self;
        (parts, memory.into_flat())
    }
}
