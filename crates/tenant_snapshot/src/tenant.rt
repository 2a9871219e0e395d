//! A tenant alone with a snapshot of its machine.

ghost use Rattle.std.specs.Prelude.{◌≡◌, None, IfOk, IfErr, OnOk, OnErr, IsErrOf, false, is_ok};
ghost use Rattle.std.specs.Prelude.{length, if◌then◌else◌};
ghost use Rattle.common.specs.Obstacles.{IfRefused};
ghost use Rattle.mte_tags.specs.Accesses.{read_bytes, read_fault, result_of};
ghost use Rattle.mte_svc.specs.Ready.{IsReady};
ghost use Rattle.mte_tenant.specs.Admissions.{start_in};
ghost use Rattle.mte_tenant.specs.Alone.{refusal_alone};
ghost use Rattle.mte_tenant.specs.Ledger.{is_bad};

use crate::compared_edges::ComparedEdges;
use crate::exact_watch::ExactWatch;
use crate::run_watch::RunWatch;
use a64_run::{CompiledBlocks, Edges, NoBlocks, OpCache};
use common::Obstacle;
use heap_bounds::Bounds;
use mte_flat::SnapshotMemory;
use mte_svc::{Input, TenantParts};
use mte_tags::{MemFault, Tagged};
use mte_tenant::{Admission, AdmitError, Lone, slice_noted, slice_with_blocks};
use std::alloc::{AllocError, Global};

/// Copies bytes out of pages with READ, whatever their tags; the memory stays.
fn read_without_tags<M: Tagged>(
    memory: &mut M,
    addr: u64,
    buffer: &mut [u8],
) -> Result<(), MemFault>
    ensures answer { result
        ≡ result_of (read_fault (M.memory memory.old) addr (length buffer.old) false) }
    ensures bytes { buffer.new
        ≡ (if is_ok result
        then read_bytes (M.memory memory.old) addr (length buffer.old)
        else buffer.old) }
    ensures memory { M.memory memory.new ≡ M.memory memory.old }
    ensures kept { M.kept memory.old memory.new }
{
    memory.read(addr, buffer, false)
}

/// A tenant's machine, as the definition has it, and a snapshot of it. Its table of kept
/// instructions stays when it is restored.
pub struct SnapshotTenant {
    /// All but its memory: its record, registers, heap and input.
    pub parts: TenantParts,
    /// Its memory, with that of the snapshot.
    pub memory: SnapshotMemory,
    /// The snapshot but for its memory.
    pub saved: TenantParts,
    /// The chunks of the snapshot, for runs that are to be exact: none at first, then those that
    /// whoever watches the setup enters.
    pub chunks: Bounds,
    words: OpCache,
    ghost ready: { IsReady parts memory.now },
    ghost saved_ready: { IsReady saved memory.saved },
}

impl Drop for SnapshotTenant {
    fn drop(self) {
        let SnapshotTenant {
            parts: _,
            memory: _,
            saved: _,
            chunks: _,
            words: _,
        } = self;
    }
}

impl SnapshotTenant {
    ghost use Rattle.mte_tenant.specs.Machines.{machine_of, start_of, after_slice};
    ghost use Rattle.tenant_snapshot.specs.Snapshots.{with_input};

    /// A tenant at its first instruction, which is its snapshot too, or why it is refused. Only
    /// `OutOfMemory`, where an allocation failed, can come instead of the refusals from `Image`
    /// on.
    #[tactic(auto, unfolding(mte_tenant::specs::Ledger::admission_refusal))]
    pub fn new(
        alloc: Global,
        admission: &Admission<'_>,
    ) -> Result<SnapshotTenant, Obstacle<AdmitError>>
        ensures machine { IfOk result (λ t. machine_of t.parts t.memory.now
            ≡ start_of admission.now.id (start_in admission.now)) }
        ensures saved { IfOk result (λ t. machine_of t.saved t.memory.saved
            ≡ start_of admission.now.id (start_in admission.now)) }
        ensures accepted { OnOk result
            (refusal_alone admission.now.id (start_in admission.now) ≡ None) }
        ensures refused { IfErr result (λ o. IfRefused o (λ e.
            refusal_alone admission.now.id (start_in admission.now) ≡ Some e)) }
        ensures memory { IsErrOf result Obstacle.OutOfMemory
            → is_bad admission.now.terms ≡ false }
    {
        let Lone {
            parts,
            memory: flat,
            words,
            ..
        } = Lone::new(alloc, admission)?;
        let saved = parts.copy(alloc)?;
        let memory = SnapshotMemory::new(alloc, &flat)?;
        Ok(SnapshotTenant {
            parts,
            memory,
            saved,
            chunks: Bounds::new(alloc),
            words,
        })
    }

    /// A slice of at most `steps` instructions, whatever counts the branches that it takes and
    /// whatever blocks were compiled.
    pub fn slice_with_blocks<E: Edges, T: CompiledBlocks>(&mut self, edges: &mut E, steps: u32)
        ensures machine { machine_of self.new.parts self.new.memory.now
            ≡ after_slice steps (machine_of self.old.parts self.old.memory.now) }
        ensures saved { machine_of self.new.saved self.new.memory.saved
            ≡ machine_of self.old.saved self.old.memory.saved }
        ensures chunks { self.new.chunks ≡ self.old.chunks }
    {
        slice_with_blocks::<_, _, T>(
            &mut self.words,
            &mut self.parts,
            &mut self.memory,
            edges,
            steps,
        );
    }

    /// The same slice by the table alone.
    pub fn slice<E: Edges>(&mut self, edges: &mut E, steps: u32)
        ensures machine { machine_of self.new.parts self.new.memory.now
            ≡ after_slice steps (machine_of self.old.parts self.old.memory.now) }
        ensures saved { machine_of self.new.saved self.new.memory.saved
            ≡ machine_of self.old.saved self.old.memory.saved }
        ensures chunks { self.new.chunks ≡ self.old.chunks }
    {
        self.slice_with_blocks::<E, NoBlocks>(edges, steps);
    }

    /// A slice of at most `steps` instructions whose accesses are judged, whatever is found.
    pub fn slice_exact(&mut self, watch: &mut ExactWatch<'_>, steps: u32)
        ensures machine { machine_of self.new.parts self.new.memory.now
            ≡ after_slice steps (machine_of self.old.parts self.old.memory.now) }
        ensures saved { machine_of self.new.saved self.new.memory.saved
            ≡ machine_of self.old.saved self.old.memory.saved }
        ensures chunks { self.new.chunks ≡ self.old.chunks }
    {
        let last = watch.begin(&self.parts, steps);
        slice_noted(
            &mut self.words,
            watch,
            &mut self.parts,
            &mut self.memory,
            steps,
            last,
        );
    }

    /// A slice of at most `steps` instructions whose comparisons are entered.
    pub fn slice_compared(&mut self, edges: &mut ComparedEdges<'_, '_, '_>, steps: u32)
        ensures machine { machine_of self.new.parts self.new.memory.now
            ≡ after_slice steps (machine_of self.old.parts self.old.memory.now) }
        ensures saved { machine_of self.new.saved self.new.memory.saved
            ≡ machine_of self.old.saved self.old.memory.saved }
        ensures chunks { self.new.chunks ≡ self.old.chunks }
    {
        slice_noted(
            &mut self.words,
            edges,
            &mut self.parts,
            &mut self.memory,
            steps,
            0,
        );
    }

    /// A slice of at most `steps` instructions, whatever watches it. Where branches alone are
    /// counted, it runs blocks that were compiled.
    pub fn slice_with<T: CompiledBlocks>(&mut self, watch: &mut RunWatch<'_>, steps: u32)
        ensures machine { machine_of self.new.parts self.new.memory.now
            ≡ after_slice steps (machine_of self.old.parts self.old.memory.now) }
        ensures saved { machine_of self.new.saved self.new.memory.saved
            ≡ machine_of self.old.saved self.old.memory.saved }
        ensures chunks { self.new.chunks ≡ self.old.chunks }
    {
        match watch {
            RunWatch::Edges(edges) => self.slice_with_blocks::<_, T>(edges, steps),
            RunWatch::Exact(exact) => self.slice_exact(exact, steps),
        }
    }

    /// Copies bytes out of pages with READ, whatever their tags; after a fault the buffer is as it
    /// was.
    pub fn read(&mut self, addr: u64, buffer: &mut [u8]) -> Result<(), MemFault>
        ensures answer { result
            ≡ result_of (read_fault self.old.memory.now addr (length buffer.old) false) }
        ensures bytes { buffer.new
            ≡ (if is_ok result
            then read_bytes self.old.memory.now addr (length buffer.old)
            else buffer.old) }
        ensures machine { machine_of self.new.parts self.new.memory.now
            ≡ machine_of self.old.parts self.old.memory.now }
        ensures saved { machine_of self.new.saved self.new.memory.saved
            ≡ machine_of self.old.saved self.old.memory.saved }
        ensures chunks { self.new.chunks ≡ self.old.chunks }
    {
        read_without_tags(&mut self.memory, addr, buffer)
    }

    /// Makes the snapshot that of the machine now. Where memory is refused, nothing changes.
    pub fn save(&mut self, alloc: Global) -> Result<(), AllocError>
        ensures machine { machine_of self.new.parts self.new.memory.now
            ≡ machine_of self.old.parts self.old.memory.now }
        ensures saved { OnOk result (machine_of self.new.saved self.new.memory.saved
            ≡ machine_of self.old.parts self.old.memory.now) }
        ensures err { OnErr result (machine_of self.new.saved self.new.memory.saved
            ≡ machine_of self.old.saved self.old.memory.saved) }
        ensures chunks { self.new.chunks ≡ self.old.chunks }
    {
        let saved = self.parts.copy(alloc)?;
        self.memory.save(alloc)?;
        self.saved = saved;
        Ok(())
    }

    /// Makes the machine that of the snapshot, with these bytes as what it may read. Where memory
    /// is refused, nothing changes.
    pub fn restore(&mut self, alloc: Global, input: &[u8]) -> Result<(), AllocError>
        ensures machine { OnOk result (machine_of self.new.parts self.new.memory.now
            ≡ with_input (machine_of self.old.saved self.old.memory.saved) input.now) }
        ensures err { OnErr result (machine_of self.new.parts self.new.memory.now
            ≡ machine_of self.old.parts self.old.memory.now) }
        ensures saved { machine_of self.new.saved self.new.memory.saved
            ≡ machine_of self.old.saved self.old.memory.saved }
        ensures chunks { self.new.chunks ≡ self.old.chunks }
    {
        let history = self.saved.history.copy(alloc)?;
        let heap = self.saved.heap.copy(alloc)?;
        let input = Input::new(alloc, input)?;
        self.memory.restore();
        self.parts = TenantParts {
            history,
            regs: self.saved.regs,
            heap,
            input,
            left: self.saved.left,
        };
        Ok(())
    }
}
