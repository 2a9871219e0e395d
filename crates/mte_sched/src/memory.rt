//! Where a live tenant's memory is: its table, its quota, its tag state and the pages that it
//! remembers, over the frames and the translation lookaside buffer that all tenants share.

ghost use Rattle.std.specs.Prelude.{◌≡◌, ◌≢◌, ◌+◌, ◌<◌, ◌≤◌, None, All, sum, false};
ghost use Rattle.std.specs.FinMap.{empty};
ghost use Rattle.mte_frames.specs.Pool.{reserved_by, taken_by, KeepsOthers};
ghost use Rattle.mte_space.specs.Remembered.{IsRemembered};
ghost use Rattle.mte_space.specs.Spaces.{IsSpace, HasFrames, KeepsRest, NoneEnters};
ghost use Rattle.mte_tags.specs.Memory.{no_pages};
ghost use Rattle.mte_translate.specs.Tables.{Pages, pages_of, IsTable, MapsOnce, IsCached};
ghost use Rattle.mte_translate.specs.Translations.{without_asid};
ghost use Rattle.scudo_heap.specs.Served.{IsUntouched};
ghost use Rattle.mte_tenant.specs.Ledger.{charge_of};
ghost use Rattle.mte_tenant.specs.Machines.{machine_of, first_memory, after_slice};
ghost use Rattle.mte_sched.specs.Memories.{memory_at, IsTenantMemory, IsPlanned, HasCharge};
ghost use Rattle.mte_svc.specs.Ready.{IsReady};

use crate::tenant::{Caches, Live};
use a64_run::{CompiledBlocks, NoEdges};
use common::MAX_PAGES;
use mte_elf::Plan;
use mte_frames::{FramePool, Quota};
use mte_space::{RememberedPages, Space, Tenancy, pages_of_a_space, unmap_all};
use mte_tags::{TagMode, TagState};
use mte_tenant::{Admission, charge, fill, slice_with_blocks};
use mte_translate::{Table, Tlb};

/// A live tenant's table, its quota, its tag state, and where its last accesses found their pages.
#[derive(Drop)]
pub struct TenantMemory {
    pub(crate) table: Table,
    pub(crate) quota: Quota,
    pub(crate) state: TagState,
    pub(crate) remembered: RememberedPages,
}

/// Reserves a new tenant's charge, and maps and loads its image and its stack.
pub(crate) fn start_memory(
    pool: &mut FramePool,
    tlb: &mut Tlb,
    asid: usize,
    admission: &Admission<'_>,
    plan: &Plan,
    remembered: RememberedPages,
) -> TenantMemory
    requires image { IsPlanned admission.now.image.now plan.now admission.now.terms.pages }
    requires most { admission.now.terms.pages ≤ MAX_PAGES }
    requires frames { HasCharge pool.old admission.now.terms.pages }
    requires fresh { All (λ u. u.asid ≢ asid) tlb.old }
    requires remembered { (m : Pages) → IsRemembered m remembered }
    ensures placed { IsTenantMemory pool.new tlb.new asid admission.now.terms.pages result }
    ensures memory { memory_at pool.new result admission.now.terms.pages
        ≡ first_memory admission.now.image.now admission.now.terms.pages admission.now.terms.mode }
    ensures untouched { IsUntouched (memory_at pool.new result admission.now.terms.pages) }
    ensures limit { (memory_at pool.new result admission.now.terms.pages).limit
        ≡ admission.now.terms.pages }
    ensures unused { reserved_by pool.old result.quota ≡ 0 }
    ensures reserved { sum pool.new.reserved
        ≡ sum pool.old.reserved + charge_of admission.now.terms.pages }
    ensures others { KeepsOthers result.quota pool.old pool.new }
    ensures entries { NoneEnters asid tlb.old tlb.new }
    ensures capacities { pool.new.capacities ≡ pool.old.capacities }
{
    pages_of_a_space();
    let (pages, mode) = (admission.terms.pages, admission.terms.mode);
    let mut memory = reserve_memory(pool, pages, mode, remembered);
    pool.recall();
    fill_memory(pool, tlb, asid, admission, plan, &mut memory);
    pool.recall();
    memory
}

/// Reserves a new tenant's charge, and makes a table that maps nothing.
fn reserve_memory(
    pool: &mut FramePool,
    pages: u32,
    mode: TagMode,
    remembered: RememberedPages,
) -> TenantMemory
    requires frames { HasCharge pool.old pages }
    ensures table { IsTable pool.new result.quota result.table }
    ensures none { pages_of pool.new result.table.frame ≡ empty }
    ensures once { MapsOnce (pages_of pool.new result.table.frame) }
    ensures len { result.table.len ≡ 0 }
    ensures leaves { result.table.leaves ≡ 0 }
    ensures state { result.state ≡ record { mode = mode; pending = false } }
    ensures remembered { result.remembered ≡ remembered }
    ensures taken { taken_by pool.new result.quota ≡ 1 }
    ensures charged { reserved_by pool.new result.quota ≡ charge_of pages }
    ensures unused { reserved_by pool.old result.quota ≡ 0 }
    ensures reserved { sum pool.new.reserved ≡ sum pool.old.reserved + charge_of pages }
    ensures others { KeepsOthers result.quota pool.old pool.new }
    ensures capacities { pool.new.capacities ≡ pool.old.capacities }
{
    pool.recall();
    let mut quota = match pool.reserve(charge(pages) as usize) {
        Ok(quota) => quota,
        Err(_) => unreachable!(),
    };
    let table = Table::new(pool, &mut quota);
    let state = TagState {
        mode,
        pending: false,
    };
    TenantMemory {
        table,
        quota,
        state,
        remembered,
    }
}

/// Maps and loads an image and a stack in a memory that maps nothing.
fn fill_memory(
    pool: &mut FramePool,
    tlb: &mut Tlb,
    asid: usize,
    admission: &Admission<'_>,
    plan: &Plan,
    memory: &mut TenantMemory,
)
    requires image { IsPlanned admission.now.image.now plan.now admission.now.terms.pages }
    requires empty { memory_at pool.old memory.old admission.now.terms.pages
        ≡ no_pages admission.now.terms.pages admission.now.terms.mode }
    requires table { IsTable pool.old memory.old.quota memory.old.table }
    requires few { memory.old.table.len ≤ admission.now.terms.pages }
    requires once { MapsOnce (pages_of pool.old memory.old.table.frame) }
    requires left { HasFrames pool.old memory.old.quota memory.old.table
        admission.now.terms.pages }
    requires cached { IsCached (pages_of pool.old memory.old.table.frame) asid tlb.old }
    requires remembered { IsRemembered (pages_of pool.old memory.old.table.frame)
        memory.old.remembered }
    ensures memory { memory_at pool.new memory.new admission.now.terms.pages
        ≡ first_memory admission.now.image.now admission.now.terms.pages admission.now.terms.mode }
    ensures limit { (memory_at pool.new memory.new admission.now.terms.pages).limit
        ≡ admission.now.terms.pages }
    ensures untouched { IsUntouched (memory_at pool.new memory.new admission.now.terms.pages) }
    ensures space { IsSpace pool.new memory.new.quota memory.new.table admission.now.terms.pages }
    ensures cached { IsCached (pages_of pool.new memory.new.table.frame) asid tlb.new }
    ensures remembered { IsRemembered (pages_of pool.new memory.new.table.frame)
        memory.new.remembered }
    ensures rest { KeepsRest memory.old.quota pool.old pool.new memory.old.table memory.new.table }
    ensures same { memory.new.quota ≡ memory.old.quota }
    ensures entries { NoneEnters asid tlb.old tlb.new }
{
    let mut space = Space::new(
        pool,
        &mut memory.table,
        &mut memory.quota,
        tlb,
        &mut memory.remembered,
        &mut memory.state,
        Tenancy {
            asid,
            pages: admission.terms.pages as usize,
        },
    );
    fill(
        plan,
        admission.image,
        admission.terms.pages,
        admission.terms.mode,
        &mut space,
    );
}

impl Live {
    /// Lets it attempt at most `steps` instructions.
    pub(crate) fn slice<T: CompiledBlocks>(
        &mut self,
        pool: &mut FramePool,
        caches: &mut Caches,
        asid: usize,
        pages: u32,
        steps: u32,
    )
        requires placed { IsTenantMemory pool.old caches.old.tlb asid pages
            self.old.memory }
        requires ready { IsReady self.old.parts.value
            (memory_at pool.old self.old.memory pages) }
        ensures ready { IsReady self.new.parts.value
            (memory_at pool.new self.new.memory pages) }
        ensures machine { machine_of self.new.parts.value
            (memory_at pool.new self.new.memory pages)
            ≡ after_slice steps (machine_of self.old.parts.value
            (memory_at pool.old self.old.memory pages)) }
        ensures space { IsSpace pool.new self.new.memory.quota self.new.memory.table pages }
        ensures cached { IsCached (pages_of pool.new self.new.memory.table.frame) asid
            caches.new.tlb }
        ensures remembered { IsRemembered (pages_of pool.new self.new.memory.table.frame)
            self.new.memory.remembered }
        ensures rest { KeepsRest self.old.memory.quota pool.old pool.new
            self.old.memory.table self.new.memory.table }
        ensures same { self.new.memory.quota ≡ self.old.memory.quota }
        ensures entries { NoneEnters asid caches.old.tlb caches.new.tlb }
    {
        let mut space = Space::new(
            pool,
            &mut self.memory.table,
            &mut self.memory.quota,
            &mut caches.tlb,
            &mut self.memory.remembered,
            &mut self.memory.state,
            Tenancy {
                asid,
                pages: pages as usize,
            },
        );
        slice_with_blocks::<_, _, T>(
            &mut caches.ops,
            &mut *self.parts,
            &mut space,
            &mut NoEdges,
            steps,
        );
    }
}

/// Gives all frames of a memory back, ends its quota, and forgets its translations.
pub(crate) fn stop_memory(
    pool: &mut FramePool,
    tlb: &mut Tlb,
    asid: usize,
    pages: u32,
    memory: TenantMemory,
)
    requires { IsTenantMemory pool.old tlb.old asid pages memory }
    ensures others { KeepsOthers memory.quota pool.old pool.new }
    ensures reserved { sum pool.new.reserved + charge_of pages ≡ sum pool.old.reserved }
    ensures entries { tlb.new ≡ without_asid asid tlb.old }
    ensures capacities { pool.new.capacities ≡ pool.old.capacities }
{
    let TenantMemory {
        mut table,
        mut quota,
        ..
    } = memory;
    pool.recall();
    unmap_all(pool, &mut table, &mut quota, pages as usize);
    pool.recall();
    tlb.forget_all(asid);
    table.close(pool, &mut quota);
    pool.release(quota);
}
