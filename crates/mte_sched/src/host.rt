//! The host: admission, slices, stops.

ghost use Rattle.std.specs.Prelude.{◌≡◌, ℕ, ◌⊎◌, ◌<◌, ◌↔◌, IfOk, IfErr, Err, OnOk, OnErr, IsOk};
ghost use Rattle.std.specs.Prelude.{IfSome, Some, None, true, false, length, count_by, is_ok};
ghost use Rattle.std.specs.Prelude.{if◌then◌else◌, vec_len, vec_capacity};
ghost use Rattle.std.specs.Prelude.{option_copied, option_map};
ghost use Rattle.std.specs.Option.{option_copied_mut};
ghost use Rattle.std.specs.Borrow.{sem};
ghost use Rattle.std.specs.List.{list_any};
ghost use Rattle.common.specs.Obstacles.{IfRefused};
ghost use Rattle.mte_tenant.specs.Ledger.{admission_refusal, facts_of, has_id, has_live_id};
ghost use Rattle.mte_tenant.specs.Ledger.{is_bad, is_live, numbers_of};
ghost use Rattle.mte_sched.specs.Tenants.{entries_in, tenants_in};
ghost use Rattle.mte_tenant.specs.Admissions.{start_in};
ghost use Rattle.mte_sched.specs.Rooms.{room_for_one};
ghost use Rattle.mte_sched.specs.Sharing.{IsSharing, IsIndexed, HasId, HasLiveAt};

use crate::index::Index;
use crate::memory::start_memory;
use crate::tenant::{Caches, Holding, Live, Tenant};
use crate::turns::{slice_at, stop_at};
use a64_run::{CompiledBlocks, NoBlocks, OpCache};
use common::{MAX_FRAMES, Obstacle};
use mte_arena::{Arena, ArenaError, FRAME_BYTES};
use mte_frames::FramePool;
use mte_space::RememberedPages;
use mte_svc::Record;
use mte_tenant::{
    Admission, AdmitError, LedgerFacts, NotLive, accept, accepted_means, start_parts,
};
use mte_translate::Tlb;
use scudo_heap::condition_of_calls;
use std::alloc::{AllocError, Global};

/// A host of tenants, whose memories are in the frames of one pool.
pub struct Host {
    pool: FramePool,
    caches: Caches,
    tenants: Vec<Tenant>,
    index: Index,
    /// How many tenants are live.
    live: usize,
    ghost sharing: { IsSharing pool caches.tlb tenants.items },
    ghost indexed: { IsIndexed index.positions.items (numbers_of (entries_in tenants.items)) },
    ghost counted: { live ≡ count_by is_live (entries_in tenants.items) },
}

impl Drop for Host {
    fn drop(self) {
        let Host {
            pool: _,
            caches: _,
            tenants: _,
            index: _,
            live: _,
        } = self;
    }
}

impl Host {
    ghost use Rattle.mte_arena.specs.declared.arena.ArenaError.TheVariants.{BadCount};
    ghost use Rattle.mte_sched.specs.Contents.{after_admit, after_slice_of, after_stop_of, empty};
    ghost use Rattle.mte_sched.specs.Views.{record_among, page_among, Holds};
    ghost use Rattle.mte_sched.specs.Hosts.{pool_of, content_of, frame_in, ledger_in, rooms_of};
    ghost use Rattle.mte_sched.specs.Rooms.{rooms_after_admission};
    ghost use Rattle.mte_sched.specs.Loans.{lends_page};

    /// A host of `frames` frames, without tenants. The number is tested before any memory is taken;
    /// `OutOfMemory` comes only where an allocation was refused.
    pub fn new(alloc: Global, frames: u32) -> Result<Host, ArenaError>
        ensures ok { IfOk result (λ h. content_of h ≡ empty frames) }
        ensures bad_count { (result ≡ Err BadCount) ↔ ((frames ≡ 0) ⊎ (MAX_FRAMES < frames)) }
    {
        let arena = Arena::new(alloc, frames as usize)?;
        let Ok(pool) = FramePool::new(alloc, arena) else {
            return Err(ArenaError::OutOfMemory);
        };
        let Ok(index) = Index::new(alloc) else {
            return Err(ArenaError::OutOfMemory);
        };
        let Ok(ops) = OpCache::new(alloc) else {
            return Err(ArenaError::OutOfMemory);
        };
        Ok(Host {
            pool,
            caches: Caches {
                tlb: Tlb::new(),
                ops,
            },
            tenants: Vec::new(alloc),
            index,
            live: 0,
        })
    }

    /// Admits a tenant, or returns the first refusal that applies. Only `OutOfMemory`, where an
    /// allocation failed, can come instead of the refusals from `Image` on. How much memory the
    /// host's lists take depends on the number of tenants that were admitted alone.
    #[tactic(auto, unfolding(crate::specs::Contents::after_admit))]
    pub fn admit(
        &mut self,
        alloc: Global,
        admission: &Admission<'_>,
    ) -> Result<(), Obstacle<AdmitError>>
        ensures accepted { OnOk result (admission_refusal (content_of self.old).frames
            (ledger_in self.old) admission.now.id (start_in admission.now) ≡ None) }
        ensures ok { OnOk result (content_of self.new
            ≡ after_admit (content_of self.old) admission.now.id (start_in admission.now)) }
        ensures refused { IfErr result (λ o. IfRefused o (λ e.
            admission_refusal (content_of self.old).frames (ledger_in self.old)
            admission.now.id (start_in admission.now) ≡ Some e)) }
        ensures memory { (result ≡ Err Obstacle.OutOfMemory)
            → (list_any (has_id admission.now.id) (ledger_in self.old) ≡ false)
            × (is_bad admission.now.terms ≡ false) }
        ensures err { OnErr result (content_of self.new ≡ content_of self.old) }
        ensures rooms { rooms_of self.new ≡ (if is_ok result
            then rooms_after_admission (length (ledger_in self.old)) (rooms_of self.old)
            else rooms_of self.old) }
    {
        condition_of_calls();
        let facts = self.ledger_facts(admission.id);
        let plan = accept(alloc, admission, facts)?;
        accepted_means(facts, admission);
        // In front of the output's room, so that the next tenant takes the same block.
        let remembered = RememberedPages::new(alloc)?;
        let first = start_parts(alloc, admission, &plan)?;
        let parts = Box::new(alloc, first)?;
        make_room(&mut self.tenants)?;
        let asid = self.tenants.len();
        self.index.enter(admission.id, asid);
        let tlb = &mut self.caches.tlb;
        let memory = start_memory(&mut self.pool, tlb, asid, admission, &plan, remembered);
        self.tenants.push_reserved(Tenant {
            pages: admission.terms.pages,
            holding: Holding::Live(Live { parts, memory }),
        });
        self.live += 1;
        Ok(())
    }

    /// Lets a live tenant attempt at most `steps` instructions; one that has ended does nothing. It
    /// is refused if and only if no live tenant has the number, and then changes nothing. No list
    /// of the host takes memory. Blocks that were compiled change nothing of it.
    #[tactic(auto, unfolding(crate::specs::Contents::after_slice_of))]
    pub fn slice_with_blocks<T: CompiledBlocks>(
        &mut self,
        id: u16,
        steps: u32,
    ) -> Result<(), NotLive>
        ensures live { IsOk result ↔ (list_any (has_live_id id) (ledger_in self.old) ≡ true) }
        ensures ok { OnOk result (content_of self.new
            ≡ after_slice_of (content_of self.old) id steps) }
        ensures err { OnErr result (content_of self.new ≡ content_of self.old) }
        ensures rooms { rooms_of self.new ≡ rooms_of self.old }
    {
        let Some(asid) = self.find_live(id) else {
            return Err(NotLive);
        };
        let tenants = self.tenants.as_mut_slice();
        slice_at::<T>(&mut self.pool, &mut self.caches, tenants, asid, id, steps);
        Ok(())
    }

    /// The same slice by the table alone.
    pub fn slice(&mut self, id: u16, steps: u32) -> Result<(), NotLive>
        ensures live { IsOk result ↔ (list_any (has_live_id id) (ledger_in self.old) ≡ true) }
        ensures ok { OnOk result (content_of self.new
            ≡ after_slice_of (content_of self.old) id steps) }
        ensures err { OnErr result (content_of self.new ≡ content_of self.old) }
        ensures rooms { rooms_of self.new ≡ rooms_of self.old }
    {
        self.slice_with_blocks::<NoBlocks>(id, steps)
    }

    /// Stops a live tenant; its record stays. It is refused if and only if no live tenant has the
    /// number, and then changes nothing. No list of the host takes memory.
    #[tactic(auto, unfolding(crate::specs::Contents::after_stop_of))]
    pub fn stop(&mut self, id: u16) -> Result<(), NotLive>
        ensures live { IsOk result ↔ (list_any (has_live_id id) (ledger_in self.old) ≡ true) }
        ensures ok { OnOk result (content_of self.new ≡ after_stop_of (content_of self.old) id) }
        ensures err { OnErr result (content_of self.new ≡ content_of self.old) }
        ensures rooms { rooms_of self.new ≡ rooms_of self.old }
    {
        let Some(asid) = self.find_live(id) else {
            return Err(NotLive);
        };
        stop_at(
            &mut self.pool,
            &mut self.caches.tlb,
            &mut self.tenants,
            asid,
            id,
        );
        self.live -= 1;
        Ok(())
    }

    /// The record of the tenant admitted with the number, stopped or not; `None` where none
    /// was.
    pub fn view(&self, id: u16) -> Option<&Record>
        ensures { option_copied result ≡ record_among id (content_of self.now).tenants }
    {
        let tenant = self.find(id)?;
        Some(tenant.record())
    }

    /// The frame that holds a page of the live tenant with the number; `None` where it has no such
    /// page. It is out, and the page's bytes and tags are the frame's. No frame holds two pages, of
    /// one tenant or of two.
    pub fn frame_of(&self, id: u16, page: u64) -> Option<usize>
        ensures frame { result ≡ frame_in self.now id page }
        ensures holds { IfSome result (λ f.
            Holds (pool_of self.now) f (page_among id page (content_of self.now).tenants)) }
        ensures none { result ≡ None → page_among id page (content_of self.now).tenants ≡ None }
        ensures apart { IfSome result (λ f. (other r : ℕ)
            → frame_in self.now other r ≡ Some f → (other ≡ id) × (r ≡ page)) }
    {
        self.find_frame(id, page)
    }

    /// The bytes of a page of the live tenant with the number, to be written: those of the frame
    /// that holds it. `None` where there is no such page. What is left there is the page's bytes in
    /// the tenant's machine, code included; its attributes, its tags and all else stay.
    pub fn page_mut(&mut self, id: u16, page: u64) -> Option<&mut [u8; FRAME_BYTES]>
        ensures* writes_back { sem 𝓛 (lends_page self.entry id page result) }
        ensures value { option_copied_mut result
            ≡ option_map (λ p. p.bytes) (page_among id page (content_of self.old).tenants) }
    {
        self.pool.recall();
        let frame = self.find_frame(id, page);
        self.pool.data_mut_if(frame)
    }

    /// The tenants, in the order of their admissions.
    pub fn tenants(&self) -> &[Tenant]
        ensures { (content_of self.now).tenants ≡ tenants_in (pool_of self.now) result.now }
    {
        self.tenants.as_slice()
    }

    /// The frames that all tenants share.
    pub fn pool(&self) -> &FramePool
        ensures value { result.now ≡ pool_of self.now }
        ensures count { length result.now.frames ≡ (content_of self.now).frames }
    {
        &self.pool
    }

    /// The facts of the ledger for an admission with the number.
    fn ledger_facts(&self, id: u16) -> LedgerFacts
        ensures { result ≡ facts_of (length self.now.pool.frames)
            (entries_in self.now.tenants.items) id }
    {
        LedgerFacts {
            known: self.find(id).is_some(),
            left: self.pool.unreserved() as u64,
            live: self.live,
        }
    }

    /// The tenant that was admitted with the number.
    fn find(&self, id: u16) -> Option<&Tenant>
        ensures some { IfSome result (λ t. HasId self.now.tenants.items id t.now) }
        ensures none { result ≡ None
            → list_any (has_id id) (entries_in self.now.tenants.items) ≡ false }
    {
        let i = self.index.position(id);
        let tenant = self.tenants.get(i)?;
        if tenant.has_id(id) {
            Some(tenant)
        } else {
            None
        }
    }

    /// Which tenant is live and has the number.
    fn find_live(&self, id: u16) -> Option<usize>
        ensures some { IfSome result (λ i. HasLiveAt self.now.tenants.items i id) }
        ensures none { result ≡ None
            → list_any (has_live_id id) (entries_in self.now.tenants.items) ≡ false }
    {
        let i = self.index.position(id);
        let tenant = self.tenants.get(i)?;
        if tenant.has_live_id(id) {
            Some(i)
        } else {
            None
        }
    }

    /// The frame of a page, by the table of the tenant with the number.
    fn find_frame(&self, id: u16, page: u64) -> Option<usize>
        ensures { result ≡ frame_in self.now id page }
    {
        let tenant = self.find(id)?;
        tenant.find_frame(&self.pool, page)
    }
}

/// Makes room for one more tenant: where there is none, for twice as many, and for four at least.
fn make_room(tenants: &mut Vec<Tenant>) -> Result<(), AllocError>
    ensures items { tenants.new.items ≡ tenants.old.items }
    ensures some { OnOk result (vec_len tenants.new < vec_capacity tenants.new) }
    ensures ok { OnOk result (vec_capacity tenants.new
        ≡ room_for_one (vec_capacity tenants.old) (vec_len tenants.old)) }
    ensures err { OnErr result (vec_capacity tenants.new ≡ vec_capacity tenants.old) }
{
    let count = tenants.len();
    if count < tenants.capacity() {
        return Ok(());
    }
    tenants.reserve_exact(count.max(4))
}
