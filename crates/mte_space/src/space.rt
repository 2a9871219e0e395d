//! A tenant's memory over borrowed parts.

ghost use Rattle.std.specs.Prelude.{◌≡◌, ◌<◌, ◌≤◌, ◌^◌, IfSome, option_map};
ghost use Rattle.mte_tags.specs.Memory.{page_at};
ghost use Rattle.mte_translate.specs.Tables.{pages_of, IsTable, MapsOnce, IsCached};
ghost use Rattle.mte_space.specs.Remembered.{IsRemembered};
ghost use Rattle.mte_space.specs.Spaces.{space_memory, IsSpace, HasFrames};

use crate::mapping::{PageRange, map_range, unmap_range};
use crate::remembered::{
    CODE_PLACE, PLACES, RememberedPage, RememberedPages, data_place, is_key_of,
};
use crate::translation::translate;
use crate::writing::{retag_frame, write_frame};
use a64_bits::plain;
use mte_frames::{FramePool, Quota};
use mte_tags::{Attrs, NoPagesLeft, PageStore, Paged, TagState, replace_bytes};
use mte_translate::{Table, Tlb};

/// Whose memory it is, and how large it may be.
#[derive(Clone, Copy)]
pub struct Tenancy {
    /// The tenant's address space identifier.
    pub asid: usize,
    /// How many pages it may map at most.
    pub pages: usize,
}

/// A tenant's memory: the pages that its table maps, in frames of a pool that it shares with other
/// tenants, under its quota. Translations of its ASID are remembered in a translation lookaside
/// buffer, which it shares too, and where its last accesses found their pages is its own.
#[derive(Drop)]
pub struct Space<'a> {
    pool: &'a mut FramePool,
    table: &'a mut Table,
    quota: &'a mut Quota,
    tlb: &'a mut Tlb,
    state: &'a mut TagState,
    asid: usize,
    limit: usize,
    remembered: &'a mut RememberedPages,
    ghost space: { IsSpace pool.now quota.now table.now limit },
    ghost cached: { IsCached (pages_of pool.now table.now.frame) asid tlb.now },
    ghost up_to_date: { IsRemembered (pages_of pool.now table.now.frame) remembered.now },
}

impl<'a> Space<'a> {
    ghost use Rattle.mte_space.specs.SpaceMemory.{memory_of, IsKept, IsOver};
    ghost use Rattle.mte_space.specs.Places.{IsPlace, number_in, page_in};

    /// A tenant's memory of at most as many pages as it may map, over its table, its quota, its tag
    /// state and the pages that it remembers. The table maps no more, each in a frame of its own;
    /// the quota has a frame for each page and each leaf that may come; what the lookaside buffer
    /// remembers of the ASID, and what the tenant remembers, is what the table maps.
    pub fn new(
        pool: &'a mut FramePool,
        table: &'a mut Table,
        quota: &'a mut Quota,
        tlb: &'a mut Tlb,
        remembered: &'a mut RememberedPages,
        state: &'a mut TagState,
        tenant: Tenancy,
    ) -> Space<'a>
        requires table { IsTable pool.old quota.old table.old }
        requires most { table.old.len ≤ tenant.pages }
        requires once { MapsOnce (pages_of pool.old table.old.frame) }
        requires frames { HasFrames pool.old quota.old table.old tenant.pages }
        requires cached { IsCached (pages_of pool.old table.old.frame) tenant.asid tlb.old }
        requires remembered { IsRemembered (pages_of pool.old table.old.frame) remembered.old }
        ensures memory { memory_of result
            ≡ space_memory pool.old table.old tenant.pages state.old }
        ensures over { IsOver result pool.entry table.entry quota.entry tlb.entry state.entry
            remembered.entry tenant.asid tenant.pages }
    {
        Space {
            pool,
            table,
            quota,
            tlb,
            state,
            asid: tenant.asid,
            limit: tenant.pages,
            remembered,
        }
    }

    /// Sees to it that a page, if it is mapped, is remembered in a place.
    #[inline(always)]
    fn find_at(&mut self, place: usize, page: u64) -> Option<usize>
        requires low { page < 2 ^ 44 }
        requires within { place < PLACES }
        ensures place { IfSome result (λ i. IsPlace self.new i) }
        ensures number { IfSome result (λ i. number_in self.new i ≡ page) }
        ensures page { page_at (memory_of self.old) page ≡ option_map (page_in self.new) result }
        ensures memory { memory_of self.new ≡ memory_of self.old }
        ensures kept { IsKept self.old self.new }
    {
        if self.remembered.at(place).address == page * 4096 {
            return Some(place);
        }
        self.look_up(place, page)
    }

    /// Slow path: another page is remembered in the place.
    #[cold]
    #[inline(never)]
    fn look_up(&mut self, place: usize, page: u64) -> Option<usize>
        requires low { page < 2 ^ 44 }
        requires within { place < PLACES }
        ensures place { IfSome result (λ i. IsPlace self.new i) }
        ensures number { IfSome result (λ i. number_in self.new i ≡ page) }
        ensures page { page_at (memory_of self.old) page ≡ option_map (page_in self.new) result }
        ensures memory { memory_of self.new ≡ memory_of self.old }
        ensures kept { IsKept self.old self.new }
    {
        let (frame, attrs) = translate(self.pool, self.table, self.tlb, self.asid, page)?;
        self.remembered
            .set(place, RememberedPage::new(page, frame, attrs));
        Some(place)
    }
}

impl PageStore for Space<'_> {
    ghost use Rattle.mte_space.specs.SpaceMemory.{memory_of, IsKept};
    ghost use Rattle.mte_space.specs.KeptSpaces.{kept_same, kept_on};
    ghost use Rattle.mte_space.specs.Places.{IsPlace, number_in, page_in};

    ghost memory = { memory_of };

    ghost kept = { IsKept };

    ghost is_place = { IsPlace };

    ghost number_in = { number_in };

    ghost page_in = { page_in };

    fn tag_state(&mut self) -> TagState {
        *self.state
    }

    fn set_pending(&mut self) {
        self.state.pending = true;
    }

    #[inline(always)]
    fn find(&mut self, page: u64) -> Option<usize> {
        self.find_at(data_place(page), page)
    }

    #[inline(always)]
    fn readable_place(&self, addr: u64, size: u64) -> Option<usize> {
        let place = data_place(addr / 4096);
        let page = self.remembered.at(place);
        if is_key_of(page.readable, addr, size) {
            return Some(place);
        }
        None
    }

    #[inline(always)]
    fn writable_place(&self, addr: u64, size: u64) -> Option<usize> {
        let place = data_place(addr / 4096);
        let page = self.remembered.at(place);
        if is_key_of(page.writable, addr, size) {
            return Some(place);
        }
        None
    }

    #[inline(always)]
    fn find_code(&mut self, page: u64) -> Option<usize> {
        self.find_at(CODE_PLACE, page)
    }

    #[inline(always)]
    fn attrs(&self, place: usize) -> Attrs {
        self.remembered.at(place).attrs()
    }

    #[inline(always)]
    fn bytes(&self, place: usize) -> &[u8] {
        self.pool.bytes(self.remembered.at(place).frame)
    }

    #[inline(always)]
    fn granule_tag(&self, place: usize, granule: usize) -> u8 {
        self.pool.tag(self.remembered.at(place).frame, granule)
    }

    #[inline(always)]
    fn replace_run(&mut self, place: usize, at: u64, bytes: &[u8]) {
        write_frame(self.pool, self.remembered.at(place).frame, at, bytes);
    }

    #[inline(always)]
    fn retag(&mut self, place: usize, first: usize, count: usize, tag: u8, zero: bool) {
        let frame = self.remembered.at(place).frame;
        retag_frame(self.pool, frame, first, count, tag, zero);
    }

    ghost kept_same = { kept_same };

    ghost kept_on = { kept_on };
}

impl Paged for Space<'_> {
    fn pages_left(&mut self) -> usize {
        let mapped = self.table.len();
        self.limit - mapped
    }

    fn map_pages(&mut self, page: u64, count: usize, attrs: Attrs) -> Result<(), NoPagesLeft> {
        if count > self.limit - self.table.len() {
            return Err(NoPagesLeft);
        }
        let pages = PageRange { first: page, count };
        map_range(self.pool, self.table, self.quota, self.limit, pages, attrs);
        Ok(())
    }

    fn unmap_pages(&mut self, page: u64, count: usize) {
        self.remembered.forget();
        let pages = PageRange { first: page, count };
        let tenant = Tenancy {
            asid: self.asid,
            pages: self.limit,
        };
        unmap_range(self.pool, self.table, self.quota, self.tlb, tenant, pages);
    }

    fn load_bytes(&mut self, addr: u64, bytes: &[u8]) {
        replace_bytes(self, plain(addr), bytes);
    }
}
