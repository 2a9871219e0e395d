//! Pages mapped to fresh frames, and unmapped.

ghost use Rattle.std.specs.Prelude.{◌≡◌, ◌≢◌, ℕ, ◌<◌, ◌≤◌, ◌+◌, ◌^◌, List, None};
ghost use Rattle.std.specs.FinMap.{get};
ghost use Rattle.mte_tags.specs.Memory.{with_page, without_page, new_page, with_new_pages};
ghost use Rattle.mte_tags.specs.Memory.{without_pages, IsFree, ArePages};
ghost use Rattle.mte_tags.specs.declared.state.TagState.{TagState};
ghost use Rattle.mte_translate.specs.Tables.{pages_of, IsCached};
ghost use Rattle.mte_translate.specs.Translations.{without};
ghost use Rattle.mte_translate.specs.declared.translation.Translation.{Translation};
ghost use Rattle.mte_space.specs.Spaces.{space_memory, IsSpace, KeepsRest, NoneEnters};

use crate::space::Tenancy;
use mte_frames::{FramePool, Quota};
use mte_tags::Attrs;
use mte_translate::{Table, Tlb};

/// Consecutive pages: the number of the first, and how many there are.
#[derive(Clone, Copy)]
pub(crate) struct PageRange {
    pub(crate) first: u64,
    pub(crate) count: usize,
}

/// Maps a page to a frame of zero bytes and tags.
fn map_page(
    pool: &mut FramePool,
    table: &mut Table,
    quota: &mut Quota,
    limit: usize,
    page: u64,
    attrs: Attrs,
)
    requires space { IsSpace pool.old quota.old table.old limit }
    requires left { table.old.len < limit }
    requires low { page < 2 ^ 18 }
    requires unmapped { get (pages_of pool.old table.old.frame) page ≡ None }
    ensures space { IsSpace pool.new quota.new table.new limit }
    ensures memory { (s : TagState)
        → space_memory pool.new table.new limit s
        ≡ with_page (space_memory pool.old table.old limit s) page (new_page attrs.0) }
    ensures others { (q : ℕ)
        → q ≢ page
        → get (pages_of pool.new table.new.frame) q
        ≡ get (pages_of pool.old table.old.frame) q }
    ensures len { table.new.len ≡ table.old.len + 1 }
    ensures cached { (asid : ℕ) (ts : List Translation)
        → IsCached (pages_of pool.old table.old.frame) asid ts
        → IsCached (pages_of pool.new table.new.frame) asid ts }
    ensures rest { KeepsRest quota.old pool.old pool.new table.old table.new }
    ensures same { quota.new ≡ quota.old }
{
    let _ = limit;
    pool.recall();
    let frame = pool.take(quota);
    table.map(pool, quota, page, frame, attrs);
}

/// Maps pages that aren't mapped.
pub(crate) fn map_range(
    pool: &mut FramePool,
    table: &mut Table,
    quota: &mut Quota,
    limit: usize,
    pages: PageRange,
    attrs: Attrs,
)
    requires space { IsSpace pool.old quota.old table.old limit }
    requires left { table.old.len + pages.count ≤ limit }
    requires in_range { pages.first + pages.count ≤ 2 ^ 18 }
    requires free { (s : TagState)
        → IsFree (space_memory pool.old table.old limit s) pages.first pages.count }
    ensures space { IsSpace pool.new quota.new table.new limit }
    ensures memory { (s : TagState)
        → space_memory pool.new table.new limit s
        ≡ with_new_pages (space_memory pool.old table.old limit s) pages.first pages.count
        attrs }
    ensures cached { (asid : ℕ) (ts : List Translation)
        → IsCached (pages_of pool.old table.old.frame) asid ts
        → IsCached (pages_of pool.new table.new.frame) asid ts }
    ensures rest { KeepsRest quota.old pool.old pool.new table.old table.new }
    ensures same { quota.new ≡ quota.old }
{
    for i in 0..pages.count {
        map_page(pool, table, quota, limit, pages.first + i as u64, attrs);
    }
}

/// Ends the mapping of a page, if it has one, and gives its frame back.
pub(crate) fn unmap_page(
    pool: &mut FramePool,
    table: &mut Table,
    quota: &mut Quota,
    limit: usize,
    page: u64,
)
    requires space { IsSpace pool.old quota.old table.old limit }
    ensures space { IsSpace pool.new quota.new table.new limit }
    ensures memory { (s : TagState)
        → space_memory pool.new table.new limit s
        ≡ without_page (space_memory pool.old table.old limit s) page }
    ensures others { (q : ℕ)
        → q ≢ page
        → get (pages_of pool.new table.new.frame) q
        ≡ get (pages_of pool.old table.old.frame) q }
    ensures cached { (asid : ℕ) (ts : List Translation)
        → IsCached (pages_of pool.old table.old.frame) asid ts
        → IsCached (pages_of pool.new table.new.frame) asid (without asid page ts) }
    ensures fewer { get (pages_of pool.old table.old.frame) page ≢ None
        → table.new.len < table.old.len }
    ensures rest { KeepsRest quota.old pool.old pool.new table.old table.new }
    ensures same { quota.new ≡ quota.old }
{
    let _ = limit;
    let Some(frame) = table.unmap(pool, quota, page) else {
        return;
    };
    pool.recall();
    pool.give(quota, frame);
}

/// Unmaps pages that are mapped, and forgets their translations.
pub(crate) fn unmap_range(
    pool: &mut FramePool,
    table: &mut Table,
    quota: &mut Quota,
    tlb: &mut Tlb,
    tenant: Tenancy,
    pages: PageRange,
)
    requires space { IsSpace pool.old quota.old table.old tenant.pages }
    requires cached { IsCached (pages_of pool.old table.old.frame) tenant.asid tlb.old }
    requires mapped { (s : TagState)
        → ArePages (space_memory pool.old table.old tenant.pages s) pages.first pages.count }
    ensures space { IsSpace pool.new quota.new table.new tenant.pages }
    ensures memory { (s : TagState)
        → space_memory pool.new table.new tenant.pages s
        ≡ without_pages (space_memory pool.old table.old tenant.pages s) pages.first pages.count }
    ensures cached { IsCached (pages_of pool.new table.new.frame) tenant.asid tlb.new }
    ensures entries { NoneEnters tenant.asid tlb.old tlb.new }
    ensures rest { KeepsRest quota.old pool.old pool.new table.old table.new }
    ensures same { quota.new ≡ quota.old }
{
    for i in 0..pages.count {
        let gone = pages.first + i as u64;
        unmap_page(pool, table, quota, tenant.pages, gone);
        tlb.forget(tenant.asid, gone);
    }
}
