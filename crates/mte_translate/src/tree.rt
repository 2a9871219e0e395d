//! The steps that a table is changed by: a leaf without pages is hung into the root or taken out of
//! it, a page is put into a leaf that is there or taken out of it.

ghost use Rattle.std.specs.Prelude.{◌≡◌, ◌≢◌, ℕ, ◌+◌, ◌*◌, ◌/◌, ◌<◌, ◌≤◌};
ghost use Rattle.std.specs.Prelude.{true, false};
ghost use Rattle.common.specs.declared.limits.TheConstants.{MAX_FRAMES};
ghost use Rattle.mte_frames.specs.Pool.{IsHeldBy, HasFrameLeft, taken_by};
ghost use Rattle.mte_translate.specs.Tables.{entry_at, is_valid, count_in, walk_at};
ghost use Rattle.mte_translate.specs.Tables.{IsTreeOf, IsSlotOf, IsPageOf, IsApart};
ghost use Rattle.mte_translate.specs.Tables.{HasLeafLeft, has_leaf, missing_leaf};
ghost use Rattle.mte_translate.specs.TableSteps.{KeepsRest, KeepsWalks, KeepsWalksBut};

use crate::entries::{LeafEntry, RootEntry, TABLE_PAGES, entry, set_entry};
use mte_frames::{FramePool, Quota};
use mte_tags::Attrs;

/// Hangs a leaf without pages into the root.
pub(crate) fn add_leaf(pool: &mut FramePool, quota: &mut Quota, root: usize, slot: u64)
    requires slot { IsSlotOf pool.old quota.old root slot }
    requires absent { is_valid (entry_at pool.old root slot) ≡ false }
    requires room { HasFrameLeft pool.old quota.old }
    ensures tree { IsTreeOf pool.new quota.new root }
    ensures there { is_valid (entry_at pool.new root slot) ≡ true }
    ensures walks { KeepsWalks root pool.old pool.new }
    ensures rest { KeepsRest quota.old root slot pool.old pool.new }
    ensures quota { quota.new ≡ quota.old }
    ensures taken { taken_by pool.new quota.old ≡ taken_by pool.old quota.old + 1 }
{
    pool.recall();
    let leaf = pool.take(quota);
    set_entry(pool, root, slot, RootEntry::new(leaf).0);
}

/// Takes a leaf without pages out of the root, and gives its frame back.
pub(crate) fn drop_leaf(pool: &mut FramePool, quota: &mut Quota, root: usize, slot: u64)
    requires slot { IsSlotOf pool.old quota.old root slot }
    requires there { is_valid (entry_at pool.old root slot) ≡ true }
    requires empty { count_in (entry_at pool.old root slot) ≡ 0 }
    ensures tree { IsTreeOf pool.new quota.new root }
    ensures absent { is_valid (entry_at pool.new root slot) ≡ false }
    ensures walks { KeepsWalks root pool.old pool.new }
    ensures rest { KeepsRest quota.old root slot pool.old pool.new }
    ensures quota { quota.new ≡ quota.old }
    ensures taken { taken_by pool.new quota.old + 1 ≡ taken_by pool.old quota.old }
{
    let leaf = RootEntry(entry(pool, root, slot)).leaf();
    set_entry(pool, root, slot, 0);
    pool.recall();
    pool.give(quota, leaf);
}

/// Puts a page into its leaf, which is there.
pub(crate) fn put_page(
    pool: &mut FramePool,
    quota: &Quota,
    root: usize,
    page: u64,
    frame: usize,
    attrs: Attrs,
)
    requires page { IsPageOf pool.old quota.now root page }
    requires leaf { is_valid (entry_at pool.old root (page / 512)) ≡ true }
    requires absent { is_valid (walk_at pool.old root page) ≡ false }
    requires out { IsHeldBy pool.old frame quota.now }
    requires apart { IsApart pool.old root frame }
    ensures tree { IsTreeOf pool.new quota.now root }
    ensures walk { walk_at pool.new root page ≡ 512 * frame + 2 * attrs.0 + 1 }
    ensures attrs { attrs.0 < 256 }
    ensures walks { KeepsWalksBut root page pool.old pool.new }
    ensures leaf { is_valid (entry_at pool.new root (page / 512)) ≡ true }
    ensures rest { KeepsRest quota.now root (page / 512) pool.old pool.new }
    ensures taken { taken_by pool.new quota.now ≡ taken_by pool.old quota.now }
{
    // the quota is there for the contract, and so is what holds of every pool
    let _ = quota;
    pool.recall();
    let root_entry = entry(pool, root, page / 512);
    let leaf = RootEntry(root_entry).leaf();
    set_entry(pool, leaf, page % 512, LeafEntry::new(frame, attrs).0);
    set_entry(pool, root, page / 512, root_entry + 2);
}

/// Takes a page out of its leaf.
pub(crate) fn take_page(pool: &mut FramePool, quota: &Quota, root: usize, page: u64)
    requires page { IsPageOf pool.old quota.now root page }
    requires there { is_valid (walk_at pool.old root page) ≡ true }
    ensures tree { IsTreeOf pool.new quota.now root }
    ensures walk { walk_at pool.new root page ≡ 0 }
    ensures walks { KeepsWalksBut root page pool.old pool.new }
    ensures leaf { is_valid (entry_at pool.new root (page / 512)) ≡ true }
    ensures rest { KeepsRest quota.now root (page / 512) pool.old pool.new }
    ensures taken { taken_by pool.new quota.now ≡ taken_by pool.old quota.now }
{
    // the quota is there for the contract
    let _ = quota;
    let root_entry = entry(pool, root, page / 512);
    let leaf = RootEntry(root_entry).leaf();
    set_entry(pool, leaf, page % 512, 0);
    set_entry(pool, root, page / 512, root_entry - 2);
}

/// Sees that a page has a leaf. The result is how many leaves were added, 0 or 1.
pub(crate) fn want_leaf(pool: &mut FramePool, quota: &mut Quota, root: usize, page: u64) -> usize
    requires page { IsPageOf pool.old quota.old root page }
    requires room { HasLeafLeft pool.old quota.old root page }
    ensures tree { IsTreeOf pool.new quota.new root }
    ensures there { has_leaf pool.new root page ≡ true }
    ensures walks { KeepsWalks root pool.old pool.new }
    ensures rest { KeepsRest quota.old root (page / 512) pool.old pool.new }
    ensures quota { quota.new ≡ quota.old }
    ensures added { result ≡ missing_leaf pool.old root page }
    ensures taken { taken_by pool.new quota.old
        ≡ taken_by pool.old quota.old + missing_leaf pool.old root page }
{
    if RootEntry(entry(pool, root, page / 512)).is_valid() {
        return 0;
    }
    add_leaf(pool, quota, root, page / 512);
    1
}

/// Gives back the leaf of a page, which is there, if it maps no page. The result is how many leaves
/// were given back, 0 or 1.
pub(crate) fn trim_leaf(pool: &mut FramePool, quota: &mut Quota, root: usize, page: u64) -> usize
    requires page { IsPageOf pool.old quota.old root page }
    requires there { has_leaf pool.old root page ≡ true }
    ensures tree { IsTreeOf pool.new quota.new root }
    ensures tight { has_leaf pool.new root page ≡ true
        → count_in (entry_at pool.new root (page / 512)) ≢ 0 }
    ensures walks { KeepsWalks root pool.old pool.new }
    ensures rest { KeepsRest quota.old root (page / 512) pool.old pool.new }
    ensures quota { quota.new ≡ quota.old }
    ensures dropped { result ≡ missing_leaf pool.new root page }
    ensures taken { taken_by pool.new quota.old + missing_leaf pool.new root page
        ≡ taken_by pool.old quota.old }
{
    if RootEntry(entry(pool, root, page / 512)).count() != 0 {
        return 0;
    }
    drop_leaf(pool, quota, root, page / 512);
    1
}
