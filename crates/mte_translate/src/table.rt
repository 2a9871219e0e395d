//! A translation table of two levels.

ghost use Rattle.std.specs.Prelude.{◌≡◌, ◌≢◌, ℕ, ◌+◌, ◌-◌, ◌<◌, ◌≤◌, Option, Some, None};
ghost use Rattle.std.specs.Prelude.{IfSome, OnSome, option_map, get_or, slice_set};
ghost use Rattle.std.specs.FinMap.{get, insert, remove, empty};
ghost use Rattle.mte_arena.specs.Frames.{zero_frame};
ghost use Rattle.mte_frames.specs.Pool.{HasFrameLeft};
ghost use Rattle.mte_frames.specs.Pool.{IsHeldBy, KeepsOthers, make_pool, taken_by, reserved_by};
ghost use Rattle.mte_translate.specs.Tables.{pages_of, missing_leaf, IsApart, IsTable, HasLeafLeft};
ghost use Rattle.mte_translate.specs.Tables.{IsSomeTable, KeepsData, MapsOnce, MapsNever, IsFirst};

use crate::entries::{ENTRIES, LeafEntry, RootEntry, TABLE_PAGES, entry, first_valid};
use crate::tree::{put_page, take_page, trim_leaf, want_leaf};
use mte_frames::{FramePool, Quota};
use mte_tags::Attrs;
use std::marker::Model;

/// Which frame holds each page of an address space below 2^18, and what may be done with it.
///
/// The table stands in frames of its own: a root, and a leaf for each 512 pages of which one is
/// mapped. It is used with the pool and the quota that it was made with, and its own frames are
/// written and given back by its calls alone. Where it is dropped without `close`, its root stays
/// out.
#[derive(Drop)]
pub struct Table {
    root: usize,
    len: usize,
    leaves: usize,
}

impl Model for Table {
    ghost use Rattle.mte_translate.specs.Tables.{Root};

    ghost Value = { Root };

    ghost view = { λ t. record { frame = t.root; len = t.len; leaves = t.leaves } };
}

impl Table {
    /// A table that maps nothing. It takes one frame, its root.
    pub fn new(pool: &mut FramePool, quota: &mut Quota) -> Table
        requires { HasFrameLeft pool.old quota.old }
        ensures table { IsTable pool.new quota.new result }
        ensures counts { (result.len ≡ 0) × (result.leaves ≡ 0) }
        ensures pages { pages_of pool.new result.frame ≡ empty }
        ensures once { MapsOnce (pages_of pool.new result.frame) }
        ensures same { quota.new ≡ quota.old }
        ensures vacant { get_or pool.old.owners result.frame (Some 0) ≡ None }
        ensures pool { pool.new
            ≡ make_pool pool.old.capacities
            (slice_set pool.old.frames result.frame (Some zero_frame))
            (slice_set pool.old.owners result.frame (Some quota.old)) pool.old.reserved
            (slice_set pool.old.taken quota.old (taken_by pool.old quota.old + 1)) }
        ensures others { KeepsOthers quota.old pool.old pool.new }
    {
        Table {
            root: pool.take(quota),
            len: 0,
            leaves: 0,
        }
    }

    /// How many pages are mapped.
    pub fn len(&self) -> usize
        ensures { result ≡ self.now.len }
    {
        self.len
    }

    /// How many leaves there are: one frame each.
    pub fn leaves(&self) -> usize
        ensures { result ≡ self.now.leaves }
    {
        self.leaves
    }

    /// The frame and the attributes of a page, or `None` where it isn't mapped.
    #[inline]
    pub fn walk(&self, pool: &FramePool, page: u64) -> Option<(usize, Attrs)>
        requires { IsSomeTable pool.now self.now }
        ensures { result ≡ get (pages_of pool.now self.now.frame) page }
    {
        if page >= TABLE_PAGES {
            return None;
        }
        let root_entry = RootEntry(entry(pool, self.root, page / ENTRIES));
        if !root_entry.is_valid() {
            return None;
        }
        let leaf_entry = LeafEntry(entry(pool, root_entry.leaf(), page % ENTRIES));
        if !leaf_entry.is_valid() {
            return None;
        }
        Some((leaf_entry.frame(), leaf_entry.attrs()))
    }

    /// The least page that is mapped, if there is one. It looks at up to 1024 entries.
    pub fn first(&self, pool: &FramePool) -> Option<u64>
        requires { IsSomeTable pool.now self.now }
        ensures some { IfSome result (λ q. IsFirst (pages_of pool.now self.now.frame) q) }
        ensures none { result ≡ None → self.now.len ≡ 0 }
    {
        let slot = first_valid(pool, self.root)?;
        let leaf = RootEntry(entry(pool, self.root, slot)).leaf();
        let index = first_valid(pool, leaf)?;
        Some(ENTRIES * slot + index)
    }

    /// Maps a page to a frame that is out under the quota. It takes a frame for the page's leaf,
    /// where that isn't there.
    pub fn map(
        &mut self,
        pool: &mut FramePool,
        quota: &mut Quota,
        page: u64,
        frame: usize,
        attrs: Attrs,
    )
        requires table { IsTable pool.old quota.old self.old }
        requires low { page < TABLE_PAGES }
        requires unmapped { get (pages_of pool.old self.old.frame) page ≡ None }
        requires out { IsHeldBy pool.old frame quota.old }
        requires apart { IsApart pool.old self.old.frame frame }
        requires room { HasLeafLeft pool.old quota.old self.old.frame page }
        ensures table { IsTable pool.new quota.new self.new }
        ensures pages { pages_of pool.new self.new.frame
            ≡ insert (pages_of pool.old self.old.frame) page (frame, attrs) }
        ensures counts { self.new
            ≡ record {
              frame = self.old.frame;
              len = self.old.len + 1;
              leaves = self.old.leaves + missing_leaf pool.old self.old.frame page;
            } }
        ensures once { MapsNever (pages_of pool.old self.old.frame) frame
            → MapsOnce (pages_of pool.old self.old.frame)
            → MapsOnce (pages_of pool.new self.new.frame) }
        ensures same { quota.new ≡ quota.old }
        ensures taken { taken_by pool.new quota.old
            ≡ taken_by pool.old quota.old + missing_leaf pool.old self.old.frame page }
        ensures reserved { reserved_by pool.new quota.old ≡ reserved_by pool.old quota.old }
        ensures kept { KeepsData quota.old self.old.frame pool.old pool.new }
        ensures others { KeepsOthers quota.old pool.old pool.new }
        ensures capacities { pool.new.capacities ≡ pool.old.capacities }
    {
        self.leaves += want_leaf(pool, quota, self.root, page);
        put_page(pool, quota, self.root, page, frame, attrs);
        self.len += 1;
    }

    /// Ends the mapping of a page and returns its frame, which stays out; or returns `None`, and
    /// changes nothing, where the page isn't mapped. It gives back the page's leaf with its last
    /// page.
    pub fn unmap(&mut self, pool: &mut FramePool, quota: &mut Quota, page: u64) -> Option<usize>
        requires { IsTable pool.old quota.old self.old }
        ensures table { IsTable pool.new quota.new self.new }
        ensures frame { result
            ≡ option_map (λ x. x.0) (get (pages_of pool.old self.old.frame) page) }
        ensures pages { pages_of pool.new self.new.frame
            ≡ remove (pages_of pool.old self.old.frame) page }
        ensures none { result ≡ None → (pool.new ≡ pool.old) × (self.new ≡ self.old) }
        ensures free { IfSome result
            (λ f. IsHeldBy pool.new f quota.old × IsApart pool.new self.new.frame f) }
        ensures never { IfSome result
            (λ f. MapsOnce (pages_of pool.old self.old.frame)
            → MapsNever (pages_of pool.new self.new.frame) f) }
        ensures counts { OnSome result
            (self.new
            ≡ record {
              frame = self.old.frame;
              len = self.old.len - 1;
              leaves = self.old.leaves - missing_leaf pool.new self.old.frame page;
            }) }
        ensures once { MapsOnce (pages_of pool.old self.old.frame)
            → MapsOnce (pages_of pool.new self.new.frame) }
        ensures same { quota.new ≡ quota.old }
        ensures taken { OnSome result
            (taken_by pool.new quota.old + missing_leaf pool.new self.old.frame page
            ≡ taken_by pool.old quota.old) }
        ensures reserved { reserved_by pool.new quota.old ≡ reserved_by pool.old quota.old }
        ensures kept { KeepsData quota.old self.old.frame pool.old pool.new }
        ensures others { KeepsOthers quota.old pool.old pool.new }
        ensures capacities { pool.new.capacities ≡ pool.old.capacities }
    {
        let (frame, _) = self.walk(pool, page)?;
        take_page(pool, quota, self.root, page);
        self.leaves -= trim_leaf(pool, quota, self.root, page);
        self.len -= 1;
        Some(frame)
    }

    /// Ends a table that maps nothing, and gives its root back: no frame of its own is out any
    /// more.
    pub fn close(self, pool: &mut FramePool, quota: &mut Quota)
        requires table { IsTable pool.old quota.old self }
        requires empty { self.len ≡ 0 }
        ensures same { quota.new ≡ quota.old }
        ensures pool { pool.new
            ≡ make_pool pool.old.capacities pool.old.frames
            (slice_set pool.old.owners self.frame None) pool.old.reserved
            (slice_set pool.old.taken quota.old (taken_by pool.old quota.old - 1)) }
        ensures back { (f : ℕ) → IsHeldBy pool.new f quota.old → IsApart pool.old self.frame f }
        ensures others { KeepsOthers quota.old pool.old pool.new }
    {
        pool.give(quota, self.root);
    }
}
