//! A plain tagged memory with a snapshot, to which it can be restored.

ghost use Rattle.std.specs.Prelude.{◌≡◌, IfOk, OnOk, OnErr};

use crate::flat::Flat;
use crate::pages::Pages;
use mte_tags::{Attrs, ChunkAccess, MemFault, NoPagesLeft, Paged, Tagged};
use std::alloc::{AllocError, Global};
use std::marker::Model;

/// A tagged memory of its own that knows which of its pages may be others than in its snapshot.
pub struct SnapshotMemory {
    pages: Pages,
    saved: Pages,
}

impl Drop for SnapshotMemory {
    fn drop(self) {
        let SnapshotMemory { pages: _, saved: _ } = self;
    }
}

impl Model for SnapshotMemory {
    ghost use Rattle.mte_flat.specs.Snapshots.{SnapshotState, coded_snapshot};
    ghost use Rattle.mte_flat.specs.Inner.SnapshotView.{snapshot_state, IsSnapshot};

    ghost Value = { SnapshotState };

    ghost coded = { coded_snapshot };

    ghost view = { snapshot_state };

    ghost invariant = { IsSnapshot };
}

impl SnapshotMemory {
    /// A copy of a memory, and its snapshot. It is refused only where its memory is.
    pub fn new(alloc: Global, memory: &Flat) -> Result<SnapshotMemory, AllocError>
        ensures now { IfOk result (λ copy. copy.now ≡ memory.now) }
        ensures saved { IfOk result (λ copy. copy.saved ≡ memory.now) }
    {
        let saved = memory.pages.copy_unmarked(alloc)?;
        let pages = saved.copy(alloc)?;
        Ok(SnapshotMemory { pages, saved })
    }

    /// Makes the snapshot that of the memory now. Where memory is refused, nothing changes.
    pub fn save(&mut self, alloc: Global) -> Result<(), AllocError>
        ensures saved { OnOk result (self.new.saved ≡ self.old.now) }
        ensures err { OnErr result (self.new.saved ≡ self.old.saved) }
        ensures now { self.new.now ≡ self.old.now }
    {
        let saved = self.pages.copy_unmarked(alloc)?;
        let pages = saved.copy(alloc)?;
        self.pages = pages;
        self.saved = saved;
        Ok(())
    }

    /// Makes the memory that of the snapshot. It takes time for the pages that were written, mapped
    /// or unmapped since, and a look at each other one.
    pub fn restore(&mut self)
        ensures now { self.new.now ≡ self.old.saved }
        ensures saved { self.new.saved ≡ self.old.saved }
    {
        self.pages.restore(&self.saved);
    }
}

impl Tagged for SnapshotMemory {
    ghost use Rattle.mte_flat.specs.Snapshots.{SavedStays, saved_same, saved_on};

    ghost memory = { λ f. f.now };

    ghost kept = { SavedStays };

    #[inline(always)]
    fn fetch(&mut self, pc: u64) -> Result<u32, MemFault> {
        self.pages.fetch(pc)
    }

    #[inline(always)]
    fn fetch_words(&mut self, pc: u64, words: &mut [u32; 16]) -> bool {
        self.pages.fetch_words(pc, words)
    }

    #[inline(always)]
    fn read(&mut self, addr: u64, buffer: &mut [u8], check: bool) -> Result<(), MemFault> {
        self.pages.read(addr, buffer, check)
    }

    #[inline(always)]
    fn write(&mut self, addr: u64, bytes: &[u8], check: bool) -> Result<(), MemFault> {
        self.pages.write(addr, bytes, check)
    }

    #[inline(always)]
    fn load_tag(&mut self, addr: u64) -> Result<u8, MemFault> {
        self.pages.load_tag(addr)
    }

    #[inline(always)]
    fn store_tags(
        &mut self,
        addr: u64,
        granules: u64,
        tag: u8,
        zero: bool,
    ) -> Result<(), MemFault> {
        self.pages.store_tags(addr, granules, tag, zero)
    }

    #[inline]
    fn has_attrs(&mut self, addr: u64, attrs: Attrs) -> bool {
        self.pages.has_attrs(addr, attrs)
    }

    #[inline]
    fn pending(&mut self) -> bool {
        self.pages.pending()
    }

    ghost kept_same = { saved_same };

    ghost kept_on = { saved_on };
}

impl ChunkAccess for SnapshotMemory {
    #[inline(always)]
    fn read_chunk(&mut self, user: u64) -> Option<(u64, u8)> {
        self.pages.read_chunk(user)
    }

    #[inline(always)]
    fn write_chunk(
        &mut self,
        user: u64,
        around: u64,
        count: u64,
        tag: u8,
        bytes: &[u8; 8],
    ) -> bool {
        self.pages.write_chunk(user, around, count, tag, bytes)
    }
}

impl Paged for SnapshotMemory {
    fn pages_left(&mut self) -> usize {
        self.pages.pages_left()
    }

    fn map_pages(&mut self, page: u64, count: usize, attrs: Attrs) -> Result<(), NoPagesLeft> {
        self.pages.map_pages(page, count, attrs)
    }

    fn unmap_pages(&mut self, page: u64, count: usize) {
        self.pages.unmap_pages(page, count);
    }

    fn load_bytes(&mut self, addr: u64, bytes: &[u8]) {
        self.pages.load_bytes(addr, bytes);
    }
}
