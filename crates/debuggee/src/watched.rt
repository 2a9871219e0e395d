//! A memory whose accesses are watched.

ghost use Rattle.std.specs.Prelude.{◌≡◌};

use crate::memory_map::{MappedRegion, regions};
use a64_bits::plain;
use common::{GRANULE_SIZE, PAGE_SIZE};
use mte_flat::Flat;
use mte_tags::{Attrs, ChunkAccess, MemFault, NoPagesLeft, Paged, Tagged};
use std::alloc::{AllocError, Global};

/// Which accesses are watched.
#[derive(Clone, Copy, PartialEq, Eq)]
pub enum WatchedAccess {
    /// Those that write.
    Write,
    /// Those that read.
    Read,
    /// All.
    Any,
}

/// Addresses that are watched, without their tags.
#[derive(Clone, Copy, PartialEq, Eq)]
pub struct Watchpoint {
    /// Which accesses.
    pub access: WatchedAccess,
    /// The first address.
    pub start: u64,
    /// The address after the last.
    pub end: u64,
}

/// An access that met a watchpoint.
#[derive(Clone, Copy)]
pub struct Hit {
    /// Which accesses the watchpoint is for.
    pub access: WatchedAccess,
    /// The first address that is watched and was accessed.
    pub address: u64,
}

impl Watchpoint {
    /// The hit of an access of some bytes from an address on.
    fn meet(&self, start: u64, end: u64, writes: bool) -> Option<Hit> {
        let is_wanted = match self.access {
            WatchedAccess::Write => writes,
            WatchedAccess::Read => !writes,
            WatchedAccess::Any => true,
        };
        if !is_wanted || start >= self.end || self.start >= end {
            return None;
        }
        Some(Hit {
            access: self.access,
            address: self.start.max(start),
        })
    }
}

/// Watchpoints, and the first of them that was met.
#[derive(Drop)]
struct Watch {
    points: Vec<Watchpoint>,
    hit: Option<Hit>,
}

impl Watch {
    /// Notes an access that was completed.
    #[inline(always)]
    fn note(&mut self, addr: u64, len: u64, writes: bool) {
        if !self.points.is_empty() {
            self.note_watched(plain(addr), len, writes);
        }
    }

    /// Notes an access where something is watched.
    #[cold]
    #[inline(never)]
    fn note_watched(&mut self, start: u64, len: u64, writes: bool) {
        if self.hit.is_some() {
            return;
        }
        let end = start.saturating_add(len);
        for point in &self.points {
            if let Some(hit) = point.meet(start, end, writes) {
                self.hit = Some(hit);
                return;
            }
        }
    }
}

/// A plain memory whose accesses are watched, those of the heap and of the services too. It holds
/// what the plain memory holds.
#[derive(Drop)]
pub struct Watched {
    /// The memory.
    pub flat: Flat,
    watch: Watch,
}

impl Watched {
    /// A memory of which nothing is watched.
    pub fn new(alloc: Global, flat: Flat) -> Watched
        ensures { result.flat ≡ flat }
    {
        let watch = Watch {
            points: Vec::new(alloc),
            hit: None,
        };
        Watched { flat, watch }
    }

    /// Watches these points and no others.
    pub fn watch(&mut self, points: &[Watchpoint]) -> Result<(), AllocError>
        ensures { self.new.flat ≡ self.old.flat }
    {
        let watch = &mut self.watch;
        watch.hit = None;
        watch.points.clear();
        watch.points.extend_from_slice(points)
    }

    /// Forgets what was met.
    pub fn forget(&mut self)
        ensures { self.new.flat ≡ self.old.flat }
    {
        self.watch.hit = None;
    }

    /// The first watchpoint that was met.
    pub fn hit(&self) -> Option<Hit> {
        self.watch.hit
    }

    /// Reads bytes of pages with READ, whatever their tags; whether it could. Nothing is noted.
    pub fn peek(&mut self, addr: u64, buffer: &mut [u8]) -> bool
        ensures { self.new.flat ≡ self.old.flat }
    {
        self.flat.read(addr, buffer, false).is_ok()
    }

    /// The byte at an address of a page with READ or EXEC, whatever its tag. Nothing is noted.
    pub fn byte_at(&mut self, addr: u64) -> Option<u8>
        ensures { self.new.flat ≡ self.old.flat }
    {
        let mut byte = [0];
        if self.peek(addr, &mut byte) {
            return Some(byte[0]);
        }
        let word = self.word_at((addr / 4).saturating_mul(4))?;
        word.to_le_bytes().get((addr % 4) as usize).copied()
    }

    /// The instruction word at a multiple of 4, of a page with EXEC. Nothing is noted.
    pub fn word_at(&mut self, addr: u64) -> Option<u32>
        ensures { self.new.flat ≡ self.old.flat }
    {
        self.flat.fetch(addr).ok()
    }

    /// The tag of the granule of an address, if it can be read.
    pub fn tag_at(&mut self, addr: u64) -> Option<u8>
        ensures { self.new.flat ≡ self.old.flat }
    {
        self.flat.load_tag(addr).ok()
    }

    /// The regions of the memory, the lowest first.
    pub fn regions(&mut self, alloc: Global) -> Result<Vec<MappedRegion>, AllocError>
        ensures { self.new.flat ≡ self.old.flat }
    {
        regions(alloc, &self.flat)
    }

    /// The memory alone.
    pub fn into_flat(self) -> Flat {
        let Watched { flat, .. } = self;
        flat
    }
}

impl Tagged for Watched {
    ghost use Rattle.std.specs.Prelude.{⊤};

    ghost memory = { λ w. w.flat };

    ghost kept = { λ _ _. ⊤ };

    #[inline(always)]
    fn fetch(&mut self, pc: u64) -> Result<u32, MemFault> {
        self.flat.fetch(pc)
    }

    #[inline(always)]
    fn fetch_words(&mut self, pc: u64, words: &mut [u32; 16]) -> bool {
        self.flat.fetch_words(pc, words)
    }

    #[inline(always)]
    fn read(&mut self, addr: u64, buffer: &mut [u8], check: bool) -> Result<(), MemFault> {
        let len = buffer.len() as u64;
        let answer = self.flat.read(addr, buffer, check);
        if answer.is_ok() {
            self.watch.note(addr, len, false);
        }
        answer
    }

    #[inline(always)]
    fn write(&mut self, addr: u64, bytes: &[u8], check: bool) -> Result<(), MemFault> {
        let answer = self.flat.write(addr, bytes, check);
        if answer.is_ok() {
            self.watch.note(addr, bytes.len() as u64, true);
        }
        answer
    }

    #[inline(always)]
    fn load_tag(&mut self, addr: u64) -> Result<u8, MemFault> {
        self.flat.load_tag(addr)
    }

    #[inline(always)]
    fn store_tags(
        &mut self,
        addr: u64,
        granules: u64,
        tag: u8,
        zero: bool,
    ) -> Result<(), MemFault> {
        let answer = self.flat.store_tags(addr, granules, tag, zero);
        if answer.is_ok() {
            self.watch
                .note(addr, granules.saturating_mul(GRANULE_SIZE), true);
        }
        answer
    }

    #[inline]
    fn has_attrs(&mut self, addr: u64, attrs: Attrs) -> bool {
        self.flat.has_attrs(addr, attrs)
    }

    #[inline]
    fn pending(&mut self) -> bool {
        self.flat.pending()
    }

    ghost kept_same = { λ _. tt };

    ghost kept_on = { λ _ _ _ _ _. tt };
}

impl ChunkAccess for Watched {
    #[inline(always)]
    fn read_chunk(&mut self, user: u64) -> Option<(u64, u8)> {
        let answer = self.flat.read_chunk(user);
        if answer.is_some() {
            self.watch.note(user.saturating_sub(GRANULE_SIZE), 8, false);
        }
        answer
    }

    #[inline(always)]
    fn write_chunk(
        &mut self,
        user: u64,
        around: u64,
        count: u64,
        tag: u8,
        bytes: &[u8; 8],
    ) -> bool {
        let is_done = self.flat.write_chunk(user, around, count, tag, bytes);
        if is_done {
            let start = user.saturating_sub(GRANULE_SIZE);
            let granules = around.max(count.saturating_add(1));
            self.watch
                .note(start, granules.saturating_mul(GRANULE_SIZE), true);
        }
        is_done
    }
}

impl Paged for Watched {
    fn pages_left(&mut self) -> usize {
        self.flat.pages_left()
    }

    fn map_pages(&mut self, page: u64, count: usize, attrs: Attrs) -> Result<(), NoPagesLeft> {
        let answer = self.flat.map_pages(page, count, attrs);
        if answer.is_ok() {
            self.note_pages(page, count);
        }
        answer
    }

    fn unmap_pages(&mut self, page: u64, count: usize) {
        self.flat.unmap_pages(page, count);
        self.note_pages(page, count);
    }

    fn load_bytes(&mut self, addr: u64, bytes: &[u8]) {
        self.flat.load_bytes(addr, bytes);
        self.watch.note(addr, bytes.len() as u64, true);
    }
}

impl Watched {
    /// Notes pages that came or went.
    fn note_pages(&mut self, page: u64, count: usize)
        ensures { self.new.flat ≡ self.old.flat }
    {
        let start = page.saturating_mul(PAGE_SIZE);
        let len = (count as u64).saturating_mul(PAGE_SIZE);
        self.watch.note(start, len, true);
    }
}
