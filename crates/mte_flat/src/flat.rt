//! A plain tagged memory, which keeps its pages in one list.

ghost use Rattle.std.specs.Prelude.{◌≡◌, ℕ, ◌<◌, IfOk, None, option_map};
ghost use Rattle.mte_tags.specs.Memory.{page_at, no_pages};
ghost use Rattle.mte_flat.specs.MappedPages.{attrs_in, AreApart};

use crate::mapped::MappedPage;
use crate::pages::Pages;
use mte_tags::{Attrs, ChunkAccess, MemFault, NoPagesLeft, Paged, TagMode, Tagged};
use std::alloc::{AllocError, Global};
use std::marker::Model;

/// A tagged memory of its own.
#[derive(Drop)]
pub struct Flat {
    pub(crate) pages: Pages,
}

impl Model for Flat {
    ghost use Rattle.mte_tags.specs.Memory.{Memory, coded_memory};
    ghost use Rattle.mte_flat.specs.Inner.FlatMemory.{flat_memory};

    ghost Value = { Memory };

    ghost coded = { coded_memory };

    ghost view = { flat_memory };
}

impl Flat {
    /// A memory of at most `pages` pages, none of them mapped, in a tag mode, its flag clear. It is
    /// refused only where its memory is.
    pub fn new(alloc: Global, pages: usize, mode: TagMode) -> Result<Flat, AllocError>
        requires { 0 < pages }
        ensures empty { IfOk result (λ memory. memory ≡ no_pages pages mode) }
        ensures free { IfOk result (λ memory. (page : ℕ) → page_at memory page ≡ None) }
    {
        let pages = Pages::new(alloc, pages, mode)?;
        Ok(Flat { pages })
    }

    /// A copy of the memory. It is refused only where its memory is.
    pub fn copy(&self, alloc: Global) -> Result<Flat, AllocError>
        ensures { IfOk result (λ memory. memory ≡ self.now) }
    {
        let pages = self.pages.copy(alloc)?;
        Ok(Flat { pages })
    }

    /// The pages that are mapped, each once, in no order. It takes time for these and no others.
    pub fn mapped_pages(&self, alloc: Global) -> Result<Vec<MappedPage>, AllocError>
        ensures each { IfOk result (λ pages. (q : ℕ) → attrs_in pages.items q
            ≡ option_map (λ p. p.attrs) (page_at self.now q)) }
        ensures once { IfOk result (λ pages. AreApart pages.items) }
    {
        self.pages.mapped_pages(alloc)
    }
}

impl Tagged for Flat {
    ghost use Rattle.std.specs.Prelude.{⊤};

    ghost memory = { λ f. f };

    ghost kept = { λ _ _. ⊤ };

    #[inline(always)]
    fn fetch(&mut self, pc: u64) -> Result<u32, MemFault> {
        self.pages.fetch(pc)
    }

    #[inline(always)]
    fn fetch_words(&mut self, pc: u64, words: &mut [u32; 16]) -> bool {
        self.pages.fetch_words(pc, words)
    }

    #[inline(always)]
    fn read(&mut self, addr: u64, buffer: &mut [u8], check: bool) -> Result<(), MemFault> {
        self.pages.read(addr, buffer, check)
    }

    #[inline(always)]
    fn write(&mut self, addr: u64, bytes: &[u8], check: bool) -> Result<(), MemFault> {
        self.pages.write(addr, bytes, check)
    }

    #[inline(always)]
    fn load_tag(&mut self, addr: u64) -> Result<u8, MemFault> {
        self.pages.load_tag(addr)
    }

    #[inline(always)]
    fn store_tags(
        &mut self,
        addr: u64,
        granules: u64,
        tag: u8,
        zero: bool,
    ) -> Result<(), MemFault> {
        self.pages.store_tags(addr, granules, tag, zero)
    }

    #[inline]
    fn has_attrs(&mut self, addr: u64, attrs: Attrs) -> bool {
        self.pages.has_attrs(addr, attrs)
    }

    #[inline]
    fn pending(&mut self) -> bool {
        self.pages.pending()
    }

    ghost kept_same = { λ _. tt };

    ghost kept_on = { λ _ _ _ _ _. tt };
}

impl ChunkAccess for Flat {
    #[inline(always)]
    fn read_chunk(&mut self, user: u64) -> Option<(u64, u8)> {
        self.pages.read_chunk(user)
    }

    #[inline(always)]
    fn write_chunk(
        &mut self,
        user: u64,
        around: u64,
        count: u64,
        tag: u8,
        bytes: &[u8; 8],
    ) -> bool {
        self.pages.write_chunk(user, around, count, tag, bytes)
    }
}

impl Paged for Flat {
    fn pages_left(&mut self) -> usize {
        self.pages.pages_left()
    }

    fn map_pages(&mut self, page: u64, count: usize, attrs: Attrs) -> Result<(), NoPagesLeft> {
        self.pages.map_pages(page, count, attrs)
    }

    fn unmap_pages(&mut self, page: u64, count: usize) {
        self.pages.unmap_pages(page, count);
    }

    fn load_bytes(&mut self, addr: u64, bytes: &[u8]) {
        self.pages.load_bytes(addr, bytes);
    }
}
