//! A tagged memory over places that the caller lends.

ghost use Rattle.std.specs.Prelude.{◌≡◌, ◌≤◌, ◌+◌, ◌/◌, ◌%◌, Some, IfSome};
ghost use Rattle.a64_bits.specs.Addresses.{plain};
ghost use Rattle.mte_tags.specs.Memory.{Memory, page_at};
ghost use Rattle.tombolopan_c.specs.LentPages.{lent_memory, state_of};

use crate::find::find;
use crate::lent_page::LentPage;
use a64_bits::plain;
use mte_tags::{Attrs, PageStore, TagMode, TagState};

/// The tag mode of a memory and its flag; any number but 0 sets either.
#[repr(C)]
#[derive(Clone, Copy)]
pub struct LentTagState {
    /// Whether a tag that differs sets the flag, and fails no access.
    pub asynchronous: u32,
    /// Whether a tag differed in the asynchronous mode.
    pub pending: u32,
}

/// The memory of a call.
#[derive(Drop)]
pub(crate) struct Lent<'a> {
    pages: &'a mut [LentPage],
    state: &'a mut LentTagState,
}

impl<'a> Lent<'a> {
    ghost use Rattle.tombolopan_c.specs.LentMemory.{memory_of, IsOver};
    ghost use Rattle.tombolopan_c.specs.LentPlaces.{IsPlace, number_in, page_in};

    pub(crate) fn new(pages: &'a mut [LentPage], state: &'a mut LentTagState) -> Lent<'a>
        ensures memory { memory_of result ≡ lent_memory (state_of state.old) pages.old }
        ensures over { IsOver result pages.entry state.entry }
    {
        Lent { pages, state }
    }

    /// The places, to be read.
    #[inline(always)]
    fn pages(&self) -> &[LentPage]
        ensures { result.now ≡ self.now.pages.now }
    {
        self.pages
    }

    /// The place of the page of an access, where one granule holds its bytes.
    #[inline(always)]
    fn place_of_granule(&self, addr: u64, size: u64) -> Option<usize>
        requires most { size ≤ 16 }
        ensures place { IfSome result (λ i. IsPlace self.now i) }
        ensures number { IfSome result (λ i. number_in self.now i ≡ plain addr / 4096) }
        ensures page { IfSome result (λ i.
            page_at (memory_of self.now) (plain addr / 4096) ≡ Some (page_in self.now i)) }
        ensures inside { IfSome result (λ _. plain addr % 16 + size ≤ 16) }
    {
        let page = plain(addr) / 4096;
        if plain(addr) % 16 > 16 - size {
            return None;
        }
        let place = find(self.pages(), page)?;
        Some(place)
    }
}

impl PageStore for Lent<'_> {
    ghost use Rattle.tombolopan_c.specs.LentMemory.{memory_of, SameBorrows, kept_same, kept_on};
    ghost use Rattle.tombolopan_c.specs.LentPlaces.{IsPlace, number_in, page_in};

    ghost memory = { memory_of };

    ghost kept = { SameBorrows };

    ghost is_place = { IsPlace };

    ghost number_in = { number_in };

    ghost page_in = { page_in };

    fn tag_state(&mut self) -> TagState {
        let mode = if self.state.asynchronous == 0 {
            TagMode::Sync
        } else {
            TagMode::Async
        };
        TagState {
            mode,
            pending: self.state.pending != 0,
        }
    }

    fn set_pending(&mut self) {
        self.state.pending = 1;
    }

    #[inline]
    fn find(&mut self, page: u64) -> Option<usize> {
        find(self.pages(), page)
    }

    #[inline]
    fn readable_place(&self, addr: u64, size: u64) -> Option<usize> {
        let place = self.place_of_granule(addr, size)?;
        if self.attrs(place).contains(Attrs::READ) {
            return Some(place);
        }
        None
    }

    #[inline]
    fn writable_place(&self, addr: u64, size: u64) -> Option<usize> {
        let place = self.place_of_granule(addr, size)?;
        if self.attrs(place).contains(Attrs::WRITE) {
            return Some(place);
        }
        None
    }

    #[inline]
    fn find_code(&mut self, page: u64) -> Option<usize> {
        find(self.pages(), page)
    }

    #[inline]
    fn attrs(&self, place: usize) -> Attrs {
        self.pages()[place].attrs()
    }

    #[inline]
    fn bytes(&self, place: usize) -> &[u8] {
        &self.pages()[place].bytes
    }

    #[inline]
    fn granule_tag(&self, place: usize, granule: usize) -> u8 {
        self.pages()[place].tags[granule] % 16
    }

    #[inline]
    fn replace_run(&mut self, place: usize, at: u64, bytes: &[u8]) {
        let page = &mut self.pages[place];
        page.copy_in(at, bytes);
    }

    #[inline]
    fn retag(&mut self, place: usize, first: usize, count: usize, tag: u8, zero: bool) {
        let page = &mut self.pages[place];
        page.retag(first, count, tag, zero);
    }

    ghost kept_same = { kept_same };

    ghost kept_on = { kept_on };
}
