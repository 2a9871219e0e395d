//! The pages of the plain memory, in one list.

ghost use Rattle.std.specs.Prelude.{◌≡◌, ℕ, ◌<◌, ◌≤◌, ◌+◌, ◌^◌, None, IfOk, IfSome, IsNone};
ghost use Rattle.std.specs.Prelude.{◌/◌, ◌%◌, Some, option_map};
ghost use Rattle.a64_bits.specs.Addresses.{plain};
ghost use Rattle.std.specs.Prelude.{length, slice_index_or, vec_len, vec_capacity};
ghost use Rattle.mte_tags.specs.Memory.{Memory, page_at, no_pages};
ghost use Rattle.mte_tags.specs.Memory.{with_new_pages, without_pages, IsFree, ArePages};
ghost use Rattle.mte_flat.specs.Inner.Slots.{slots_memory, AreSlots};
ghost use Rattle.mte_flat.specs.Inner.Written.{KeepsUnwritten};
ghost use Rattle.mte_flat.specs.MappedPages.{attrs_in, AreApart};

use crate::finder::Finder;
use crate::mapped::{MappedPage, mapped_slots};
use crate::slot::{Slot, find, holds, new_slot};
use crate::slots::{restore_slots, take_slot, unmarked_slots};
use a64_bits::plain;
use common::copy_list;
use mte_tags::{Attrs, NoPagesLeft, PageStore, Paged, TagMode, TagState, replace_bytes};
use std::alloc::{AllocError, Global};

/// At most `limit` pages in a list, in the order in which they were mapped, and where each was put.
pub(crate) struct Pages {
    limit: usize,
    slots: Vec<Slot>,
    finder: Finder,
    state: TagState,
    ghost are_slots: { AreSlots slots.items },
    ghost below: { vec_len slots ≤ limit },
    ghost room: { limit ≤ vec_capacity slots },
}

impl Drop for Pages {
    fn drop(self) {
        let Pages {
            limit: _,
            slots: _,
            finder: _,
            state: _,
        } = self;
    }
}

impl Pages {
    ghost use Rattle.mte_flat.specs.Inner.Places.{memory_of, IsPlace, number_in, page_in};
    ghost use Rattle.mte_flat.specs.Inner.Since.{IsSince};

    /// No pages, with memory for `limit`.
    pub(crate) fn new(alloc: Global, limit: usize, mode: TagMode) -> Result<Pages, AllocError>
        requires { 0 < limit }
        ensures { IfOk result (λ pages. memory_of pages ≡ no_pages limit mode) }
    {
        let slots = Vec::with_capacity(alloc, limit)?;
        let finder = Finder::new(alloc, limit)?;
        Ok(Pages {
            limit,
            slots,
            finder,
            state: TagState {
                mode,
                pending: false,
            },
        })
    }

    /// A copy of the pages, with memory for as many.
    pub(crate) fn copy(&self, alloc: Global) -> Result<Pages, AllocError>
        ensures memory { IfOk result (λ pages. memory_of pages ≡ memory_of self.now) }
        ensures since { IfOk result (λ pages. IsSince self.now pages) }
    {
        let slots = copy_list(alloc, &self.slots)?;
        let finder = self.finder.copy(alloc)?;
        Ok(Pages {
            limit: self.limit,
            slots,
            finder,
            state: self.state,
        })
    }

    /// A copy of the pages in which none is marked as written.
    pub(crate) fn copy_unmarked(&self, alloc: Global) -> Result<Pages, AllocError>
        ensures { IfOk result (λ pages. memory_of pages ≡ memory_of self.now) }
    {
        let slots = unmarked_slots(alloc, self.limit, self.slots.as_slice())?;
        let finder = self.finder.copy(alloc)?;
        Ok(Pages {
            limit: self.limit,
            slots,
            finder,
            state: self.state,
        })
    }

    /// Makes the pages those of before: only slots that are marked as written are copied.
    pub(crate) fn restore(&mut self, saved: &Pages)
        requires { IsSince saved.now self.old }
        ensures memory { memory_of self.new ≡ memory_of saved.now }
        ensures since { IsSince saved.now self.new }
    {
        self.state = saved.state;
        self.finder.restore(&saved.finder);
        restore_slots(&mut self.slots, saved.slots.as_slice());
    }

    /// The slot that was found last for the page of an address, where it holds that page and one
    /// granule holds the bytes of an access.
    #[inline(always)]
    fn last_place(&self, addr: u64, size: u64) -> Option<usize>
        requires most { size ≤ 16 }
        ensures place { IfSome result (λ i. IsPlace self.now i) }
        ensures number { IfSome result (λ i. number_in self.now i ≡ plain addr / 4096) }
        ensures page { IfSome result (λ i.
            page_at (memory_of self.now) (plain addr / 4096) ≡ Some (page_in self.now i)) }
        ensures inside { IfSome result (λ _. plain addr % 16 + size ≤ 16) }
    {
        let page = plain(addr) / 4096;
        let place = self.finder.last(page);
        if holds(&self.slots, place, page) && plain(addr) % 16 <= 16 - size {
            return Some(place);
        }
        None
    }

    /// The pages that are mapped, in the order of their slots.
    pub(crate) fn mapped_pages(&self, alloc: Global) -> Result<Vec<MappedPage>, AllocError>
        ensures each { IfOk result (λ pages. (q : ℕ) → attrs_in pages.items q
            ≡ option_map (λ p. p.attrs) (page_at (memory_of self.now) q)) }
        ensures once { IfOk result (λ pages. AreApart pages.items) }
    {
        let pages = mapped_slots(alloc, self.slots.as_slice())?;
        Ok(pages)
    }
}

impl PageStore for Pages {
    ghost use Rattle.mte_flat.specs.Inner.Places.{memory_of, IsPlace, number_in, page_in};
    ghost use Rattle.mte_flat.specs.Inner.Since.{IsSince, since_same, since_on};

    ghost memory = { memory_of };

    ghost kept = { IsSince };

    ghost is_place = { IsPlace };

    ghost number_in = { number_in };

    ghost page_in = { page_in };

    fn tag_state(&mut self) -> TagState {
        self.state
    }

    fn set_pending(&mut self) {
        self.state.pending = true;
    }

    #[inline(always)]
    fn find(&mut self, page: u64) -> Option<usize> {
        find(&self.slots, &mut self.finder, page)
    }

    #[inline(always)]
    fn readable_place(&self, addr: u64, size: u64) -> Option<usize> {
        let place = self.last_place(addr, size)?;
        if self.slots[place].attrs.contains(Attrs::READ) {
            return Some(place);
        }
        None
    }

    #[inline(always)]
    fn writable_place(&self, addr: u64, size: u64) -> Option<usize> {
        let place = self.last_place(addr, size)?;
        if self.slots[place].attrs.contains(Attrs::WRITE) {
            return Some(place);
        }
        None
    }

    /// Mostly the page of the instruction before, which no hash leads to.
    #[inline(always)]
    fn find_code(&mut self, page: u64) -> Option<usize> {
        let code = self.finder.code;
        if holds(&self.slots, code, page) {
            return Some(code);
        }
        find_other_code(&self.slots, &mut self.finder, page)
    }

    #[inline(always)]
    fn attrs(&self, place: usize) -> Attrs {
        self.slots[place].attrs
    }

    #[inline(always)]
    fn bytes(&self, place: usize) -> &[u8] {
        &self.slots[place].bytes
    }

    #[inline(always)]
    fn granule_tag(&self, place: usize, granule: usize) -> u8 {
        self.slots[place].tags[granule]
    }

    #[inline(always)]
    fn replace_run(&mut self, place: usize, at: u64, bytes: &[u8]) {
        self.slots[place].copy_in(at, bytes);
    }

    #[inline(always)]
    fn retag(&mut self, place: usize, first: usize, count: usize, tag: u8, zero: bool) {
        self.slots[place].retag(first, count, tag, zero);
    }

    ghost kept_same = { since_same };

    ghost kept_on = { since_on };
}

/// The slot of a page whose instructions are fetched, where it is another than the last time.
#[cold]
#[inline(never)]
fn find_other_code(slots: &[Slot], finder: &mut Finder, page: u64) -> Option<usize>
    ensures some { IfSome result
        (λ s. (s < length slots.now) × ((d : _) → (slice_index_or slots.now s d).page ≡ page)) }
    ensures none { IsNone result
        → (m : Memory) → page_at (slots_memory m slots.now) page ≡ None }
{
    let s = find(slots, finder, page)?;
    finder.code = s;
    Some(s)
}

/// Adds pages of zero bytes and tag 0.
fn map_slots(slots: &mut Vec<Slot>, finder: &mut Finder, page: u64, count: usize, attrs: Attrs)
    requires room { vec_len slots.old + count ≤ vec_capacity slots.old }
    requires in_range { page + count ≤ 2 ^ 18 }
    requires slots { AreSlots slots.old.items }
    requires free { (m : Memory) → IsFree (slots_memory m slots.old.items) page count }
    ensures memory { (m : Memory)
        → slots_memory m slots.new.items
        ≡ with_new_pages (slots_memory m slots.old.items) page count attrs }
    ensures slots { AreSlots slots.new.items }
    ensures kept { KeepsUnwritten slots.old.items slots.new.items }
    ensures len { vec_len slots.new ≡ vec_len slots.old + count }
    ensures capacity { vec_capacity slots.new ≡ vec_capacity slots.old }
{
    for i in 0..count {
        let slot = new_slot(page + i as u64, attrs);
        finder.put(page + i as u64, slots.len());
        slots.push_reserved(slot);
    }
}

/// Takes pages out that are there.
fn unmap_slots(slots: &mut Vec<Slot>, finder: &mut Finder, page: u64, count: usize)
    requires slots { AreSlots slots.old.items }
    requires mapped { (m : Memory) → ArePages (slots_memory m slots.old.items) page count }
    ensures memory { (m : Memory)
        → slots_memory m slots.new.items
        ≡ without_pages (slots_memory m slots.old.items) page count }
    ensures slots { AreSlots slots.new.items }
    ensures kept { KeepsUnwritten slots.old.items slots.new.items }
    ensures len { vec_len slots.new ≤ vec_len slots.old }
    ensures capacity { vec_capacity slots.new ≡ vec_capacity slots.old }
{
    for i in 0..count {
        let gone = page + i as u64;
        let Some(s) = find(slots, finder, gone) else {
            return;
        };
        finder.take(gone);
        take_slot(slots, s);
        if s < slots.len() {
            finder.put(slots[s].page, s);
        }
    }
}

impl Paged for Pages {
    fn pages_left(&mut self) -> usize {
        let mapped = self.slots.len();
        self.limit - mapped
    }

    fn map_pages(&mut self, page: u64, count: usize, attrs: Attrs) -> Result<(), NoPagesLeft> {
        if count > self.limit - self.slots.len() {
            return Err(NoPagesLeft);
        }
        map_slots(&mut self.slots, &mut self.finder, page, count, attrs);
        Ok(())
    }

    fn unmap_pages(&mut self, page: u64, count: usize) {
        unmap_slots(&mut self.slots, &mut self.finder, page, count);
    }

    fn load_bytes(&mut self, addr: u64, bytes: &[u8]) {
        replace_bytes(self, plain(addr), bytes);
    }
}
