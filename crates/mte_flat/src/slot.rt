//! The pages of the plain memory.

ghost use Rattle.std.specs.Prelude.{◌≡◌, ◌≢◌, ℕ, ◌<◌, ◌≤◌, ◌+◌, ◌*◌, ◌%◌, ◌/◌, ◌^◌, ◌↔◌};
ghost use Rattle.std.specs.Prelude.{Some, None, IfSome, IsNone, IsSome, IsTrue, true};
ghost use Rattle.std.specs.Prelude.{length, slice_index_or};
ghost use Rattle.std.specs.List.{All};
ghost use Rattle.mte_tags.specs.Memory.{Memory, page_at, new_page};
ghost use Rattle.mte_flat.specs.Inner.Slots.{page_of, slots_memory};
ghost use Rattle.mte_tags.specs.Runs.{with_bytes_run, with_granule_tags};

use crate::finder::Finder;
use mte_tags::{Attrs, copy_in};

/// A mapped page: its number, its bytes, a tag for each granule, and its attributes. The bytes
/// are where an aligned access stays aligned.
#[derive(Clone, Copy)]
pub struct Slot {
    pub(crate) page: u64,
    pub(crate) bytes: [u8; 4096],
    pub(crate) tags: [u8; 256],
    pub(crate) attrs: Attrs,
    /// Whether the slot may be another than in a snapshot of the memory.
    pub(crate) written: bool,
}

/// A page of zero bytes and tag 0.
pub(crate) fn new_slot(page: u64, attrs: Attrs) -> Slot
    ensures page { result.page ≡ page }
    ensures holds { page_of result ≡ new_page attrs.0 }
    ensures written { result.written ≡ true }
    ensures small { All (λ t. t < 16) result.tags }
{
    Slot {
        page,
        bytes: [0; 4096],
        tags: [0; 256],
        attrs,
        written: true,
    }
}

/// Whether a slot is there and has a page.
#[inline]
pub(crate) fn holds(slots: &[Slot], s: usize, page: u64) -> bool
    ensures { IsTrue result
        ↔ ((s < length slots.now) × ((d : _) → (slice_index_or slots.now s d).page ≡ page)) }
{
    s < slots.len() && slots[s].page == page
}

/// The slot of a page.
#[inline(always)]
pub(crate) fn find(slots: &[Slot], finder: &mut Finder, page: u64) -> Option<usize>
    ensures some { IfSome result
        (λ s. (s < length slots.now) × ((d : _) → (slice_index_or slots.now s d).page ≡ page)) }
    ensures none { IsNone result
        → (m : Memory) → page_at (slots_memory m slots.now) page ≡ None }
{
    let s = finder.last(page);
    if holds(slots, s, page) {
        return Some(s);
    }
    find_again(slots, finder, page)
}

/// The slot of a page that is not the one which was found last.
#[cold]
#[inline(never)]
fn find_again(slots: &[Slot], finder: &mut Finder, page: u64) -> Option<usize>
    ensures some { IfSome result
        (λ s. (s < length slots.now) × ((d : _) → (slice_index_or slots.now s d).page ≡ page)) }
    ensures none { IsNone result
        → (m : Memory) → page_at (slots_memory m slots.now) page ≡ None }
{
    if let Some(s) = finder.place(page) {
        if holds(slots, s, page) {
            finder.found(page, s);
            return Some(s);
        }
    }
    search(slots, page)
}

/// The slot of a page among all of them. Only a page that is not mapped is sought in this way.
fn search(slots: &[Slot], page: u64) -> Option<usize>
    ensures some { IfSome result
        (λ s. (s < length slots.now) × ((d : _) → (slice_index_or slots.now s d).page ≡ page)) }
    ensures none { IsNone result
        → (m : Memory) → page_at (slots_memory m slots.now) page ≡ None }
{
    for (s, slot) in slots.iter().enumerate() {
        if slot.page == page {
            return Some(s);
        }
    }
    None
}

impl Slot {
    /// Replaces a run of bytes.
    #[inline]
    pub(crate) fn copy_in(&mut self, at: u64, bytes: &[u8])
        requires { at % 4096 + length bytes.now ≤ 4096 }
        ensures { self.new
            ≡ record self.old {
              bytes = with_bytes_run self.old.bytes (at % 4096) bytes.now;
              written = true;
            } }
    {
        self.written = true;
        copy_in(&mut self.bytes, at, bytes);
    }

    /// Replaces the tags of `count` granules from granule `first` on, and makes their bytes zero
    /// where `zero` is set.
    #[inline]
    pub(crate) fn retag(&mut self, first: usize, count: usize, tag: u8, zero: bool)
        requires inside { first + count ≤ 256 }
        requires tag { tag < 16 }
        requires small { All (λ t. t < 16) self.old.tags }
        ensures small { All (λ t. t < 16) self.new.tags }
        ensures long { length self.old.bytes ≡ 4096 }
        ensures page { self.new.page ≡ self.old.page }
        ensures attrs { self.new.attrs ≡ self.old.attrs }
        ensures written { self.new.written ≡ true }
        ensures holds { page_of self.new
            ≡ with_granule_tags (page_of self.old) first count tag zero }
    {
        self.written = true;
        self.tags[first..first + count].fill(tag);
        if zero {
            self.bytes[16 * first..16 * first + 16 * count].fill(0);
        }
    }
}
