//! Where the pages of the plain memory were put. What it says is compared with the page itself
//! before it is used, so that nothing but time rests on it.

ghost use Rattle.std.specs.Prelude.{◌≡◌, ◌<◌};

use common::copy_list;
use std::alloc::{AllocError, Global};

/// A page and the slot that it was put into.
#[derive(Clone, Copy)]
struct PageSlot {
    page: u64,
    slot: usize,
}

/// The slots of pages: that of the last instruction, those that were found last, by a hash of the
/// page, and all of them, by page.
#[derive(Drop)]
pub struct Finder {
    /// No address leads to it, so a fetch need not wait for one.
    pub(crate) code: usize,
    last: [u16; 256],
    places: Vec<PageSlot>,
}

/// The first pages of two regions of 4096 pages are 37 apart in it.
fn hash(page: u64) -> usize
    ensures { result < 256 }
{
    ((page % 256 + page / 4096 % 256 * 37) % 256) as usize
}

impl Finder {
    /// One with capacity for `pages` pages.
    pub(crate) fn new(alloc: Global, pages: usize) -> Result<Finder, AllocError> {
        Ok(Finder {
            code: 0,
            last: [0; 256],
            places: Vec::with_capacity(alloc, pages)?,
        })
    }

    /// A copy of it.
    pub(crate) fn copy(&self, alloc: Global) -> Result<Finder, AllocError> {
        Ok(Finder {
            code: self.code,
            last: self.last,
            places: copy_list(alloc, &self.places)?,
        })
    }

    /// Takes over the slots of another.
    pub(crate) fn restore(&mut self, saved: &Finder) {
        self.code = saved.code;
        self.last = saved.last;
        self.places.clear();
        for place in saved.places.as_slice() {
            if self.places.len() < self.places.capacity() {
                self.places.push_reserved(*place);
            }
        }
    }

    /// The slot that was found last for a page of this hash.
    #[inline]
    pub(crate) fn last(&self, page: u64) -> usize {
        usize::from(self.last[hash(page)])
    }

    /// The slot of a page was found. There are at most 65,536 slots.
    #[inline]
    pub(crate) fn found(&mut self, page: u64, slot: usize) {
        self.last[hash(page)] = (slot % 65_536) as u16;
    }

    /// The slot of a page.
    pub(crate) fn place(&self, page: u64) -> Option<usize> {
        let at = self
            .places
            .binary_search_by_key(&page, |place| place.page)
            .ok()?;
        Some(self.places[at].slot)
    }

    /// A page was put into a slot.
    pub(crate) fn put(&mut self, page: u64, slot: usize) {
        let place = PageSlot { page, slot };
        match self.places.binary_search_by_key(&page, |place| place.page) {
            Ok(at) => self.places[at] = place,
            Err(at) => {
                if self.places.len() < self.places.capacity() {
                    let _ = self.places.insert(at, place);
                }
            }
        }
    }

    /// A page was taken out.
    pub(crate) fn take(&mut self, page: u64) {
        if let Ok(at) = self.places.binary_search_by_key(&page, |place| place.page) {
            self.places.remove(at);
        }
    }
}
