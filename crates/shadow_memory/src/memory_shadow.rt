//! The shadow of a tenant's memory.

use crate::origin::{PointerOrigin, Provenance};
use crate::page_numbers::PageNumbers;
use crate::shadow_page::ShadowPage;
use common::{GRANULE_SIZE, PAGE_SIZE};
use std::alloc::{AllocError, Global};

/// The shadow of a tenant's memory. A page of which nothing is known takes none.
pub struct MemoryShadow {
    alloc: Global,
    numbers: PageNumbers,
    /// The pages, by their numbers; each takes 3,584 bytes.
    pages: Vec<ShadowPage>,
    /// Whether a page found no place.
    pub is_short: bool,
}

impl Drop for MemoryShadow {
    fn drop(self) {
        let MemoryShadow {
            alloc: _,
            numbers: _,
            pages: _,
            is_short: _,
        } = self;
    }
}

impl MemoryShadow {
    /// Of which nothing is known.
    pub fn new(alloc: Global) -> Result<MemoryShadow, AllocError> {
        Ok(MemoryShadow {
            alloc,
            numbers: PageNumbers::new(alloc)?,
            pages: Vec::new(alloc),
            is_short: false,
        })
    }

    /// The pages of which something is known.
    pub fn pages(&self) -> &[ShadowPage] {
        self.pages.as_slice()
    }

    /// The page of an address.
    #[inline]
    fn page(&self, addr: u64) -> Option<&ShadowPage> {
        self.pages.get(self.numbers.of(addr)?)
    }

    /// The page of an address, to be changed.
    #[inline]
    fn page_mut(&mut self, addr: u64) -> Option<&mut ShadowPage> {
        self.pages.get_mut(self.numbers.of(addr)?)
    }

    /// Makes the page of an address, where it is not there and has a place.
    fn make_page(&mut self, addr: u64) -> Result<(), AllocError> {
        if self.page(addr).is_some() {
            return Ok(());
        }
        if self.numbers.is_full() {
            self.is_short = true;
            return Ok(());
        }
        let page = ShadowPage::new(self.alloc)?;
        if self.numbers.enter(addr) {
            self.pages.push(page)?;
        }
        Ok(())
    }

    /// Of which pointer's bytes those are that lie at a plain address, at most eight. None where
    /// they lie in two words.
    #[inline]
    pub fn load(&self, addr: u64, bytes: u8) -> Provenance {
        match self.page(addr) {
            Some(page) if is_in_word(addr, bytes) => page.load(addr, bytes),
            _ => Provenance::NONE,
        }
    }

    /// Enters that a value is stored at a plain address, with at most eight bytes.
    #[inline]
    pub fn store(&mut self, addr: u64, bytes: u8, value: Provenance) -> Result<(), AllocError> {
        if !is_in_word(addr, bytes) {
            self.clear(addr, u64::from(bytes));
            return Ok(());
        }
        if value.origin.is_known() {
            self.make_page(addr)?;
        }
        if let Some(page) = self.page_mut(addr) {
            page.store(addr, bytes, value);
        }
        Ok(())
    }

    /// Enters that bytes from a plain address on are no pointer's.
    pub fn clear(&mut self, addr: u64, bytes: u64) {
        let end = addr.saturating_add(bytes);
        let mut at = addr;
        for _ in 0..bytes {
            if at >= end {
                return;
            }
            at = self.clear_some(at, end);
        }
    }

    /// The same of the first word of a range, or of all of its first page where nothing is known of
    /// it. Returns what is next.
    fn clear_some(&mut self, at: u64, end: u64) -> u64 {
        match self.page_mut(at) {
            Some(page) => {
                let count = (8 - at % 8).min(end.saturating_sub(at));
                page.store(at, count as u8, Provenance::NONE);
                at.saturating_add(count)
            }
            None => at.saturating_add(PAGE_SIZE - at % PAGE_SIZE),
        }
    }

    /// Enters what words have that were copied from one plain address to another, both multiples of
    /// eight.
    pub fn copy(&mut self, from: u64, to: u64, bytes: u64) -> Result<(), AllocError> {
        for word in 0..bytes / 8 {
            let offset = word.wrapping_mul(8);
            let value = self.load(from.wrapping_add(offset), 8);
            self.store(to.wrapping_add(offset), 8, value)?;
        }
        Ok(())
    }

    /// The newest chunk that the granule of a plain address was in.
    pub fn owner(&self, addr: u64) -> PointerOrigin {
        match self.page(addr) {
            Some(page) => page.owner(addr),
            None => PointerOrigin::UNKNOWN,
        }
    }

    /// Enters the chunk that the granules are in which have bytes of a range.
    pub fn set_owner(
        &mut self,
        start: u64,
        end: u64,
        owner: PointerOrigin,
    ) -> Result<(), AllocError> {
        for granule in start / GRANULE_SIZE..end.div_ceil(GRANULE_SIZE) {
            let addr = granule.wrapping_mul(GRANULE_SIZE);
            self.make_page(addr)?;
            if let Some(page) = self.page_mut(addr) {
                page.set_owner(addr, owner);
            }
        }
        Ok(())
    }
}

/// Whether bytes lie in one word of eight.
fn is_in_word(addr: u64, bytes: u8) -> bool {
    addr % 8 + u64::from(bytes) <= 8
}
