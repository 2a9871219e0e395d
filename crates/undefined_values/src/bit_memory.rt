//! The undefined bits of a tenant's memory.

use crate::bit_page::{BitPage, ones};
use crate::origin::UndefinedValue;
use common::{MAX_PAGES, PAGE_SIZE};
use shadow_memory::PageNumbers;
use std::alloc::{AllocError, Global};

/// How many bytes all pages of a tenant have.
const MOST_BYTES: u64 = MAX_PAGES * PAGE_SIZE;

/// The undefined bits of a tenant's memory. A page that was always defined takes none.
pub struct BitMemory {
    alloc: Global,
    numbers: PageNumbers,
    /// The pages, by their numbers; each takes 6,144 bytes.
    pages: Vec<BitPage>,
    /// Whether a page found no place.
    pub is_short: bool,
}

impl Drop for BitMemory {
    fn drop(self) {
        let BitMemory {
            alloc: _,
            numbers: _,
            pages: _,
            is_short: _,
        } = self;
    }
}

impl BitMemory {
    /// All of which is defined.
    pub fn new(alloc: Global) -> Result<BitMemory, AllocError> {
        Ok(BitMemory {
            alloc,
            numbers: PageNumbers::new(alloc)?,
            pages: Vec::new(alloc),
            is_short: false,
        })
    }

    /// The page of an address.
    #[inline]
    fn page(&self, addr: u64) -> Option<&BitPage> {
        self.pages.get(self.numbers.of(addr)?)
    }

    /// The page of an address, to be changed.
    #[inline]
    fn page_mut(&mut self, addr: u64) -> Option<&mut BitPage> {
        self.pages.get_mut(self.numbers.of(addr)?)
    }

    /// Makes the page of an address, where it is not there and has a place.
    fn make_page(&mut self, addr: u64) -> Result<(), AllocError> {
        if self.page(addr).is_some() {
            return Ok(());
        }
        if self.numbers.is_full() {
            self.is_short = true;
            return Ok(());
        }
        let page = BitPage::new(self.alloc)?;
        if self.numbers.enter(addr) {
            self.pages.push(page)?;
        }
        Ok(())
    }

    /// The undefined bits of the bytes at a plain address, at most eight.
    #[inline]
    pub fn load(&self, addr: u64, bytes: u8) -> UndefinedValue {
        let within = bytes_in_word(addr, bytes);
        let low = self.load_in_word(addr, within);
        if within == bytes {
            return low;
        }
        let next = addr.wrapping_add(u64::from(within));
        let high = self.load_in_word(next, bytes.saturating_sub(within));
        let bits = high.bits.wrapping_shl(u32::from(within).wrapping_mul(8)) | low.bits;
        UndefinedValue::of(bits, low.origin_or(high))
    }

    /// Does so within a word.
    #[inline]
    fn load_in_word(&self, addr: u64, bytes: u8) -> UndefinedValue {
        match self.page(addr) {
            Some(page) => page.load(addr, bytes),
            None => UndefinedValue::DEFINED,
        }
    }

    /// Enters the undefined bits of the bytes at a plain address, at most eight.
    #[inline]
    pub fn store(&mut self, addr: u64, bytes: u8, value: UndefinedValue) -> Result<(), AllocError> {
        let within = bytes_in_word(addr, bytes);
        self.store_in_word(addr, within, value)?;
        if within == bytes {
            return Ok(());
        }
        let next = addr.wrapping_add(u64::from(within));
        let bits = value.bits.wrapping_shr(u32::from(within).wrapping_mul(8));
        let high = UndefinedValue::of(bits, value.origin);
        self.store_in_word(next, bytes.saturating_sub(within), high)
    }

    /// Does so within a word.
    #[inline]
    fn store_in_word(
        &mut self,
        addr: u64,
        bytes: u8,
        value: UndefinedValue,
    ) -> Result<(), AllocError> {
        if value.bits & ones(bytes) != 0 {
            self.make_page(addr)?;
        }
        if let Some(page) = self.page_mut(addr) {
            page.store(addr, bytes, value);
        }
        Ok(())
    }

    /// Enters that all bytes from a plain address to another are undefined or not, with the same
    /// bits in each word.
    pub fn fill(&mut self, start: u64, end: u64, value: UndefinedValue) -> Result<(), AllocError> {
        let mut at = start;
        for _ in start..end {
            if at >= end {
                return Ok(());
            }
            let next = piece_end(at, end);
            self.fill_piece(at, next, value)?;
            at = next;
        }
        Ok(())
    }

    /// Does so within a page, of whole words, or within a word.
    fn fill_piece(
        &mut self,
        start: u64,
        end: u64,
        value: UndefinedValue,
    ) -> Result<(), AllocError> {
        if value.bits != 0 {
            self.make_page(start)?;
        }
        let Some(page) = self.page_mut(start) else {
            return Ok(());
        };
        if start % 8 == 0 && end % 8 == 0 {
            page.fill(start, end, value);
        } else {
            page.store(start, end.wrapping_sub(start).min(8) as u8, value);
        }
        Ok(())
    }

    /// The first undefined byte of some at a plain address, with its undefined bits. No more bytes
    /// are looked at than a tenant has.
    pub fn first_undefined(&self, start: u64, bytes: u64) -> Option<(u64, UndefinedValue)> {
        let end = start.saturating_add(bytes.min(MOST_BYTES));
        let mut at = start;
        for _ in start..end {
            if at >= end {
                return None;
            }
            let Some(page) = self.page(at) else {
                at = (at | PAGE_SIZE - 1).saturating_add(1);
                continue;
            };
            let count = bytes_in_word(at, end.wrapping_sub(at).min(8) as u8);
            let bits = page.load(at, count).bits;
            if bits != 0 {
                at = at.wrapping_add(u64::from(bits.trailing_zeros() / 8));
                return Some((at, page.load(at, 1)));
            }
            at = at.saturating_add(u64::from(count));
        }
        None
    }

    /// Enters the undefined bits of bytes that were copied from one plain address to another, which
    /// do not overlap and are multiples of eight.
    pub fn copy(&mut self, from: u64, to: u64, bytes: u64) -> Result<(), AllocError> {
        for word in 0..bytes.div_ceil(8) {
            let offset = word.wrapping_mul(8);
            let count = bytes.saturating_sub(offset).min(8) as u8;
            let value = self.load(from.wrapping_add(offset), count);
            self.store(to.wrapping_add(offset), count, value)?;
        }
        Ok(())
    }
}

/// How many of some bytes at an address are in its word.
#[inline]
fn bytes_in_word(addr: u64, bytes: u8) -> u8 {
    bytes.min((8 - addr % 8) as u8)
}

/// Where a piece of a range ends that begins at an address: at the end of its word where it is not
/// at the start of one, else at the end of the last whole word of its page.
fn piece_end(at: u64, end: u64) -> u64 {
    if at % 8 != 0 {
        return at.saturating_add(8 - at % 8).min(end);
    }
    let page_end = at.saturating_add(PAGE_SIZE - at % PAGE_SIZE).min(end);
    if page_end.saturating_sub(at) < 8 {
        return end;
    }
    page_end - page_end % 8
}
