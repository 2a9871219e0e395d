//! The undefined bits of one page.

use crate::origin::{UndefinedOrigin, UndefinedValue};
use common::PAGE_SIZE;
use std::alloc::{AllocError, Global};

/// The bytes of a word.
const WORD_SIZE: u64 = 8;

/// How many words a page has.
const WORDS: usize = 512;

/// The undefined bits of a page, a word of eight bytes each, and of what those of each word are a
/// part.
#[derive(Drop)]
pub struct BitPage {
    bits: Vec<u64>,
    origins: Vec<UndefinedOrigin>,
}

impl BitPage {
    /// A page that is defined.
    pub fn new(alloc: Global) -> Result<BitPage, AllocError> {
        Ok(BitPage {
            bits: vec![in alloc; 0u64; WORDS]?,
            origins: vec![in alloc; UndefinedOrigin::UNKNOWN; WORDS]?,
        })
    }

    /// The undefined bits of the bytes at an address, at most eight within a word.
    #[inline]
    pub fn load(&self, addr: u64, bytes: u8) -> UndefinedValue {
        let word = word_of(addr);
        let bits = self.bits.get(word).copied().unwrap_or(0);
        if bits == 0 {
            return UndefinedValue::DEFINED;
        }
        let origin = self
            .origins
            .get(word)
            .copied()
            .unwrap_or(UndefinedOrigin::UNKNOWN);
        UndefinedValue::of(bits.wrapping_shr(shift_of(addr)) & ones(bytes), origin)
    }

    /// Enters the undefined bits of the bytes at an address, at most eight within a word.
    #[inline]
    pub fn store(&mut self, addr: u64, bytes: u8, value: UndefinedValue) {
        let word = word_of(addr);
        let mask = ones(bytes).wrapping_shl(shift_of(addr));
        if let Some(bits) = self.bits.get_mut(word) {
            *bits = *bits & !mask | value.bits.wrapping_shl(shift_of(addr)) & mask;
        }
        if value.bits & ones(bytes) != 0 {
            if let Some(origin) = self.origins.get_mut(word) {
                *origin = value.origin;
            }
        }
    }

    /// Enters that all words from an address to the next one are undefined or not, both of which
    /// are multiples of eight, and the second may be 0 for the page's end.
    pub fn fill(&mut self, addr: u64, end: u64, value: UndefinedValue) {
        let (first, end) = (word_of(addr), end_word(end));
        if let Some(words) = self.bits.as_mut_slice().get_mut(first..end) {
            for word in words.iter_mut() {
                *word = value.bits;
            }
        }
        if value.bits == 0 {
            return;
        }
        self.fill_origins(first, end, value.origin);
    }

    /// Enters of what all words are a part from one index to another.
    fn fill_origins(&mut self, first: usize, end: usize, value: UndefinedOrigin) {
        if let Some(origins) = self.origins.as_mut_slice().get_mut(first..end) {
            for origin in origins.iter_mut() {
                *origin = value;
            }
        }
    }
}

/// The word of a page that an address is in.
#[inline]
fn word_of(addr: u64) -> usize {
    (addr % PAGE_SIZE / WORD_SIZE) as usize
}

/// The word of a page that an address begins, or the page's end.
fn end_word(addr: u64) -> usize {
    match word_of(addr) {
        0 => WORDS,
        word => word,
    }
}

/// By how many bits a byte is above the lowest of its word.
#[inline]
fn shift_of(addr: u64) -> u32 {
    (addr % WORD_SIZE) as u32 * 8
}

/// The bits of a number of bytes.
#[inline]
pub fn ones(bytes: u8) -> u64 {
    match bytes {
        0 => 0,
        1 => 0xff,
        2 => 0xffff,
        3 => 0xff_ffff,
        4 => 0xffff_ffff,
        5 => 0xff_ffff_ffff,
        6 => 0xffff_ffff_ffff,
        7 => 0xff_ffff_ffff_ffff,
        _ => u64::MAX,
    }
}
