//! The shadow of one page.

use crate::origin::{PointerOrigin, Provenance};
use common::PAGE_SIZE;
use std::alloc::{AllocError, Global};

/// The bytes of a word that holds a pointer.
const WORD_SIZE: u64 = 8;

/// How many words a page has.
const WORDS: usize = 512;

/// How many granules a page has.
const GRANULES: usize = 256;

/// The shadow of a page: for each word where the pointer in it points, and which of the word's
/// bytes are that pointer's, a bit each; for each granule the newest chunk that it was in.
#[derive(Drop)]
pub struct ShadowPage {
    origins: Vec<PointerOrigin>,
    held: Vec<u8>,
    owners: Vec<PointerOrigin>,
}

impl ShadowPage {
    /// A page of which nothing is known.
    pub fn new(alloc: Global) -> Result<ShadowPage, AllocError> {
        Ok(ShadowPage {
            origins: vec![in alloc; PointerOrigin::UNKNOWN; WORDS]?,
            held: vec![in alloc; 0u8; WORDS]?,
            owners: vec![in alloc; PointerOrigin::UNKNOWN; GRANULES]?,
        })
    }

    /// Of which pointer's bytes those are that lie at an address, at most eight within a word.
    #[inline]
    pub fn load(&self, addr: u64, bytes: u8) -> Provenance {
        let word = word_of(addr);
        let origin = self
            .origins
            .get(word)
            .copied()
            .unwrap_or(PointerOrigin::UNKNOWN);
        if !origin.is_known() {
            return Provenance::NONE;
        }
        let first = byte_in_word(addr);
        let mask = byte_mask(first, bytes);
        if self.held.get(word).copied().unwrap_or(0) & mask != mask {
            return Provenance::NONE;
        }
        Provenance {
            origin,
            first,
            count: bytes,
        }
    }

    /// Enters that bytes of a pointer are stored at an address, at most eight within a word. They
    /// are kept where they lie as they do in a pointer.
    #[inline]
    pub fn store(&mut self, addr: u64, bytes: u8, value: Provenance) {
        let (word, first) = (word_of(addr), byte_in_word(addr));
        let mask = byte_mask(first, bytes);
        let (Some(origin), Some(held)) = (self.origins.get_mut(word), self.held.get_mut(word))
        else {
            return;
        };
        if value.origin.is_known() && value.first == first && value.count >= bytes {
            if *origin != value.origin {
                *origin = value.origin;
                *held = 0;
            }
            *held |= mask;
        } else if origin.is_known() {
            *held &= !mask;
            if *held == 0 {
                *origin = PointerOrigin::UNKNOWN;
            }
        }
    }

    /// The newest chunk that the granule of an address was in.
    pub fn owner(&self, addr: u64) -> PointerOrigin {
        let granule = granule_of(addr);
        self.owners
            .get(granule)
            .copied()
            .unwrap_or(PointerOrigin::UNKNOWN)
    }

    /// Enters the chunk that the granule of an address is in.
    pub fn set_owner(&mut self, addr: u64, owner: PointerOrigin) {
        if let Some(place) = self.owners.get_mut(granule_of(addr)) {
            *place = owner;
        }
    }

    /// The origins of its words.
    pub fn origins(&self) -> &[PointerOrigin] {
        self.origins.as_slice()
    }

    /// The owners of its granules.
    pub fn owners(&self) -> &[PointerOrigin] {
        self.owners.as_slice()
    }
}

/// The word of a page that an address is in.
#[inline]
fn word_of(addr: u64) -> usize {
    (addr % PAGE_SIZE / WORD_SIZE) as usize
}

/// The granule of a page that an address is in.
fn granule_of(addr: u64) -> usize {
    (addr % PAGE_SIZE / 16) as usize
}

/// Which byte of its word an address is, 0 to 7.
#[inline]
fn byte_in_word(addr: u64) -> u8 {
    (addr % WORD_SIZE) as u8
}

/// The bits of some bytes of a word.
fn byte_mask(first: u8, bytes: u8) -> u8 {
    let ones = match bytes {
        0 => 0u8,
        1 => 0x01,
        2 => 0x03,
        3 => 0x07,
        4 => 0x0f,
        5 => 0x1f,
        6 => 0x3f,
        7 => 0x7f,
        _ => 0xff,
    };
    ones.wrapping_shl(u32::from(first))
}
