//! A place for a page in memory that the caller lends.

ghost use Rattle.std.specs.Prelude.{◌≡◌, ◌<◌, ◌≤◌, ◌+◌, ◌%◌, true, length};
ghost use Rattle.mte_tags.specs.Memory.{new_page};
ghost use Rattle.mte_tags.specs.Runs.{with_bytes_run, with_granule_tags};
ghost use Rattle.tombolopan_c.specs.LentPages.{page_of, is_place_of};

use mte_tags::{Attrs, copy_in};

/// A place for a page. It is free where `mapped` is 0; zero bytes are free places.
#[repr(C)]
#[derive(Clone, Copy)]
pub struct LentPage {
    /// The plain address of its first byte divided by 4096.
    pub number: u64,
    /// 0 where the place is free.
    pub mapped: u32,
    /// The sum of READ 1, WRITE 2, EXEC 4 and TAGGED 8; the low four bits count.
    pub attrs: u32,
    pub bytes: [u8; 4096],
    /// The allocation tag of each granule; the low four bits count.
    pub tags: [u8; 256],
}

impl LentPage {
    /// The attributes of the page.
    #[inline(always)]
    pub(crate) fn attrs(&self) -> Attrs
        ensures { result.0 ≡ (page_of self.now).attrs }
    {
        Attrs((self.attrs % 16) as u8)
    }

    /// Whether it is in use, for the page of a number.
    #[inline(always)]
    pub(crate) fn is_of(&self, number: u64) -> bool
        ensures { result ≡ is_place_of self.now number }
    {
        self.mapped != 0 && self.number == number
    }

    /// Makes it the place of a new page, of zero bytes and tag 0.
    pub(crate) fn fill_new(&mut self, number: u64, attrs: u32)
        requires { attrs < 16 }
        ensures place { is_place_of self.new number ≡ true }
        ensures page { page_of self.new ≡ new_page attrs }
    {
        self.number = number;
        self.mapped = 1;
        self.attrs = attrs;
        self.bytes = [0; 4096];
        self.tags = [0; 256];
    }

    /// Replaces a run of bytes.
    #[inline]
    pub(crate) fn copy_in(&mut self, at: u64, bytes: &[u8])
        requires { at % 4096 + length bytes.now ≤ 4096 }
        ensures { self.new
            ≡ record self.old { bytes = with_bytes_run self.old.bytes (at % 4096) bytes.now } }
    {
        copy_in(&mut self.bytes, at, bytes);
    }

    /// Replaces the tags of `count` granules from granule `first` on, and makes their bytes zero
    /// where `zero` is set.
    #[inline]
    pub(crate) fn retag(&mut self, first: usize, count: usize, tag: u8, zero: bool)
        requires inside { first + count ≤ 256 }
        requires tag { tag < 16 }
        ensures long { length self.old.bytes ≡ 4096 }
        ensures number { self.new.number ≡ self.old.number }
        ensures mapped { self.new.mapped ≡ self.old.mapped }
        ensures holds { page_of self.new
            ≡ with_granule_tags (page_of self.old) first count tag zero }
    {
        self.tags[first..first + count].fill(tag);
        if zero {
            self.bytes[16 * first..16 * first + 16 * count].fill(0);
        }
    }
}
