//! Where a tenant's last accesses found their pages.

ghost use Rattle.std.specs.Prelude.{◌≡◌, ◌<◌, ◌≤◌, ◌-◌, ◌*◌, ◌/◌, ◌%◌, ◌^◌, IsTrue, IsFalse, IfOk, true};
ghost use Rattle.mte_tags.specs.Memory.{has};
ghost use Rattle.a64_bits.specs.Addresses.{plain};
ghost use Rattle.mte_translate.specs.Tables.{Pages};
ghost use Rattle.mte_space.specs.Remembered.{attrs_of, IsRemembered};

use a64_bits::plain;
use mte_tags::Attrs;
use std::alloc::{AllocError, Global};

/// A page, and where it was found.
#[derive(Clone, Copy)]
pub(crate) struct RememberedPage {
    /// The address of the page; 2^64 - 1, which no page has, where none was found yet.
    pub(crate) address: u64,
    /// The address once more if the page may be read, else 2^64 - 1.
    pub(crate) readable: u64,
    /// The address once more if the page may be written, else 2^64 - 1.
    pub(crate) writable: u64,
    /// The number of the frame that holds the page.
    pub(crate) frame: usize,
    /// The number of its attributes: what may be done with it.
    attrs: u64,
}

/// The entry where no page was found yet. All its bytes are alike, so that many are filled
/// at once.
const NO_PAGE: RememberedPage = RememberedPage {
    address: u64::MAX,
    readable: u64::MAX,
    writable: u64::MAX,
    frame: usize::MAX,
    attrs: u64::MAX,
};

impl RememberedPage {
    ghost use Rattle.mte_space.specs.Remembered.{IsKey};

    /// A page in a frame.
    pub(crate) fn new(page: u64, frame: usize, attrs: Attrs) -> RememberedPage
        requires { page < 2 ^ 44 }
        ensures address { result.address ≡ page * 4096 }
        ensures readable { IsKey result 1 result.readable }
        ensures writable { IsKey result 2 result.writable }
        ensures frame { result.frame ≡ frame }
        ensures attrs { attrs_of result ≡ attrs }
    {
        let address = page * 4096;
        RememberedPage {
            address,
            readable: key(address, attrs.contains(Attrs::READ)),
            writable: key(address, attrs.contains(Attrs::WRITE)),
            frame,
            attrs: u64::from(attrs.0),
        }
    }

    /// The attributes of the page.
    #[inline(always)]
    pub(crate) fn attrs(&self) -> Attrs
        ensures { result ≡ attrs_of self.now }
    {
        Attrs((self.attrs % 256) as u8)
    }
}

/// Whether a key is that of the page of an access of `size` bytes whose address is a multiple of
/// them: one comparison says that it is this page, that the access is aligned, and what the key
/// says.
#[inline(always)]
pub(crate) fn is_key_of(key: u64, addr: u64, size: u64) -> bool
    requires some { 0 < size }
    requires most { size ≤ 16 }
    ensures low { IsTrue result → key < 2 ^ 56 }
    ensures page { IsTrue result → key % 4096 ≡ 0 → key / 4096 ≡ plain addr / 4096 }
    ensures aligned { IsTrue result → key % 4096 ≡ 0 → addr % size ≡ 0 }
{
    key == plain(addr) / 4096 * 4096 + addr % size
}

/// The address of a page with which something may be done, or 2^64 - 1.
fn key(address: u64, is_permitted: bool) -> u64
    ensures yes { IsTrue is_permitted → result ≡ address }
    ensures no { IsFalse is_permitted → result ≡ 2 ^ 64 - 1 }
{
    if is_permitted { address } else { u64::MAX }
}

/// How many pages of data are remembered, one for each place.
pub(crate) const DATA_PAGES: usize = 256;

/// The place of the page that instructions were fetched from, after those of data.
pub(crate) const CODE_PLACE: usize = DATA_PAGES;

/// How many pages are remembered.
pub(crate) const PLACES: usize = DATA_PAGES + 1;

/// An odd number whose multiples spread over the 32 bits of a word.
const SPREAD: u32 = 0x85EB_CA77;

/// The place of a page of data: the high byte of a product, so that pages in a row, and the first
/// pages of the heap's regions, have places of their own.
#[inline(always)]
pub(crate) fn data_place(page: u64) -> usize
    ensures { result < DATA_PAGES }
{
    let low = (page % (1 << 32)) as u32;
    (low.wrapping_mul(SPREAD) >> 24) as usize
}

/// Where the last accesses of a tenant found their pages: one page for fetches, and 256 for
/// data. It is the tenant's own, so that it outlives a slice.
#[derive(Drop)]
pub struct RememberedPages {
    pages: Box<[RememberedPage; PLACES]>,
}

impl RememberedPages {
    ghost use Rattle.mte_space.specs.Remembered.{page_at_place, with_page_at};

    /// Nothing is remembered, so that it is right of whatever pages are mapped. It is refused only
    /// where its memory is.
    pub fn new(alloc: Global) -> Result<RememberedPages, AllocError>
        ensures { IfOk result (λ r. (m : Pages) → IsRemembered m r) }
    {
        let pages = Box::new(alloc, [NO_PAGE; PLACES])?;
        Ok(RememberedPages { pages })
    }

    /// The page of a place.
    #[inline(always)]
    pub(crate) fn at(&self, place: usize) -> RememberedPage
        requires { place < PLACES }
        ensures { result ≡ page_at_place self.now place }
    {
        self.pages[place]
    }

    /// Remembers a page in a place.
    #[inline(always)]
    pub(crate) fn set(&mut self, place: usize, page: RememberedPage)
        requires { place < PLACES }
        ensures { self.new ≡ with_page_at self.old place page }
    {
        self.pages[place] = page;
    }

    /// Remembers nothing from now on.
    pub(crate) fn forget(&mut self)
        ensures { (m : Pages) → IsRemembered m self.new }
    {
        *self.pages = [NO_PAGE; PLACES];
    }
}
