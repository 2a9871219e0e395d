//! Memories that keep their pages in places of their own.

ghost use Rattle.std.specs.Prelude.{◌≡◌, ℕ, ◌<◌, ◌≤◌, ◌+◌, ◌%◌, ◌/◌, ◌^◌, true, Some};
ghost use Rattle.std.specs.Prelude.{IfSome, length, slice_index, option_map};
ghost use Rattle.a64_bits.specs.Addresses.{plain};
ghost use Rattle.mte_tags.specs.Memory.{Memory, Page, page_at, has, with_page, with_pending};
ghost use Rattle.mte_tags.specs.Runs.{with_bytes_in, with_granule_tags};

use crate::attrs::Attrs;
use crate::state::TagState;

/// The calls that a tagged memory of one's own needs: find the place that holds a page, read what a
/// place holds, and replace its bytes and tags. It then is a `Tagged` memory, whose accesses are
/// made of these calls. A place is a number of the store's own; it holds its page until a page is
/// found, mapped or unmapped. No call looks at attributes or compares tags.
pub trait PageStore {
    /// The contents of the memory, however they are kept.
    ghost memory: { Self → Memory };

    /// The state besides the memory that every call keeps.
    ghost kept: { Self → Self → Type 0 };

    /// That a place holds a page.
    ghost is_place: { Self → ℕ → Type 0 };

    /// The number of the page that a place holds.
    ghost number_in: { Self → ℕ → ℕ };

    /// The page that a place holds.
    ghost page_in: { Self → ℕ → Page };

    /// Its tag mode and its flag.
    fn tag_state(&mut self) -> TagState
        ensures answer { result ≡ (memory self.old).state }
        ensures memory { memory self.new ≡ memory self.old }
        ensures kept { kept self.old self.new };

    /// Sets its flag.
    fn set_pending(&mut self)
        ensures memory { memory self.new ≡ with_pending (memory self.old) }
        ensures kept { kept self.old self.new };

    /// The place of the page of a number, a plain address divided by 4096, if it is mapped. Data
    /// are read or written there.
    fn find(&mut self, page: u64) -> Option<usize>
        requires { page < 2 ^ 44 }
        ensures place { IfSome result (λ i. is_place self.new i) }
        ensures number { IfSome result (λ i. number_in self.new i ≡ page) }
        ensures page { page_at (memory self.old) page ≡ option_map (page_in self.new) result }
        ensures memory { memory self.new ≡ memory self.old }
        ensures kept { kept self.old self.new };

    /// The place of the page of a read of `size` bytes, where the store remembers that page as one
    /// with READ and one granule holds the bytes, as it does at each multiple of the size. Nothing
    /// is looked for: `None` does not say that the read fails.
    fn readable_place(&self, addr: u64, size: u64) -> Option<usize>
        requires some { 0 < size }
        requires most { size ≤ 16 }
        requires multiples { (a : ℕ) → a % size ≡ 0 → plain a % 16 + size ≤ 16 }
        ensures place { IfSome result (λ i. is_place self.now i) }
        ensures number { IfSome result (λ i. number_in self.now i ≡ plain addr / 4096) }
        ensures page { IfSome result (λ i.
            page_at (memory self.now) (plain addr / 4096) ≡ Some (page_in self.now i)) }
        ensures permitted { IfSome result (λ i. has (page_in self.now i).attrs 1 ≡ true) }
        ensures inside { IfSome result (λ _. plain addr % 16 + size ≤ 16) };

    /// The place of the page of a write of `size` bytes, where the store remembers that page as one
    /// with WRITE and one granule holds the bytes, as it does at each multiple of the size. Nothing
    /// is looked for: `None` does not say that the write fails.
    fn writable_place(&self, addr: u64, size: u64) -> Option<usize>
        requires some { 0 < size }
        requires most { size ≤ 16 }
        requires multiples { (a : ℕ) → a % size ≡ 0 → plain a % 16 + size ≤ 16 }
        ensures place { IfSome result (λ i. is_place self.now i) }
        ensures number { IfSome result (λ i. number_in self.now i ≡ plain addr / 4096) }
        ensures page { IfSome result (λ i.
            page_at (memory self.now) (plain addr / 4096) ≡ Some (page_in self.now i)) }
        ensures permitted { IfSome result (λ i. has (page_in self.now i).attrs 2 ≡ true) }
        ensures inside { IfSome result (λ _. plain addr % 16 + size ≤ 16) };

    /// Finds a page whose instructions are fetched. It may be `find`; what is remembered for
    /// data and for instructions apart is found sooner.
    fn find_code(&mut self, page: u64) -> Option<usize>
        requires { page < 2 ^ 44 }
        ensures place { IfSome result (λ i. is_place self.new i) }
        ensures number { IfSome result (λ i. number_in self.new i ≡ page) }
        ensures page { page_at (memory self.old) page ≡ option_map (page_in self.new) result }
        ensures memory { memory self.new ≡ memory self.old }
        ensures kept { kept self.old self.new };

    /// The attributes of the page that a place holds.
    fn attrs(&self, place: usize) -> Attrs
        requires { is_place self.now place }
        ensures { result.0 ≡ (page_in self.now place).attrs };

    /// The 4096 bytes of the page that a place holds.
    fn bytes(&self, place: usize) -> &[u8]
        requires { is_place self.now place }
        ensures value { result.now ≡ (page_in self.now place).bytes }
        ensures len { length result.now ≡ 4096 };

    /// The allocation tag of a granule, below 256, of the page that a place holds.
    fn granule_tag(&self, place: usize, granule: usize) -> u8
        requires place { is_place self.now place }
        requires granule { granule < 256 }
        ensures small { result < 16 }
        ensures tag { result ≡ slice_index (page_in self.now place).tags granule };

    /// Replaces a run of bytes of the page that a place holds, from the byte of an address on.
    fn replace_run(&mut self, place: usize, at: u64, bytes: &[u8])
        requires place { is_place self.old place }
        requires inside { at % 4096 + length bytes.now ≤ 4096 }
        ensures memory { memory self.new
            ≡ with_page (memory self.old) (number_in self.old place)
            (with_bytes_in (page_in self.old place) (at % 4096) bytes.now) }
        ensures place { is_place self.new place }
        ensures number { number_in self.new place ≡ number_in self.old place }
        ensures page { page_in self.new place
            ≡ with_bytes_in (page_in self.old place) (at % 4096) bytes.now }
        ensures kept { kept self.old self.new };

    /// Replaces the tags of `count` granules from granule `first` on of the page that a place
    /// holds, and makes their bytes zero where `zero` is set.
    fn retag(&mut self, place: usize, first: usize, count: usize, tag: u8, zero: bool)
        requires place { is_place self.old place }
        requires inside { first + count ≤ 256 }
        requires tag { tag < 16 }
        ensures long { length (page_in self.old place).bytes ≡ 4096 }
        ensures memory { memory self.new
            ≡ with_page (memory self.old) (number_in self.old place)
            (with_granule_tags (page_in self.old place) first count tag zero) }
        ensures place { is_place self.new place }
        ensures number { number_in self.new place ≡ number_in self.old place }
        ensures page { page_in self.new place
            ≡ with_granule_tags (page_in self.old place) first count tag zero }
        ensures kept { kept self.old self.new };

    ghost kept_same: { (a : Self) → kept a a };

    ghost kept_on: { (a b c : Self) → kept a b → kept b c → kept a c };
}
