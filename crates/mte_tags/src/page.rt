//! Accesses within the page that a place holds.

ghost use Rattle.std.specs.Prelude.{◌≡◌, ℕ, ◌<◌, ◌≤◌, ◌+◌, ◌*◌, ◌%◌, ◌/◌, ◌^◌, ◌&&◌};
ghost use Rattle.std.specs.Prelude.{true, Some, IsTrue, is_none, length, slice_index, slice_range};
ghost use Rattle.std.specs.List.{range_with_len};
ghost use Rattle.std.specs.Int.{from_le_bytes, w32};
ghost use Rattle.a64_bits.specs.Addresses.{plain};
ghost use Rattle.mte_tags.specs.Memory.{has, tag_cases};
ghost use Rattle.mte_tags.specs.Runs.{with_bytes_run};
ghost use Rattle.mte_tags.specs.Inner.{IsPageRun, run_fault_in, run_passes_in};

use crate::access::Access;
use crate::attrs::Attrs;
use crate::fault::{FaultKind, MemFault};
use crate::page_store::PageStore;

/// Whether some bytes are requested, at most 16, and one page holds them.
#[inline(always)]
pub(crate) fn fits_one_page(at: u64, count: u64) -> bool
    ensures some { IsTrue result → 0 < count }
    ensures most { IsTrue result → count ≤ 16 }
    ensures inside { IsTrue result → at % 4096 + count ≤ 4096 }
{
    count > 0 && count <= 16 && at % 4096 <= 4096 - count
}

/// Whether a register, a part of one or two of them have this size: a power of two up to 16. An
/// address that is a multiple of it begins a run that one granule holds.
#[inline(always)]
pub(crate) fn is_register_size(count: u64) -> bool
    ensures some { IsTrue result → 0 < count }
    ensures most { IsTrue result → count ≤ 16 }
    ensures inside { IsTrue result → (a : ℕ) → a % count ≡ 0 → plain a % 16 + count ≤ 16 }
{
    matches!(count, 1 | 2 | 4 | 8 | 16)
}

/// The fault of the first byte of a run that fails, if any.
#[inline(always)]
pub(crate) fn run_fault<S: PageStore>(
    store: &S,
    place: usize,
    at: u64,
    count: usize,
    access: &Access,
) -> Option<MemFault>
    requires place { S.is_place store.now place }
    requires run { IsPageRun at count }
    ensures { result ≡ run_fault_in access.now (S.page_in store.now place) at count }
{
    let attrs = store.attrs(place);
    if !access.is_permitted(attrs) {
        return Some(access.fault(FaultKind::Permission, at, 0));
    }
    if !access.is_compared(attrs) {
        return None;
    }
    tag_fault(store, place, at, count, access)
}

/// Whether a run within one granule passes, of an access that its page permits: the common case,
/// which builds no fault.
#[inline(always)]
pub(crate) fn granule_passes<S: PageStore>(
    store: &S,
    place: usize,
    at: u64,
    count: usize,
    access: &Access,
) -> bool
    requires place { S.is_place store.now place }
    requires some { 0 < count }
    requires inside { at % 16 + count ≤ 16 }
    requires permitted { has (S.page_in store.now place).attrs access.now.need ≡ true }
    ensures { result ≡ run_passes_in access.now (S.page_in store.now place) at count }
{
    if !access.is_compared(store.attrs(place)) {
        return true;
    }
    store.granule_tag(place, (at % 4096 / 16) as usize) == access.tag
}

/// Whether a run of at most 16 bytes passes, which two granules hold at most, of an access that its
/// page permits. It builds no fault.
#[inline(always)]
pub(crate) fn granules_pass<S: PageStore>(
    store: &S,
    place: usize,
    at: u64,
    count: usize,
    access: &Access,
) -> bool
    requires place { S.is_place store.now place }
    requires run { IsPageRun at count }
    requires most { count ≤ 16 }
    requires permitted { has (S.page_in store.now place).attrs access.now.need ≡ true }
    ensures { result ≡ run_passes_in access.now (S.page_in store.now place) at count }
{
    if !access.is_compared(store.attrs(place)) {
        return true;
    }
    if store.granule_tag(place, (at % 4096 / 16) as usize) != access.tag {
        return false;
    }
    let last = at + count as u64 - 1;
    store.granule_tag(place, (last % 4096 / 16) as usize) == access.tag
}

/// Whether a run of at most 16 bytes passes. It builds no fault.
#[inline(always)]
pub(crate) fn run_passes<S: PageStore>(
    store: &S,
    place: usize,
    at: u64,
    count: usize,
    access: &Access,
) -> bool
    requires place { S.is_place store.now place }
    requires run { IsPageRun at count }
    requires most { count ≤ 16 }
    ensures { result ≡ run_passes_in access.now (S.page_in store.now place) at count }
{
    if !access.is_permitted(store.attrs(place)) {
        return false;
    }
    granules_pass(store, place, at, count, access)
}

/// How the first byte of a run fails where tags are compared.
#[inline]
fn tag_fault<S: PageStore>(
    store: &S,
    place: usize,
    at: u64,
    count: usize,
    access: &Access,
) -> Option<MemFault>
    requires place { S.is_place store.now place }
    requires run { IsPageRun at count }
    requires permitted { has (S.page_in store.now place).attrs access.now.need ≡ true }
    requires checked { (access.now.checked && has (S.page_in store.now place).attrs 8) ≡ true }
    ensures { result ≡ run_fault_in access.now (S.page_in store.now place) at count }
{
    let mut address = at;
    let mut left = count;
    while left > 0 {
        let tag = store.granule_tag(place, (address % 4096 / 16) as usize);
        if tag != access.tag {
            return Some(access.fault(FaultKind::TagCheck, address, tag));
        }
        let run = left.min((16 - address % 16) as usize);
        address += run as u64;
        left -= run;
    }
    None
}

/// Copies a run of bytes out. Runs of one register go through a copy that is no part of the page.
#[inline(always)]
pub(crate) fn copy_out<S: PageStore>(store: &S, place: usize, at: u64, buffer: &mut [u8])
    requires place { S.is_place store.now place }
    requires inside { at % 4096 + length buffer.old ≤ 4096 }
    ensures long { length (S.page_in store.now place).bytes ≡ 4096 }
    ensures bytes { buffer.new
        ≡ slice_range (S.page_in store.now place).bytes
        (at % 4096) (at % 4096 + length buffer.old) }
{
    let from = (at % 4096) as usize;
    let bytes = store.bytes(place);
    if buffer.len() == 8 {
        let mut number = [0; 8];
        number.copy_from_slice(&bytes[from..from + 8]);
        buffer.copy_from_slice(&number);
    } else if buffer.len() == 4 {
        let mut number = [0; 4];
        number.copy_from_slice(&bytes[from..from + 4]);
        buffer.copy_from_slice(&number);
    } else {
        buffer.copy_from_slice(&bytes[from..from + buffer.len()]);
    }
}

/// The instruction word at an address.
#[inline(always)]
pub(crate) fn word_in_page<S: PageStore>(store: &S, place: usize, at: u64) -> u32
    requires place { S.is_place store.now place }
    requires inside { at % 4096 + 4 ≤ 4096 }
    ensures long { length (S.page_in store.now place).bytes ≡ 4096 }
    ensures word { result
        ≡ from_le_bytes w32
        (slice_range (S.page_in store.now place).bytes (at % 4096) (at % 4096 + 4)) }
{
    let mut word = [0; 4];
    copy_out(store, place, at, &mut word);
    u32::from_le_bytes(word)
}

/// Copies the 16 instruction words from an address on out.
#[inline(always)]
pub(crate) fn words_in_page<S: PageStore>(store: &S, place: usize, at: u64, words: &mut [u32; 16])
    requires place { S.is_place store.now place }
    requires inside { at % 4096 + 64 ≤ 4096 }
    ensures long { length (S.page_in store.now place).bytes ≡ 4096 }
    ensures words { (i : ℕ) → i < 16
        → slice_index words.new i
        ≡ from_le_bytes w32
        (slice_range (S.page_in store.now place).bytes
        (at % 4096 + 4 * i) (at % 4096 + 4 * i + 4)) }
{
    let from = (at % 4096) as usize;
    let bytes = store.bytes(place);
    for i in 0..16 {
        let start = from + 4 * i;
        let mut word = [0; 4];
        word.copy_from_slice(&bytes[start..start + 4]);
        words[i] = u32::from_le_bytes(word);
    }
}

/// Replaces a run of the 4096 bytes of a page. Runs of one register go through a copy that is no
/// part of the page.
#[inline]
pub fn copy_in(page: &mut [u8], at: u64, bytes: &[u8])
    requires page { length page.old ≡ 4096 }
    requires inside { at % 4096 + length bytes.now ≤ 4096 }
    ensures { page.new ≡ with_bytes_run page.old (at % 4096) bytes.now }
{
    let from = (at % 4096) as usize;
    if bytes.len() == 8 {
        let mut number = [0; 8];
        number.copy_from_slice(bytes);
        page[from..from + 8].copy_from_slice(&number);
    } else if bytes.len() == 4 {
        let mut number = [0; 4];
        number.copy_from_slice(bytes);
        page[from..from + 4].copy_from_slice(&number);
    } else {
        page[from..from + bytes.len()].copy_from_slice(bytes);
    }
}

/// The tag of the granule at a plain address, 0 on a page without TAGGED.
#[inline]
pub(crate) fn tag_in_page<S: PageStore>(store: &S, place: usize, at: u64) -> u8
    requires { S.is_place store.now place }
    ensures small { result < 16 }
    ensures tag { result ≡ tag_cases (Some (S.page_in store.now place)) (at % 4096 / 16) }
{
    let tagged = store.attrs(place).contains(Attrs::TAGGED);
    if !tagged {
        return 0;
    }
    store.granule_tag(place, (at % 4096 / 16) as usize)
}
