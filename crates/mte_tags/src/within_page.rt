//! Accesses that one page holds, made of a memory's places. Each `at` is a plain address, below
//! 2^56; a run of bytes or granules from there on is within one page and is not empty. Only the
//! quick calls take any bytes, and may leave them to the others. The calls know no mode: in each of
//! them a tag that differs is a fault, and none sets the flag.

ghost use Rattle.std.specs.Prelude.{◌≡◌, ◌<◌, ◌≤◌, ◌+◌, ◌*◌, ◌/◌, ◌%◌, ◌^◌, false, None, IfOk};
ghost use Rattle.std.specs.Prelude.{◌==◌, ◌&&◌, ℕ, Ok, nat_le, slice_index};
ghost use Rattle.std.specs.Prelude.{IsTrue, IsFalse, is_ok, length, if◌then◌else◌};
ghost use Rattle.mte_tags.specs.Inner.{IsPageRun, IsReadOrLeft, IsWrittenOrLeft};
ghost use Rattle.a64_bits.specs.Addresses.{plain};
ghost use Rattle.mte_tags.specs.Memory.{tag_at, page_has, with_granules};
ghost use Rattle.mte_tags.specs.Accesses.{result_of, tag_result, addresses, granules, byte_fault};
ghost use Rattle.mte_tags.specs.Accesses.{first_fault, bytes_at, with_bytes, fetch_result};
ghost use Rattle.mte_tags.specs.Accesses.{read_access, write_access};

use crate::access::Access;
use crate::attrs::Attrs;
use crate::fault::{FaultKind, MemFault};
use crate::page::{
    copy_out, fits_one_page, granule_passes, granules_pass, is_register_size, run_fault,
    run_passes, tag_in_page, word_in_page, words_in_page,
};
use crate::page_store::PageStore;
use crate::size::{Eight, Four, Sixteen, Size, Two};
use a64_bits::plain;

/// The fault of the first byte of a run that fails, if any.
#[inline]
pub(crate) fn fault_of_run<S: PageStore>(
    store: &mut S,
    at: u64,
    count: usize,
    access: &Access,
) -> Option<MemFault>
    requires run { IsPageRun at count }
    ensures answer { result
        ≡ first_fault (S.memory store.old) access.now (addresses at count) }
    ensures memory { S.memory store.new ≡ S.memory store.old }
    ensures kept { S.kept store.old store.new }
{
    match store.find(at / 4096) {
        None => Some(access.fault(FaultKind::Translation, at, 0)),
        Some(place) => run_fault(store, place, at, count, access),
    }
}

/// The instruction word at an aligned address, which one page holds, or how its fetch fails.
#[inline(always)]
pub(crate) fn fetch_aligned<S: PageStore>(store: &mut S, pc: u64) -> Result<u32, MemFault>
    requires aligned { pc % 4 ≡ 0 }
    ensures answer { result ≡ fetch_result (S.memory store.old) pc }
    ensures memory { S.memory store.new ≡ S.memory store.old }
    ensures kept { S.kept store.old store.new }
{
    let access = Access::fetching(pc);
    let at = plain(pc);
    let Some(place) = store.find_code(at / 4096) else {
        return Err(access.fault(FaultKind::Translation, at, 0));
    };
    if let Some(fault) = run_fault(store, place, at, 4, &access) {
        return Err(fault);
    }
    Ok(word_in_page(store, place, at))
}

/// Whether the page of an address, where code is looked for, is mapped and has these attributes.
#[inline(always)]
pub(crate) fn code_has_attrs<S: PageStore>(store: &mut S, at: u64, attrs: Attrs) -> bool
    requires { at < 2 ^ 56 }
    ensures answer { result ≡ page_has (S.memory store.old) (at / 4096) attrs.0 }
    ensures memory { S.memory store.new ≡ S.memory store.old }
    ensures kept { S.kept store.old store.new }
{
    match store.find_code(at / 4096) {
        None => false,
        Some(place) => store.attrs(place).contains(attrs),
    }
}

/// The 16 instruction words from an address on, where one page with EXEC holds them and the address
/// is a multiple of 4; it says whether that is so, and else leaves the words as they were.
#[inline(always)]
pub(crate) fn fetch_words_in_page<S: PageStore>(
    store: &mut S,
    pc: u64,
    words: &mut [u32; 16],
) -> bool
    ensures answer { result
        ≡ (pc % 4 == 0 && nat_le (pc % 4096) 4032
        && page_has (S.memory store.old) (plain pc / 4096) 4) }
    ensures words { IsTrue result → (i : ℕ) → i < 16
        → fetch_result (S.memory store.old) (pc + 4 * i) ≡ Ok (slice_index words.new i) }
    ensures left { IsFalse result → words.new ≡ words.old }
    ensures memory { S.memory store.new ≡ S.memory store.old }
    ensures kept { S.kept store.old store.new }
{
    if pc % 4 != 0 || pc % 4096 > 4032 {
        return false;
    }
    let at = plain(pc);
    let Some(place) = store.find_code(at / 4096) else {
        return false;
    };
    if !store.attrs(place).contains(Attrs::EXEC) {
        return false;
    }
    words_in_page(store, place, at, words);
    true
}

/// Copies a run of bytes out, or returns the fault of the first that fails.
pub(crate) fn read_in_page<S: PageStore>(
    store: &mut S,
    at: u64,
    buffer: &mut [u8],
    access: &Access,
) -> Result<(), MemFault>
    requires run { IsPageRun at (length buffer.old) }
    ensures answer { result
        ≡ result_of
        (first_fault (S.memory store.old) access.now (addresses at (length buffer.old))) }
    ensures bytes { buffer.new
        ≡ (if is_ok result
        then bytes_at (S.memory store.old) (addresses at (length buffer.old))
        else buffer.old) }
    ensures memory { S.memory store.new ≡ S.memory store.old }
    ensures kept { S.kept store.old store.new }
{
    let Some(place) = store.find(at / 4096) else {
        return Err(access.fault(FaultKind::Translation, at, 0));
    };
    if let Some(fault) = run_fault(store, place, at, buffer.len(), access) {
        return Err(fault);
    }
    copy_out(store, place, at, buffer);
    Ok(())
}

/// Copies bytes out where that is quick and none fails, and returns whether it did: a register's
/// bytes in one granule, on a page that the store remembers. `false` changes nothing,
/// and does not say that an access fails.
#[inline(always)]
pub(crate) fn try_read<S: PageStore>(
    store: &mut S,
    addr: u64,
    buffer: &mut [u8],
    checked: bool,
) -> bool
    ensures read { IsReadOrLeft (S.memory store.old) (S.memory store.new)
        (read_access addr checked) (plain addr) buffer.old buffer.new result }
    ensures kept { S.kept store.old store.new }
{
    let size = buffer.len() as u64;
    if !is_register_size(size) {
        return false;
    }
    let Some(place) = store.readable_place(addr, size) else {
        return false;
    };
    let at = plain(addr);
    let access = Access::reading(addr, checked);
    if !granule_passes(store, place, at, buffer.len(), &access) {
        return false;
    }
    copy_out(store, place, at, buffer);
    true
}

/// The same at any address whose page holds them, out of line: in one granule or two.
#[inline(never)]
fn try_read_sized<S: PageStore, A: Size>(
    store: &mut S,
    addr: u64,
    buffer: &mut [u8],
    checked: bool,
) -> bool
    requires size { length buffer.old ≡ A.BYTES }
    ensures read { IsReadOrLeft (S.memory store.old) (S.memory store.new)
        (read_access addr checked) (plain addr) buffer.old buffer.new result }
    ensures kept { S.kept store.old store.new }
{
    let at = plain(addr);
    let size = A::bytes();
    if !fits_one_page(at, size as u64) {
        return false;
    }
    let Some(place) = store.readable_place(addr, 1) else {
        return false;
    };
    let access = Access::reading(addr, checked);
    if !granules_pass(store, place, at, size, &access) {
        return false;
    }
    copy_out(store, place, at, &mut buffer[..size]);
    true
}

/// The same of any size.
#[inline(always)]
pub(crate) fn try_read_unaligned<S: PageStore>(
    store: &mut S,
    addr: u64,
    buffer: &mut [u8],
    checked: bool,
) -> bool
    ensures read { IsReadOrLeft (S.memory store.old) (S.memory store.new)
        (read_access addr checked) (plain addr) buffer.old buffer.new result }
    ensures kept { S.kept store.old store.new }
{
    match buffer.len() {
        2 => try_read_sized::<S, Two>(store, addr, buffer, checked),
        4 => try_read_sized::<S, Four>(store, addr, buffer, checked),
        8 => try_read_sized::<S, Eight>(store, addr, buffer, checked),
        16 => try_read_sized::<S, Sixteen>(store, addr, buffer, checked),
        _ => false,
    }
}

/// Copies bytes out where one page holds them and none fails, and returns whether it did. `false`
/// changes nothing, and does not say that an access fails.
#[inline(never)]
pub(crate) fn try_read_in_page<S: PageStore>(
    store: &mut S,
    addr: u64,
    buffer: &mut [u8],
    checked: bool,
) -> bool
    ensures read { IsReadOrLeft (S.memory store.old) (S.memory store.new)
        (read_access addr checked) (plain addr) buffer.old buffer.new result }
    ensures kept { S.kept store.old store.new }
{
    let at = plain(addr);
    let access = Access::reading(addr, checked);
    if !fits_one_page(at, buffer.len() as u64) {
        return false;
    }
    let Some(place) = store.find(at / 4096) else {
        return false;
    };
    if !run_passes(store, place, at, buffer.len(), &access) {
        return false;
    }
    copy_out(store, place, at, buffer);
    true
}

/// Copies a run of bytes in, or returns the fault of the first that fails.
pub(crate) fn write_in_page<S: PageStore>(
    store: &mut S,
    at: u64,
    bytes: &[u8],
    access: &Access,
) -> Result<(), MemFault>
    requires run { IsPageRun at (length bytes.now) }
    ensures answer { result
        ≡ result_of
        (first_fault (S.memory store.old) access.now (addresses at (length bytes.now))) }
    ensures memory { S.memory store.new
        ≡ (if is_ok result
        then with_bytes (S.memory store.old) (addresses at (length bytes.now)) bytes.now
        else S.memory store.old) }
    ensures kept { S.kept store.old store.new }
{
    let Some(place) = store.find(at / 4096) else {
        return Err(access.fault(FaultKind::Translation, at, 0));
    };
    if let Some(fault) = run_fault(store, place, at, bytes.len(), access) {
        return Err(fault);
    }
    store.replace_run(place, at, bytes);
    Ok(())
}

/// Copies bytes in where that is quick and none fails, and returns whether it did: a register's
/// bytes in one granule, on a page that the store remembers. `false` changes nothing,
/// and does not say that an access fails.
#[inline(always)]
pub(crate) fn try_write<S: PageStore>(store: &mut S, addr: u64, bytes: &[u8], checked: bool) -> bool
    ensures written { IsWrittenOrLeft (S.memory store.old) (S.memory store.new)
        (write_access addr checked) (plain addr) bytes.now result }
    ensures kept { S.kept store.old store.new }
{
    let size = bytes.len() as u64;
    if !is_register_size(size) {
        return false;
    }
    let Some(place) = store.writable_place(addr, size) else {
        return false;
    };
    let at = plain(addr);
    let access = Access::writing(addr, checked);
    if !granule_passes(store, place, at, bytes.len(), &access) {
        return false;
    }
    store.replace_run(place, at, bytes);
    true
}

/// The same at any address whose page holds them, out of line: in one granule or two.
#[inline(never)]
fn try_write_sized<S: PageStore, A: Size>(
    store: &mut S,
    addr: u64,
    bytes: &[u8],
    checked: bool,
) -> bool
    requires size { length bytes.now ≡ A.BYTES }
    ensures written { IsWrittenOrLeft (S.memory store.old) (S.memory store.new)
        (write_access addr checked) (plain addr) bytes.now result }
    ensures kept { S.kept store.old store.new }
{
    let at = plain(addr);
    let size = A::bytes();
    if !fits_one_page(at, size as u64) {
        return false;
    }
    let Some(place) = store.writable_place(addr, 1) else {
        return false;
    };
    let access = Access::writing(addr, checked);
    if !granules_pass(store, place, at, size, &access) {
        return false;
    }
    store.replace_run(place, at, &bytes[..size]);
    true
}

/// The same of any size.
#[inline(always)]
pub(crate) fn try_write_unaligned<S: PageStore>(
    store: &mut S,
    addr: u64,
    bytes: &[u8],
    checked: bool,
) -> bool
    ensures written { IsWrittenOrLeft (S.memory store.old) (S.memory store.new)
        (write_access addr checked) (plain addr) bytes.now result }
    ensures kept { S.kept store.old store.new }
{
    match bytes.len() {
        2 => try_write_sized::<S, Two>(store, addr, bytes, checked),
        4 => try_write_sized::<S, Four>(store, addr, bytes, checked),
        8 => try_write_sized::<S, Eight>(store, addr, bytes, checked),
        16 => try_write_sized::<S, Sixteen>(store, addr, bytes, checked),
        _ => false,
    }
}

/// Copies bytes in where one page holds them and none fails, and returns whether it did. `false`
/// changes nothing, and does not say that an access fails.
#[inline(never)]
pub(crate) fn try_write_in_page<S: PageStore>(
    store: &mut S,
    addr: u64,
    bytes: &[u8],
    checked: bool,
) -> bool
    ensures written { IsWrittenOrLeft (S.memory store.old) (S.memory store.new)
        (write_access addr checked) (plain addr) bytes.now result }
    ensures kept { S.kept store.old store.new }
{
    let at = plain(addr);
    let access = Access::writing(addr, checked);
    if !fits_one_page(at, bytes.len() as u64) {
        return false;
    }
    let Some(place) = store.find(at / 4096) else {
        return false;
    };
    if !run_passes(store, place, at, bytes.len(), &access) {
        return false;
    }
    store.replace_run(place, at, bytes);
    true
}

/// The tag of the granule at an address, or how the byte there fails.
#[inline(always)]
pub(crate) fn granule_tag_at<S: PageStore>(
    store: &mut S,
    at: u64,
    access: &Access,
) -> Result<u8, MemFault>
    requires { at < 2 ^ 56 }
    ensures small { IfOk result (λ t. t < 16) }
    ensures answer { result
        ≡ tag_result (byte_fault (S.memory store.old) access.now at)
        (tag_at (S.memory store.old) at) }
    ensures memory { S.memory store.new ≡ S.memory store.old }
    ensures kept { S.kept store.old store.new }
{
    let Some(place) = store.find(at / 4096) else {
        return Err(access.fault(FaultKind::Translation, at, 0));
    };
    if let Some(fault) = run_fault(store, place, at, 1, access) {
        return Err(fault);
    }
    Ok(tag_in_page(store, place, at))
}

/// Replaces the tags of a run of granules, and makes their bytes zero where `zero` is set, or
/// returns the fault of the first granule that fails. The access is not tag checked.
#[inline(always)]
pub(crate) fn store_tags_in_page<S: PageStore>(
    store: &mut S,
    at: u64,
    count: usize,
    tag: u8,
    zero: bool,
    access: &Access,
) -> Result<(), MemFault>
    requires some { 0 < count }
    requires aligned { at % 16 ≡ 0 }
    requires inside { at % 4096 + 16 * count ≤ 4096 }
    requires plain { at < 2 ^ 56 }
    requires tag { tag < 16 }
    requires unchecked { access.now.checked ≡ false }
    ensures answer { result
        ≡ result_of (first_fault (S.memory store.old) access.now (granules at count)) }
    ensures memory { S.memory store.new
        ≡ (if is_ok result
        then with_granules (S.memory store.old) at count tag zero
        else S.memory store.old) }
    ensures kept { S.kept store.old store.new }
{
    let Some(place) = store.find(at / 4096) else {
        return Err(access.fault(FaultKind::Translation, at, 0));
    };
    if let Some(fault) = run_fault(store, place, at, 1, access) {
        return Err(fault);
    }
    store.retag(place, (at % 4096 / 16) as usize, count, tag, zero);
    Ok(())
}
