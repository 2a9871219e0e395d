//! The accesses of a memory that is reached one page at a time, made of runs within a page.

ghost use Rattle.std.specs.Prelude.{◌≡◌, ℕ, ◌<◌, ◌≤◌, ◌+◌, ◌-◌, ◌*◌, ◌%◌, ◌/◌, ◌^◌, ◌↔◌, false};
ghost use Rattle.std.specs.Prelude.{IsTrue, IfOk, is_ok, length, if◌then◌else◌};
ghost use Rattle.a64_bits.specs.Addresses.{plain};
ghost use Rattle.mte_tags.specs.Inner.{IsRead, IsWritten};
ghost use Rattle.mte_tags.specs.Memory.{Memory, tag_at, page_has, with_granules};
ghost use Rattle.mte_tags.specs.Accesses.{result_of, tag_result, addresses, granules, first_fault};
ghost use Rattle.mte_tags.specs.Accesses.{access_fault, after_access, bytes_at, with_bytes};
ghost use Rattle.mte_tags.specs.Accesses.{AreMapped};
ghost use Rattle.mte_tags.specs.Accesses.{fetch_result, read_fault, read_bytes, after_read};
ghost use Rattle.mte_tags.specs.Accesses.{write_fault};
ghost use Rattle.mte_tags.specs.Accesses.{with_bytes_at, after_write, tags_fault};
ghost use Rattle.mte_tags.specs.Accesses.{tag_load_fault, fault, fetch_access};
ghost use Rattle.mte_tags.specs.Accesses.{read_access, write_access};

use crate::access::Access;
use crate::attrs::Attrs;
use crate::chunk::{read_chunk_in_page, write_chunk_in_page};
use crate::fault::{FaultKind, MemFault, by_fields};
use crate::page_store::PageStore;
use crate::state::TagMode;
use crate::tagged::{ChunkAccess, Tagged};
use crate::within_page::{
    code_has_attrs, fault_of_run, fetch_aligned, fetch_words_in_page, granule_tag_at, read_in_page,
    store_tags_in_page, try_read, try_read_in_page, try_read_unaligned, try_write,
    try_write_in_page, try_write_unaligned, write_in_page,
};
use a64_bits::plain;

const ADDRESSES: u64 = 1 << 56;

/// The fault of the first byte of an access that fails, if any.
fn check_bytes<S: PageStore>(
    store: &mut S,
    at: u64,
    count: usize,
    access: &Access,
) -> Result<(), MemFault>
    requires { at < 2 ^ 56 }
    ensures answer { result
        ≡ result_of (first_fault (S.memory store.old) access.now (addresses at count)) }
    ensures memory { S.memory store.new ≡ S.memory store.old }
    ensures kept { S.kept store.old store.new }
{
    let mut place = at;
    let mut left = count;
    while left > 0 {
        let run = left.min((4096 - place % 4096) as usize);
        if let Some(fault) = fault_of_run(store, place, run, access) {
            return Err(fault);
        }
        place = (place + run as u64) % ADDRESSES;
        left -= run;
    }
    Ok(())
}

/// The fault of an access in the memory's mode, if any. One that has none, and a byte whose tag
/// differs, sets the flag.
fn check_in_mode<S: PageStore>(
    store: &mut S,
    at: u64,
    count: usize,
    access: &Access,
) -> Result<(), MemFault>
    requires { at < 2 ^ 56 }
    ensures answer { result
        ≡ result_of (access_fault (S.memory store.old) access.now (addresses at count)) }
    ensures memory { S.memory store.new
        ≡ (if is_ok result
        then after_access (S.memory store.old) access.now (addresses at count)
        else S.memory store.old) }
    ensures kept { S.kept store.old store.new }
{
    let Err(fault) = check_bytes(store, at, count, access) else {
        return Ok(());
    };
    match store.tag_state().mode {
        TagMode::Sync => Err(fault),
        TagMode::Async => {
            if let Err(other) = check_bytes(store, at, count, &access.unchecked()) {
                return Err(other);
            }
            store.set_pending();
            Ok(())
        }
    }
}

/// Copies bytes of mapped pages out.
fn copy_out<S: PageStore>(store: &mut S, at: u64, buffer: &mut [u8])
    requires plain { at < 2 ^ 56 }
    requires mapped { AreMapped (S.memory store.old) (addresses at (length buffer.old)) }
    ensures bytes { buffer.new
        ≡ bytes_at (S.memory store.old) (addresses at (length buffer.old)) }
    ensures memory { S.memory store.new ≡ S.memory store.old }
    ensures kept { S.kept store.old store.new }
{
    let access = Access::mapped();
    let mut place = at;
    let mut done = 0;
    while done < buffer.len() {
        let run = (buffer.len() - done).min((4096 - place % 4096) as usize);
        // A mapped page lacks nothing that this access requires.
        let _ = read_in_page(store, place, &mut buffer[done..done + run], &access);
        place = (place + run as u64) % ADDRESSES;
        done += run;
    }
}

/// Replaces bytes of mapped pages from a plain address, below 2^56, on, whatever their attributes
/// and tags. A memory made of pages loads bytes by it.
pub fn replace_bytes<S: PageStore>(store: &mut S, at: u64, bytes: &[u8])
    requires plain { at < 2 ^ 56 }
    requires mapped { AreMapped (S.memory store.old) (addresses at (length bytes.now)) }
    ensures memory { S.memory store.new
        ≡ with_bytes (S.memory store.old) (addresses at (length bytes.now)) bytes.now }
    ensures kept { S.kept store.old store.new }
{
    let access = Access::mapped();
    let mut place = at;
    let mut done = 0;
    while done < bytes.len() {
        let run = (bytes.len() - done).min((4096 - place % 4096) as usize);
        // A mapped page lacks nothing that this access requires.
        let _ = write_in_page(store, place, &bytes[done..done + run], &access);
        place = (place + run as u64) % ADDRESSES;
        done += run;
    }
}

/// Copies bytes out page by page, or returns the fault of the first that fails.
#[cold]
#[inline(never)]
fn read_across_pages<S: PageStore>(
    store: &mut S,
    addr: u64,
    buffer: &mut [u8],
    checked: bool,
) -> Result<(), MemFault>
    ensures read { IsRead (S.memory store.old) (S.memory store.new) (read_access addr checked)
        (plain addr) buffer.old buffer.new result }
    ensures kept { S.kept store.old store.new }
{
    let at = plain(addr);
    check_in_mode(store, at, buffer.len(), &Access::reading(addr, checked))?;
    copy_out(store, at, buffer);
    Ok(())
}

/// Copies bytes out of pages that are found first, or returns the fault of the first that fails.
#[cold]
#[inline(never)]
fn read_found<S: PageStore>(
    store: &mut S,
    addr: u64,
    buffer: &mut [u8],
    checked: bool,
) -> Result<(), MemFault>
    ensures read { IsRead (S.memory store.old) (S.memory store.new) (read_access addr checked)
        (plain addr) buffer.old buffer.new result }
    ensures kept { S.kept store.old store.new }
{
    if try_read_in_page(store, addr, buffer, checked) {
        return Ok(());
    }
    read_across_pages(store, addr, buffer, checked)
}

/// Copies bytes out where that was not quick, or returns the fault of the first that fails.
#[inline(always)]
fn read_far<S: PageStore>(
    store: &mut S,
    addr: u64,
    buffer: &mut [u8],
    checked: bool,
) -> Result<(), MemFault>
    ensures read { IsRead (S.memory store.old) (S.memory store.new) (read_access addr checked)
        (plain addr) buffer.old buffer.new result }
    ensures kept { S.kept store.old store.new }
{
    if try_read_unaligned(store, addr, buffer, checked) {
        return Ok(());
    }
    by_fields(read_found(store, addr, buffer, checked))
}

/// Reads where that was not quick. A copy of a short buffer goes along, and the result comes back
/// field by field, so that quick accesses hold both in registers.
#[inline(always)]
fn read_slowly<S: PageStore>(
    store: &mut S,
    addr: u64,
    buffer: &mut [u8],
    checked: bool,
) -> Result<(), MemFault>
    ensures read { IsRead (S.memory store.old) (S.memory store.new) (read_access addr checked)
        (plain addr) buffer.old buffer.new result }
    ensures kept { S.kept store.old store.new }
{
    let len = buffer.len();
    if len > 8 {
        return read_far(store, addr, buffer, checked);
    }
    let mut bytes = [0; 8];
    let result = read_far(store, addr, &mut bytes[..len], checked);
    if result.is_ok() {
        buffer.copy_from_slice(&bytes[..len]);
    }
    result
}

/// Copies bytes out, or returns the fault of the first that fails.
#[rattlefmt::skip]
#[tactic(auto, unfolding(
    crate::specs::Accesses::read_fault,
    crate::specs::Accesses::read_bytes,
    crate::specs::Accesses::after_read
))]
#[inline(always)]
fn read_at<S: PageStore>(
    store: &mut S,
    addr: u64,
    buffer: &mut [u8],
    checked: bool,
) -> Result<(), MemFault>
    ensures answer { result
        ≡ result_of (read_fault (S.memory store.old) addr (length buffer.old) checked) }
    ensures bytes { buffer.new
        ≡ (if is_ok result
        then read_bytes (S.memory store.old) addr (length buffer.old)
        else buffer.old) }
    ensures memory { S.memory store.new
        ≡ (if is_ok result
        then after_read (S.memory store.old) addr (length buffer.old) checked
        else S.memory store.old) }
    ensures kept { S.kept store.old store.new }
{
    if try_read(store, addr, buffer, checked) {
        return Ok(());
    }
    read_slowly(store, addr, buffer, checked)
}

/// Copies bytes in page by page, all of them, or returns the fault of the first that fails.
#[cold]
#[inline(never)]
fn write_across_pages<S: PageStore>(
    store: &mut S,
    addr: u64,
    bytes: &[u8],
    checked: bool,
) -> Result<(), MemFault>
    ensures written { IsWritten (S.memory store.old) (S.memory store.new)
        (write_access addr checked) (plain addr) bytes.now result }
    ensures kept { S.kept store.old store.new }
{
    let at = plain(addr);
    check_in_mode(store, at, bytes.len(), &Access::writing(addr, checked))?;
    replace_bytes(store, at, bytes);
    Ok(())
}

/// Copies bytes into pages that are found first, or returns the fault of the first that fails.
#[cold]
#[inline(never)]
fn write_found<S: PageStore>(
    store: &mut S,
    addr: u64,
    bytes: &[u8],
    checked: bool,
) -> Result<(), MemFault>
    ensures written { IsWritten (S.memory store.old) (S.memory store.new)
        (write_access addr checked) (plain addr) bytes.now result }
    ensures kept { S.kept store.old store.new }
{
    if try_write_in_page(store, addr, bytes, checked) {
        return Ok(());
    }
    write_across_pages(store, addr, bytes, checked)
}

/// Writes where that was not quick. The result comes back field by field, so that quick accesses
/// hold it in registers.
#[inline(always)]
fn write_slowly<S: PageStore>(
    store: &mut S,
    addr: u64,
    bytes: &[u8],
    checked: bool,
) -> Result<(), MemFault>
    ensures written { IsWritten (S.memory store.old) (S.memory store.new)
        (write_access addr checked) (plain addr) bytes.now result }
    ensures kept { S.kept store.old store.new }
{
    if try_write_unaligned(store, addr, bytes, checked) {
        return Ok(());
    }
    by_fields(write_found(store, addr, bytes, checked))
}

/// Copies bytes in, or returns the fault of the first that fails.
#[rattlefmt::skip]
#[tactic(auto, unfolding(
    crate::specs::Accesses::write_fault,
    crate::specs::Accesses::with_bytes_at,
    crate::specs::Accesses::after_write
))]
#[inline(always)]
fn write_at<S: PageStore>(
    store: &mut S,
    addr: u64,
    bytes: &[u8],
    checked: bool,
) -> Result<(), MemFault>
    ensures answer { result
        ≡ result_of (write_fault (S.memory store.old) addr (length bytes.now) checked) }
    ensures memory { S.memory store.new
        ≡ (if is_ok result
        then after_write (S.memory store.old) addr bytes.now checked
        else S.memory store.old) }
    ensures kept { S.kept store.old store.new }
{
    if try_write(store, addr, bytes, checked) {
        return Ok(());
    }
    write_slowly(store, addr, bytes, checked)
}

/// The instruction word at an address; one page holds an aligned word.
#[inline(always)]
fn fetch_word<S: PageStore>(store: &mut S, pc: u64) -> Result<u32, MemFault>
    ensures answer { result ≡ fetch_result (S.memory store.old) pc }
    ensures memory { S.memory store.new ≡ S.memory store.old }
    ensures kept { S.kept store.old store.new }
{
    if pc % 4 != 0 {
        return Err(unaligned_fetch(pc));
    }
    fetch_aligned(store, pc)
}

/// The fault of a fetch at an address that is not a multiple of 4.
#[cold]
#[inline(never)]
fn unaligned_fetch(pc: u64) -> MemFault
    ensures { result ≡ fault FaultKind.PcAlignment (fetch_access pc) (plain pc) 0 }
{
    Access::fetching(pc).fault(FaultKind::PcAlignment, plain(pc), 0)
}

/// The tag of the granule that holds an address.
#[inline(always)]
fn load_granule_tag<S: PageStore>(store: &mut S, addr: u64) -> Result<u8, MemFault>
    ensures small { IfOk result (λ t. t < 16) }
    ensures answer { result
        ≡ tag_result (tag_load_fault (S.memory store.old) addr)
        (tag_at (S.memory store.old) (plain addr)) }
    ensures memory { S.memory store.new ≡ S.memory store.old }
    ensures kept { S.kept store.old store.new }
{
    let access = Access::reading(addr, false);
    granule_tag_at(store, plain(addr) / 16 * 16, &access)
}

/// Whether the page of an address is mapped and has these attributes.
fn page_has_attrs<S: PageStore>(store: &mut S, addr: u64, attrs: Attrs) -> bool
    ensures answer { result ≡ page_has (S.memory store.old) (plain addr / 4096) attrs.0 }
    ensures memory { S.memory store.new ≡ S.memory store.old }
    ensures kept { S.kept store.old store.new }
{
    let at = plain(addr);
    if attrs.contains(Attrs::EXEC) {
        return code_has_attrs(store, at, attrs);
    }
    let access = Access::needing(attrs);
    fault_of_run(store, at, 1, &access).is_none()
}

/// The fault of the first granule that fails of an access without a tag check, if any.
#[cold]
#[inline(never)]
fn check_granules<S: PageStore>(
    store: &mut S,
    at: u64,
    count: u64,
    access: &Access,
) -> Result<(), MemFault>
    requires plain { at < 2 ^ 56 }
    requires aligned { at % 16 ≡ 0 }
    requires unchecked { access.now.checked ≡ false }
    ensures answer { result
        ≡ result_of (first_fault (S.memory store.old) access.now (granules at count)) }
    ensures memory { S.memory store.new ≡ S.memory store.old }
    ensures kept { S.kept store.old store.new }
{
    let mut place = at;
    let mut left = count;
    while left > 0 {
        let run = left.min((4096 - place % 4096) / 16);
        if let Some(fault) = fault_of_run(store, place, 1, access) {
            return Err(fault);
        }
        place = (place + 16 * run) % ADDRESSES;
        left -= run;
    }
    Ok(())
}

/// Replaces the tags of granules of mapped pages.
#[cold]
#[inline(never)]
fn tag_granules<S: PageStore>(store: &mut S, at: u64, count: u64, tag: u8, zero: bool)
    requires plain { at < 2 ^ 56 }
    requires aligned { at % 16 ≡ 0 }
    requires tag { tag < 16 }
    requires mapped { AreMapped (S.memory store.old) (granules at count) }
    ensures memory { S.memory store.new ≡ with_granules (S.memory store.old) at count tag zero }
    ensures kept { S.kept store.old store.new }
{
    let access = Access::mapped();
    let mut place = at;
    let mut left = count;
    while left > 0 {
        let run = left.min((4096 - place % 4096) / 16);
        // A mapped page lacks nothing that this access requires.
        let _ = store_tags_in_page(store, place, run as usize, tag, zero, &access);
        place = (place + 16 * run) % ADDRESSES;
        left -= run;
    }
}

/// Replaces the tags of granules, or returns the fault of the first that fails.
#[tactic(auto, unfolding(crate::specs::Accesses::tags_fault))]
#[inline(always)]
fn store_granule_tags<S: PageStore>(
    store: &mut S,
    addr: u64,
    count: u64,
    tag: u8,
    zero: bool,
) -> Result<(), MemFault>
    requires { tag < 16 }
    ensures answer { result ≡ result_of (tags_fault (S.memory store.old) addr count) }
    ensures memory { S.memory store.new
        ≡ (if is_ok result
        then with_granules (S.memory store.old) (plain addr) count tag zero
        else S.memory store.old) }
    ensures kept { S.kept store.old store.new }
{
    let access = Access::writing(addr, false);
    let at = plain(addr);
    if addr % 16 != 0 {
        return Err(access.fault(FaultKind::Alignment, at, 0));
    }
    if count > 0 && count <= (4096 - at % 4096) / 16 {
        return store_tags_in_page(store, at, count as usize, tag, zero, &access);
    }
    check_granules(store, at, count, &access)?;
    tag_granules(store, at, count, tag, zero);
    Ok(())
}

impl<S: PageStore> Tagged for S {
    ghost memory = { λ s. S.memory s };

    ghost kept = { λ a b. S.kept a b };

    #[inline(always)]
    fn fetch(&mut self, pc: u64) -> Result<u32, MemFault> {
        fetch_word(self, pc)
    }

    #[inline(always)]
    fn fetch_words(&mut self, pc: u64, words: &mut [u32; 16]) -> bool {
        fetch_words_in_page(self, pc, words)
    }

    #[inline(always)]
    fn read(&mut self, addr: u64, buffer: &mut [u8], check: bool) -> Result<(), MemFault> {
        read_at(self, addr, buffer, check)
    }

    #[inline(always)]
    fn write(&mut self, addr: u64, bytes: &[u8], check: bool) -> Result<(), MemFault> {
        write_at(self, addr, bytes, check)
    }

    #[inline]
    fn has_attrs(&mut self, addr: u64, attrs: Attrs) -> bool {
        page_has_attrs(self, addr, attrs)
    }

    #[inline]
    fn pending(&mut self) -> bool {
        self.tag_state().pending
    }

    #[inline(always)]
    fn load_tag(&mut self, addr: u64) -> Result<u8, MemFault> {
        load_granule_tag(self, addr)
    }

    #[inline(always)]
    fn store_tags(
        &mut self,
        addr: u64,
        granules: u64,
        tag: u8,
        zero: bool,
    ) -> Result<(), MemFault> {
        store_granule_tags(self, addr, granules, tag, zero)
    }

    ghost kept_same = { λ a. S.kept_same a };

    ghost kept_on = { λ a b c p q. S.kept_on a b c p q };
}

impl<S: PageStore> ChunkAccess for S {
    #[inline(always)]
    fn read_chunk(&mut self, user: u64) -> Option<(u64, u8)> {
        read_chunk_in_page(self, user)
    }

    #[inline(always)]
    fn write_chunk(
        &mut self,
        user: u64,
        around: u64,
        count: u64,
        tag: u8,
        bytes: &[u8; 8],
    ) -> bool {
        write_chunk_in_page(self, user, around, count, tag, bytes)
    }
}
