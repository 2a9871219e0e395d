//! The exports that access a memory's bytes and tags.

ghost use Rattle.std.specs.Prelude.{◌≡◌, ◌<◌, ◌==◌, length, if◌then◌else◌, is_none};
ghost use Rattle.std.specs.Prelude.{nat_lt};
ghost use Rattle.a64_bits.specs.Addresses.{plain};
ghost use Rattle.mte_tags.specs.Memory.{tag_at, with_granules};
ghost use Rattle.mte_tags.specs.Accesses.{read_fault, read_bytes, after_read, write_fault};
ghost use Rattle.mte_tags.specs.Accesses.{after_write, tags_fault, tag_load_fault, with_bytes_at};
ghost use Rattle.tombolopan_c.specs.LentPages.{lent_memory, state_of};
ghost use Rattle.tombolopan_c.specs.Faults.{fault_code, fault_report, no_fault};
ghost use Rattle.tombolopan_c.specs.MemoryCodes.{tags_code};
ghost use Rattle.tombolopan_c.specs.MemoryCodes.{tags_report, load_code};
ghost use Rattle.tombolopan_c.specs.declared.codes.TheConstants.{OK};

use crate::codes::{BAD_ARGUMENT, NOT_MAPPED, OK};
use crate::faults::{FaultReport, report};
use crate::find::are_mapped;
use crate::lent::{Lent, LentTagState};
use crate::lent_page::LentPage;
use a64_bits::plain;
use mte_tags::{Tagged, replace_bytes};

/// Copies bytes out of pages with READ, and compares tags where `check` is set. FAULT leaves the
/// buffer and the memory as they were.
#[unsafe(no_mangle)]
pub extern "C" fn tb_read(
    pages: &mut [LentPage],
    state: &mut LentTagState,
    addr: u64,
    buffer: &mut [u8],
    check: bool,
    fault: &mut FaultReport,
) -> u32
    ensures code { result
        ≡ fault_code
        (read_fault (lent_memory (state_of state.old) pages.old) addr (length buffer.old) check) }
    ensures fault { fault.new
        ≡ fault_report
        (read_fault (lent_memory (state_of state.old) pages.old) addr (length buffer.old) check) }
    ensures bytes { buffer.new
        ≡ (if result == OK
        then read_bytes (lent_memory (state_of state.old) pages.old) addr (length buffer.old)
        else buffer.old) }
    ensures memory { lent_memory (state_of state.new) pages.new
        ≡ (if result == OK
        then after_read (lent_memory (state_of state.old) pages.old) addr (length buffer.old) check
        else lent_memory (state_of state.old) pages.old) }
{
    let mut memory = Lent::new(pages, state);
    let answer = memory.read(addr, buffer, check);
    report(answer, fault)
}

/// Copies bytes into pages with WRITE, all of them or none, and compares tags where `check` is set.
/// FAULT leaves the memory as it was.
#[unsafe(no_mangle)]
pub extern "C" fn tb_write(
    pages: &mut [LentPage],
    state: &mut LentTagState,
    addr: u64,
    bytes: &[u8],
    check: bool,
    fault: &mut FaultReport,
) -> u32
    ensures code { result
        ≡ fault_code
        (write_fault (lent_memory (state_of state.old) pages.old) addr (length bytes.now) check) }
    ensures fault { fault.new
        ≡ fault_report
        (write_fault (lent_memory (state_of state.old) pages.old) addr (length bytes.now) check) }
    ensures memory { lent_memory (state_of state.new) pages.new
        ≡ (if result == OK
        then after_write (lent_memory (state_of state.old) pages.old) addr bytes.now check
        else lent_memory (state_of state.old) pages.old) }
{
    let mut memory = Lent::new(pages, state);
    let answer = memory.write(addr, bytes, check);
    report(answer, fault)
}

/// Copies bytes into mapped pages, whatever their attributes and tags, all of them or none.
/// NOT_MAPPED, where a byte's page is not mapped, leaves the memory as it was.
#[tactic(auto, unfolding(mte_tags::specs::Accesses::with_bytes_at))]
#[unsafe(no_mangle)]
pub extern "C" fn tb_load(
    pages: &mut [LentPage],
    state: &mut LentTagState,
    addr: u64,
    bytes: &[u8],
) -> u32
    ensures code { result
        ≡ load_code (lent_memory (state_of state.old) pages.old) addr (length bytes.now) }
    ensures memory { lent_memory (state_of state.new) pages.new
        ≡ (if result == OK
        then with_bytes_at (lent_memory (state_of state.old) pages.old) addr bytes.now
        else lent_memory (state_of state.old) pages.old) }
{
    let at = plain(addr);
    if !are_mapped(pages, at, bytes.len()) {
        return NOT_MAPPED;
    }
    let mut memory = Lent::new(pages, state);
    replace_bytes(&mut memory, at, bytes);
    OK
}

/// The allocation tag of the granule that holds an address, 0 on a page without TAGGED. It needs
/// READ and compares no tag. FAULT leaves `tag` as it was.
#[unsafe(no_mangle)]
pub extern "C" fn tb_load_tag(
    pages: &mut [LentPage],
    state: &mut LentTagState,
    addr: u64,
    tag: &mut u8,
    fault: &mut FaultReport,
) -> u32
    ensures code { result
        ≡ fault_code (tag_load_fault (lent_memory (state_of state.old) pages.old) addr) }
    ensures fault { fault.new
        ≡ fault_report (tag_load_fault (lent_memory (state_of state.old) pages.old) addr) }
    ensures tag { tag.new
        ≡ (if result == OK
        then tag_at (lent_memory (state_of state.old) pages.old) (plain addr)
        else tag.old) }
    ensures memory { lent_memory (state_of state.new) pages.new
        ≡ lent_memory (state_of state.old) pages.old }
{
    let mut memory = Lent::new(pages, state);
    match memory.load_tag(addr) {
        Ok(loaded) => {
            *tag = loaded;
            report(Ok(()), fault)
        }
        Err(found) => report(Err(found), fault),
    }
}

/// A store of tags.
#[repr(C)]
#[derive(Clone, Copy)]
pub struct TagStore {
    /// The address of the first granule, a multiple of 16.
    pub addr: u64,
    /// How many granules get the tag.
    pub granules: u64,
    /// The tag, 0 to 15.
    pub tag: u32,
    /// Any number but 0: their bytes become zero.
    pub zero: u32,
}

/// Replaces the tags of consecutive granules of pages with WRITE, all of them or none, and makes
/// their bytes zero where `store.zero` is not 0. It compares no tag. BAD_ARGUMENT where `store.tag`
/// is above 15; that and FAULT leave the memory as it was.
#[unsafe(no_mangle)]
pub extern "C" fn tb_store_tags(
    pages: &mut [LentPage],
    state: &mut LentTagState,
    store: &TagStore,
    fault: &mut FaultReport,
) -> u32
    ensures code { result
        ≡ tags_code store.now.tag
        (tags_fault (lent_memory (state_of state.old) pages.old)
        store.now.addr store.now.granules) }
    ensures fault { fault.new
        ≡ tags_report store.now.tag
        (tags_fault (lent_memory (state_of state.old) pages.old)
        store.now.addr store.now.granules) }
    ensures memory { lent_memory (state_of state.new) pages.new
        ≡ (if result == OK
        then with_granules (lent_memory (state_of state.old) pages.old) (plain store.now.addr)
        store.now.granules store.now.tag (nat_lt 0 store.now.zero)
        else lent_memory (state_of state.old) pages.old) }
{
    if store.tag > 15 {
        *fault = FaultReport::none();
        return BAD_ARGUMENT;
    }
    let mut memory = Lent::new(pages, state);
    let answer = memory.store_tags(store.addr, store.granules, store.tag as u8, 0 < store.zero);
    report(answer, fault)
}
