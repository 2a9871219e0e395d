//! The exports that map and unmap pages.

ghost use Rattle.std.specs.Prelude.{◌≡◌, ◌≢◌, ◌==◌, length, if◌then◌else◌};
ghost use Rattle.mte_tags.specs.Memory.{no_pages, with_page, without_page, new_page};
ghost use Rattle.mte_tags.specs.declared.state.TagState.{TagState};
ghost use Rattle.tombolopan_c.specs.LentPages.{lent_memory, state_of, has_room, mode_for};
ghost use Rattle.tombolopan_c.specs.MemoryCodes.{map_code, unmap_code};
ghost use Rattle.tombolopan_c.specs.declared.codes.TheConstants.{OK};

use crate::codes::{ALREADY_MAPPED, BAD_ARGUMENT, NO_ROOM, NOT_MAPPED, OK, PAGES, VERSION};
use crate::find::{find_free, is_mapped};
use crate::lent::LentTagState;
use crate::lent_page::LentPage;

/// The version of the layouts and calls, 2.
#[unsafe(no_mangle)]
pub extern "C" fn tb_version() -> u32
    ensures { result ≡ 2 }
{
    VERSION
}

/// Makes each place free, sets the tag mode and clears the flag: a memory without pages.
#[unsafe(no_mangle)]
pub extern "C" fn tb_memory_init(
    pages: &mut [LentPage],
    state: &mut LentTagState,
    asynchronous: bool,
)
    ensures { lent_memory (state_of state.new) pages.new
        ≡ no_pages (length pages.old) (mode_for asynchronous) }
{
    state.asynchronous = u32::from(asynchronous);
    state.pending = 0;
    for page in pages.iter_mut() {
        page.mapped = 0;
    }
}

/// Maps a page of zero bytes and tag 0 in a free place. BAD_ARGUMENT where the number is not below
/// 2^44 or `attrs` above 15; ALREADY_MAPPED; NO_ROOM. Each of these changes nothing.
#[unsafe(no_mangle)]
pub extern "C" fn tb_map(pages: &mut [LentPage], number: u64, attrs: u32) -> u32
    ensures code { (s : TagState)
        → result ≡ map_code (lent_memory s pages.old) (has_room pages.old) number attrs }
    ensures memory { (s : TagState)
        → lent_memory s pages.new
        ≡ (if result == OK
        then with_page (lent_memory s pages.old) number (new_page attrs)
        else lent_memory s pages.old) }
    ensures same { result ≢ OK → pages.new ≡ pages.old }
{
    if number >= PAGES || attrs > 15 {
        return BAD_ARGUMENT;
    }
    if is_mapped(pages, number) {
        return ALREADY_MAPPED;
    }
    let Some(i) = find_free(pages) else {
        return NO_ROOM;
    };
    pages[i].fill_new(number, attrs);
    OK
}

/// Unmaps a page: each of its places becomes free. NOT_MAPPED changes nothing.
#[unsafe(no_mangle)]
pub extern "C" fn tb_unmap(pages: &mut [LentPage], number: u64) -> u32
    ensures code { (s : TagState) → result ≡ unmap_code (lent_memory s pages.old) number }
    ensures memory { (s : TagState)
        → lent_memory s pages.new
        ≡ (if result == OK
        then without_page (lent_memory s pages.old) number
        else lent_memory s pages.old) }
    ensures same { result ≢ OK → pages.new ≡ pages.old }
{
    if !is_mapped(pages, number) {
        return NOT_MAPPED;
    }
    for page in pages.iter_mut() {
        if page.is_of(number) {
            page.mapped = 0;
        }
    }
    OK
}
