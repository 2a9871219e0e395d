//! The heap after a chunk is freed.

ghost use Rattle.std.specs.Prelude.{◌≡◌, ◌-◌, ◌<◌, ◌≤◌, ◌/◌, ◌%◌, ◌^◌, ◌+◌, ◌*◌, ℕ};
ghost use Rattle.std.specs.Prelude.{Some, IfSome, true};
ghost use Rattle.std.specs.Int.{to_le_bytes, w64};
ghost use Rattle.mte_tags.specs.Memory.{attrs_at, tag_at, with_granules, without_pages};
ghost use Rattle.mte_tags.specs.Accesses.{with_bytes_at};
ghost use Rattle.mte_tags.specs.RandomTags.{after_draw};
ghost use Rattle.scudo_header.specs.Headers.{FitsInWord};
ghost use Rattle.scudo_header.specs.declared.headers.State.TheVariants.{Available};
ghost use Rattle.scudo_secondary.specs.Mappings as secondary;
ghost use Rattle.scudo_heap.specs.Stacks.{after_push};
ghost use Rattle.scudo_heap.specs.Heaps.{with_less};
ghost use Rattle.scudo_heap.specs.Chunks.{end_of, block_end, excluded_tags, with_chunk_tag};
ghost use Rattle.scudo_heap.specs.Chunks.{with_header};
ghost use Rattle.scudo_heap.specs.Placing.{world_of};
ghost use Rattle.scudo_heap.specs.Freeing.{without_chunk};
ghost use Rattle.scudo_heap.specs.Realloc.{user_of};
ghost use Rattle.scudo_heap.specs.Served.{HeapOwnsItsPages, HasTag};
ghost use Rattle.scudo_heap.specs.Inner.{FitsTagged, IsBehindGranule, IsFound, IsFoundBlock, IsOpen};
ghost use Rattle.scudo_heap.specs.Inner.Parts.{heap_in};

use crate::chunk::{Found, Place};
use crate::granules::{put_word, set_tags};
use crate::parts::HeapParts;
use crate::stacks::Stacks;
use crate::tagging::{choose_tag, granules};
use common::PAGE_SIZE;
use mte_tags::{ChunkAccess, Paged, Rgsr, Tagged};
use scudo_header::{Header, State, pack};
use scudo_secondary::{Mapping, Secondary};

/// Slow path of `write_freed`: two pages hold the chunk. Apart, with the word of its header, so
/// that the fast path stays short.
#[inline(never)]
fn write_freed_apart<M: Paged>(memory: &mut M, user: u64, count: u64, tag: u8, word: u64)
    requires aligned { user % 16 ≡ 0 }
    requires above { IsBehindGranule user }
    requires tag { tag < 16 }
    requires open { IsOpen (M.memory memory.old) (user - 16) (user + 16 * count) }
    ensures memory { M.memory memory.new
        ≡ with_bytes_at (with_granules (M.memory memory.old) user count tag true)
        (user - 16) (to_le_bytes w64 word) }
    ensures kept { M.kept memory.old memory.new }
{
    set_tags(memory, user, count, tag, true);
    put_word(memory, user, word);
}

/// Gives the granules of a chunk a tag and zero bytes, and writes its header, with one look-up
/// where one page holds all of it.
#[tactic(auto, unfolding(crate::specs::Chunks::with_chunk_tag, crate::specs::Chunks::with_header))]
#[inline(always)]
fn write_freed<M: Paged>(memory: &mut M, cookie: u32, place: Place, tag: u8, header: &Header)
    requires chunk { FitsTagged place tag }
    requires fields { FitsInWord header.now }
    requires size { header.now.size_or_unused_bytes ≡ place.size }
    requires open { IsOpen (M.memory memory.old) (place.user - 16) (end_of place) }
    ensures memory { M.memory memory.new
        ≡ with_header (with_chunk_tag
        (M.memory memory.old) place tag) cookie place.user header.now }
    ensures kept { M.kept memory.old memory.new }
{
    // As the header has it, and in 32 bits: nothing is put together from the parts of a `Found`,
    // and the compiler sees that the upper half of the address is 0.
    let count = granules(u64::from(header.size_or_unused_bytes));
    let word = pack(cookie, u64::from(place.user as u32), header);
    let bytes = word.to_le_bytes();
    if memory.write_chunk(place.user, 0, count, tag, &bytes) {
        return;
    }
    write_freed_apart(memory, place.user, count, tag, word);
}

/// Gives the granules of a chunk another tag, marks its header, and puts its block back.
#[inline(always)]
fn free_block<M: Paged>(
    cookie: u32,
    stacks: &mut Stacks,
    memory: &mut M,
    place: Place,
    header: &Header,
    tag: u8,
)
    requires found { IsFoundBlock stacks.old place header.now }
    requires open { IsOpen (M.memory memory.old) place.block (block_end place) }
    requires tag { tag < 16 }
    ensures memory { M.memory memory.new
        ≡ with_header (with_chunk_tag (M.memory memory.old) place tag)
        cookie place.user (record header.now { state = Available }) }
    ensures stacks { stacks.new ≡ after_push stacks.old place.class place.block }
    ensures kept { M.kept memory.old memory.new }
{
    let mut freed = *header;
    freed.state = State::Available;
    write_freed(memory, cookie, place, tag, &freed);
    stacks.put(place.class, place.block);
}

/// Takes the mapping of a chunk away, and unmaps its pages.
#[inline(never)]
fn free_pages<M: Paged>(maps: &mut Secondary, memory: &mut M, mapping: Mapping)
    requires there { Some mapping ≡ secondary.mapping_of maps.old.mappings mapping.user }
    requires open { secondary.AreMappings maps.old.mappings
        → IsOpen (M.memory memory.old) mapping.start (secondary.end_of mapping) }
    ensures memory { M.memory memory.new
        ≡ without_pages (M.memory memory.old) (mapping.start / PAGE_SIZE) mapping.pages }
    ensures maps { maps.new ≡ with_less maps.old mapping }
    ensures mappings { secondary.AreMappings maps.old.mappings }
    ensures kept { M.kept memory.old memory.new }
{
    maps.remove(mapping.user);
    memory.unmap_pages(mapping.start / PAGE_SIZE, mapping.pages as usize);
}

/// Frees a chunk that the checks found. Its first granule has the tag `known`, where a look-up has
/// given it.
#[tactic(auto, unfolding(crate::specs::Freeing::without_chunk))]
#[inline(always)]
pub(crate) fn free_found<M: Paged>(
    parts: &mut HeapParts,
    rgsr: &mut Rgsr,
    memory: &mut M,
    found: Found,
    known: Option<u8>,
)
    requires drawn { HasTag rgsr.old }
    requires served { HeapOwnsItsPages (M.memory memory.old) (heap_in parts.old) }
    requires found { IsFound (heap_in parts.old) found }
    requires known { IsOpen (M.memory memory.old) (user_of found) (user_of found + 1)
        → IfSome known (λ tag. tag ≡ tag_at (M.memory memory.old) (user_of found)) }
    requires small { IfSome known (λ tag. tag < 16) }
    ensures world { world_of (M.memory memory.new) (heap_in parts.new) rgsr.new
        ≡ without_chunk
        (world_of (M.memory memory.old) (heap_in parts.old) rgsr.old)
        found }
    ensures tag { HasTag rgsr.new }
    ensures kept { M.kept memory.old memory.new }
{
    match found {
        Found::InBlock(place, header) => {
            // Read before the draw, over which the sum of cookie and address then stays.
            let cookie = parts.cookie;
            let tag = choose_tag(rgsr, memory, place, known);
            free_block(cookie, &mut parts.stacks, memory, place, &header, tag);
        }
        Found::InPages(mapping, _) => free_pages(&mut parts.maps, memory, mapping),
    }
}
