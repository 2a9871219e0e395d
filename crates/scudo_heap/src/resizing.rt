//! Another size for a chunk (Scudo, `combined.h`, `Allocator::reallocate`).

ghost use Rattle.std.specs.Prelude.{◌≡◌, ◌+◌, ◌-◌, ◌%◌, ◌^◌, ◌<◌, ◌≤◌, ℕ, IfSome, nat_le};
ghost use Rattle.mte_tags.specs.Memory.{attrs_at, tag_at};
ghost use Rattle.scudo_heap.specs.Chunks.{block_end, end_of, with_size, after_retag_tail};
ghost use Rattle.scudo_heap.specs.Chunks.{with_header};
ghost use Rattle.scudo_heap.specs.Placing.{world_of};
ghost use Rattle.scudo_heap.specs.Allocation.{allocation_of};
ghost use Rattle.scudo_heap.specs.Realloc.{after_move, realloc_cases};
ghost use Rattle.scudo_heap.specs.Sound.{IsSoundWorld};
ghost use Rattle.scudo_heap.specs.Served.{HasTag};
ghost use Rattle.scudo_heap.specs.Inner.{FitsIn, FitsTagged, IsSize, IsFound, IsLow, HasEnd, IsOpen};
ghost use Rattle.scudo_heap.specs.Inner.Parts.{heap_in};

use crate::allocation::allocate;
use crate::chunk::{Chunk, Found, Place};
use crate::copying::copy_bytes;
use crate::freeing::free_found;
use crate::granules::{put_header, set_tags, tag_there};
use crate::parts::HeapParts;
use crate::placing::close;
use crate::request::Request;
use crate::tagging::granules;
use mte_tags::{Paged, Rgsr, Tagged};
use scudo_header::{Header, MAX_REQUEST, MIN_ALIGNMENT, Origin, size_of_class};

/// Whether a chunk's block holds another size of it.
fn fits(place: Place, size: u64) -> bool
    requires place { FitsIn place }
    requires size { IsSize size }
    ensures { result ≡ nat_le (end_of (with_size place size)) (block_end place) }
{
    place.user - place.block + 16 * granules(size) <= size_of_class(place.class)
}

/// Gives the granules that come to a chunk its tag `tag` and zero bytes, or those that it gives up
/// tag 0.
#[tactic(auto, unfolding(crate::specs::Chunks::after_retag_tail))]
fn refit<M: Paged>(memory: &mut M, place: Place, size: u64, tag: u8)
    requires chunk { FitsTagged place tag }
    requires resized { FitsIn (with_size place size) }
    requires open { IsOpen (M.memory memory.old) place.block (block_end place) }
    requires tag { tag ≡ tag_at (M.memory memory.old) place.user }
    ensures memory { M.memory memory.new ≡ after_retag_tail (M.memory memory.old) place size }
    ensures attrs { (q : ℕ)
        → attrs_at (M.memory memory.new) q ≡ attrs_at (M.memory memory.old) q }
    ensures kept { M.kept memory.old memory.new }
{
    let (before, after) = (granules(place.size), granules(size));
    if before < after {
        set_tags(memory, place.user + 16 * before, after - before, tag, true);
        close(memory, Place { size, ..place });
    } else {
        set_tags(memory, place.user + 16 * after, before - after, 0, false);
    }
}

/// Gives a chunk another size in its block, which holds it, and returns its tag.
fn resize<M: Paged>(cookie: u32, memory: &mut M, place: Place, header: &Header, size: u64) -> u8
    requires place { FitsIn place }
    requires resized { FitsIn (with_size place size) }
    requires open { IsOpen (M.memory memory.old) place.block (block_end place) }
    ensures tag { result ≡ tag_at (M.memory memory.old) place.user }
    ensures tag_small { result < 16 }
    ensures memory { M.memory memory.new
        ≡ with_header (after_retag_tail (M.memory memory.old) place size) cookie place.user
        (record header.now { size_or_unused_bytes = size }) }
    ensures kept { M.kept memory.old memory.new }
{
    let tag = tag_there(memory, place.user);
    refit(memory, place, size, tag);
    let mut resized = *header;
    resized.size_or_unused_bytes = size as u32;
    put_header(memory, cookie, place.user, &resized);
    tag
}

/// Makes a new chunk of another size, copies the bytes there, and frees the old one; nothing
/// changes where no chunk is made.
fn move_chunk<M: Paged>(
    parts: &mut HeapParts,
    rgsr: &mut Rgsr,
    memory: &mut M,
    found: Found,
    size: u64,
) -> Option<Chunk>
    requires drawn { HasTag rgsr.old }
    requires size { IsSize size }
    requires sound { IsSoundWorld
        (world_of (M.memory memory.old) (heap_in parts.old) rgsr.old) }
    requires found { IsFound (heap_in parts.old) found }
    requires end { HasEnd found }
    ensures made { allocation_of
        (world_of (M.memory memory.new) (heap_in parts.new) rgsr.new) result
        ≡ after_move (world_of (M.memory memory.old) (heap_in parts.old) rgsr.old)
        found size }
    ensures low_chunk { IfSome result IsLow }
    ensures tag { HasTag rgsr.new }
    ensures kept { M.kept memory.old memory.new }
{
    let request = Request {
        origin: Origin::Malloc,
        align: MIN_ALIGNMENT,
        size,
    };
    let Some(chunk) = allocate(parts, rgsr, memory, request) else {
        return None;
    };
    let count = found.size().min(size);
    copy_bytes(memory, found.user(), chunk.user(), count);
    free_found(parts, rgsr, memory, found, None);
    Some(chunk)
}

/// Gives a chunk that the checks found another size, or frees it where that is 0. A size over
/// `MAX_REQUEST` changes nothing.
pub(crate) fn reallocate<M: Paged>(
    parts: &mut HeapParts,
    rgsr: &mut Rgsr,
    memory: &mut M,
    found: Found,
    size: u64,
) -> Option<Chunk>
    requires drawn { HasTag rgsr.old }
    requires sound { IsSoundWorld
        (world_of (M.memory memory.old) (heap_in parts.old) rgsr.old) }
    requires found { IsFound (heap_in parts.old) found }
    requires end { HasEnd found }
    ensures made { allocation_of
        (world_of (M.memory memory.new) (heap_in parts.new) rgsr.new) result
        ≡ realloc_cases (world_of (M.memory memory.old)
        (heap_in parts.old) rgsr.old)
        found size }
    ensures low_chunk { IfSome result IsLow }
    ensures tag { HasTag rgsr.new }
    ensures kept { M.kept memory.old memory.new }
{
    if size == 0 {
        free_found(parts, rgsr, memory, found, None);
        return None;
    }
    if size > MAX_REQUEST {
        return None;
    }
    match found {
        Found::InBlock(place, header) if fits(place, size) => {
            let tag = resize(parts.cookie, memory, place, &header, size);
            Some(Chunk::Small(Place { size, ..place }, tag))
        }
        _ => move_chunk(parts, rgsr, memory, found, size),
    }
}
