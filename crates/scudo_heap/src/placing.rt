//! A chunk is made in a block of a size class.

ghost use Rattle.std.specs.Prelude.{◌≡◌, ◌+◌, ◌-◌, ◌*◌, ◌/◌, ◌%◌, ◌^◌, ◌<◌, ◌≤◌, ℕ};
ghost use Rattle.std.specs.Int.{to_le_bytes, w64};
ghost use Rattle.mte_tags.specs.Memory.{attrs_at};
ghost use Rattle.mte_tags.specs.Accesses.{with_bytes_at};
ghost use Rattle.mte_tags.specs.RandomTags.{after_draw};
ghost use Rattle.scudo_header.specs.Headers.{FitsInWord};
ghost use Rattle.scudo_heap.specs.Chunks.{end_of, block_end, excluded_tags, with_chunk_tag};
ghost use Rattle.scudo_heap.specs.Chunks.{with_end_tag_0, with_header_tag_0};
ghost use Rattle.scudo_heap.specs.Chunks.{with_header};
ghost use Rattle.scudo_heap.specs.Placing.{new_header};
ghost use Rattle.scudo_heap.specs.Served.{HasTag};
ghost use Rattle.scudo_heap.specs.Inner.{FitsIn, FitsTagged, IsOpen};

use crate::chunk::Place;
use crate::granules::{put_word, set_tags};
use crate::tagging::{choose_tag, granules};
use mte_tags::{ChunkAccess, Paged, Rgsr, Tagged};
use scudo_header::{Header, Origin, State, pack, size_of_class};

/// Tag 0 on the granule after a chunk, where its block goes on.
#[tactic(auto, unfolding(crate::specs::Chunks::with_end_tag_0))]
#[inline(always)]
pub(crate) fn close<M: Paged>(memory: &mut M, place: Place)
    requires place { FitsIn place }
    requires open { IsOpen (M.memory memory.old) place.user (block_end place) }
    ensures memory { M.memory memory.new ≡ with_end_tag_0 (M.memory memory.old) place }
    ensures attrs { (q : ℕ)
        → attrs_at (M.memory memory.new) q ≡ attrs_at (M.memory memory.old) q }
    ensures kept { M.kept memory.old memory.new }
{
    let end = place.user + 16 * granules(place.size);
    if end < place.block + size_of_class(place.class) {
        set_tags(memory, end, 1, 0, false);
    }
}

/// Tag 0 on the granule of a chunk's header.
#[tactic(auto, unfolding(crate::specs::Chunks::with_header_tag_0))]
#[inline(always)]
fn open<M: Paged>(memory: &mut M, place: Place)
    requires place { FitsIn place }
    requires open { IsOpen (M.memory memory.old) (place.user - 16) place.user }
    ensures memory { M.memory memory.new ≡ with_header_tag_0 (M.memory memory.old) place }
    ensures attrs { (q : ℕ)
        → attrs_at (M.memory memory.new) q ≡ attrs_at (M.memory memory.old) q }
    ensures kept { M.kept memory.old memory.new }
{
    set_tags(memory, place.user - 16, 1, 0, false);
}

/// Gives a chunk's granules a tag and zero bytes, and tag 0 to the granule of its header and to the
/// one after the chunk, where its block goes on.
#[tactic(auto, unfolding(crate::specs::Chunks::with_chunk_tag))]
#[inline(always)]
fn tag_by_three_runs<M: Paged>(memory: &mut M, place: Place, tag: u8)
    requires chunk { FitsTagged place tag }
    requires open { IsOpen (M.memory memory.old) place.block (block_end place) }
    ensures memory { M.memory memory.new
        ≡ with_end_tag_0 (with_header_tag_0
        (with_chunk_tag (M.memory memory.old) place tag) place) place }
    ensures attrs { (q : ℕ)
        → attrs_at (M.memory memory.new) q ≡ attrs_at (M.memory memory.old) q }
    ensures kept { M.kept memory.old memory.new }
{
    set_tags(memory, place.user, granules(place.size), tag, true);
    open(memory, place);
    close(memory, place);
}

/// Slow path of `write_around`: two pages hold the chunk. Apart, with the word of its header, so
/// that the fast path stays short.
#[inline(never)]
fn write_apart<M: Paged>(memory: &mut M, place: Place, tag: u8, word: u64)
    requires chunk { FitsTagged place tag }
    requires open { IsOpen (M.memory memory.old) place.block (block_end place) }
    ensures memory { M.memory memory.new
        ≡ with_bytes_at
        (with_end_tag_0 (with_header_tag_0
        (with_chunk_tag (M.memory memory.old) place tag) place) place)
        (place.user - 16) (to_le_bytes w64 word) }
    ensures kept { M.kept memory.old memory.new }
{
    tag_by_three_runs(memory, place, tag);
    put_word(memory, place.user, word);
}

/// Writes tags and the chunk's header with one look-up where one page holds all of it: the chunk's
/// tag goes over a run of tag 0.
#[tactic(auto, unfolding(crate::specs::Chunks::with_header))]
#[inline(always)]
fn write_around<M: Paged>(memory: &mut M, cookie: u32, place: Place, tag: u8, header: &Header)
    requires chunk { FitsTagged place tag }
    requires fields { FitsInWord header.now }
    requires open { IsOpen (M.memory memory.old) place.block (block_end place) }
    ensures memory { M.memory memory.new
        ≡ with_header
        (with_end_tag_0 (with_header_tag_0
        (with_chunk_tag (M.memory memory.old) place tag) place) place)
        cookie place.user header.now }
    ensures kept { M.kept memory.old memory.new }
{
    let count = granules(place.size);
    let end = place.user + 16 * count;
    let behind = if end < place.block + size_of_class(place.class) {
        1
    } else {
        0
    };
    let word = pack(cookie, place.user, header);
    let bytes = word.to_le_bytes();
    if memory.write_chunk(place.user, 1 + count + behind, count, tag, &bytes) {
        return;
    }
    // A copy of the place goes to memory here alone.
    let Place {
        class,
        block,
        user,
        size,
    } = place;
    let apart = Place {
        class,
        block,
        user,
        size,
    };
    write_apart(memory, apart, tag, word);
}

/// Makes a chunk in its block, and returns its tag.
#[inline(always)]
pub(crate) fn make_chunk<M: Paged>(
    cookie: u32,
    rgsr: &mut Rgsr,
    memory: &mut M,
    origin: Origin,
    place: Place,
) -> u8
    requires drawn { HasTag rgsr.old }
    requires place { FitsIn place }
    requires open { IsOpen (M.memory memory.old) place.block (block_end place) }
    ensures tag { result
        ≡ (after_draw rgsr.old (excluded_tags (M.memory memory.old) place)).rgsr.tag }
    ensures rgsr { rgsr.new ≡ (after_draw rgsr.old
        (excluded_tags (M.memory memory.old) place)).rgsr }
    ensures below { HasTag rgsr.new }
    ensures small { result < 16 }
    ensures memory { M.memory memory.new
        ≡ with_header
        (with_end_tag_0
        (with_header_tag_0
        (with_chunk_tag (M.memory memory.old) place
        (after_draw rgsr.old (excluded_tags (M.memory memory.old) place)).tag) place) place)
        cookie place.user (new_header origin place) }
    ensures kept { M.kept memory.old memory.new }
{
    let tag = choose_tag(rgsr, memory, place, None);
    let header = Header {
        class_id: place.class,
        state: State::Allocated,
        origin,
        // In 20 bits, so that the compiler sees that the upper half of the word is the offset.
        size_or_unused_bytes: (place.size % (1 << 20)) as u32,
        offset: ((place.user as u32 - place.block as u32 - 16) / 16) as u16,
    };
    write_around(memory, cookie, place, tag, &header);
    tag
}
