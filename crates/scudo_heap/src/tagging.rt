//! The tags of chunks of size classes (Scudo, `memtag.h`).

ghost use Rattle.std.specs.Prelude.{◌≡◌, ◌+◌, ◌-◌, ◌*◌, ◌%◌, ◌^◌, ◌<◌, ◌≤◌, ℕ, IfSome};
ghost use Rattle.std.specs.Int.RustNames.{bit_or};
ghost use Rattle.mte_tags.specs.Memory.{attrs_at, pages_left, tag_at};
ghost use Rattle.mte_tags.specs.RandomTags.{after_draw};
ghost use Rattle.scudo_header.specs.Classes.{IsClass};
ghost use Rattle.scudo_heap.specs.Chunks.{granules_of, end_of, parity_mask, excluded_tags};
ghost use Rattle.scudo_heap.specs.Chunks.{with_chunk_tag};
ghost use Rattle.scudo_heap.specs.Served.{HasTag};
ghost use Rattle.scudo_heap.specs.Inner.{IsOpen};

use crate::chunk::Place;
use crate::granules::{set_tags, tag_there};
use mte_tags::{Paged, Rgsr, Tagged};
use scudo_header::size_of_class;

/// How many granules hold `size` bytes.
#[inline(always)]
pub(crate) fn granules(size: u64) -> u64
    requires { size < 2 ^ 32 }
    ensures { result ≡ granules_of size }
{
    (size + 15) / 16
}

/// The tag of a chunk's first granule: `known`, where a look-up has given it.
#[inline(always)]
fn tag_present<M: Paged>(memory: &mut M, place: Place, known: Option<u8>) -> u8
    requires known { IfSome known (λ tag. tag ≡ tag_at (M.memory memory.old) place.user) }
    requires small { IfSome known (λ tag. tag < 16) }
    requires open { IsOpen (M.memory memory.old) place.user (place.user + 1) }
    ensures tag { result ≡ tag_at (M.memory memory.old) place.user }
    ensures small { result < 16 }
    ensures memory { M.memory memory.new ≡ M.memory memory.old }
    ensures kept { M.kept memory.old memory.new }
{
    match known {
        Some(tag) => tag,
        None => tag_there(memory, place.user),
    }
}

/// Draws a tag for a chunk, which may not be 0, one of the other half, or the one that is there,
/// which is `known` where a look-up has given it.
#[tactic(auto, unfolding(crate::specs::Chunks::excluded_tags))]
#[inline(always)]
pub(crate) fn choose_tag<M: Paged>(
    rgsr: &mut Rgsr,
    memory: &mut M,
    place: Place,
    known: Option<u8>,
) -> u8
    requires class { IsClass place.class }
    requires drawn { HasTag rgsr.old }
    requires known { IfSome known (λ tag. tag ≡ tag_at (M.memory memory.old) place.user) }
    requires small { IfSome known (λ tag. tag < 16) }
    requires open { IsOpen (M.memory memory.old) place.user (place.user + 1) }
    ensures tag { result
        ≡ (after_draw rgsr.old (excluded_tags (M.memory memory.old) place)).tag }
    ensures rgsr { rgsr.new ≡ (after_draw rgsr.old
        (excluded_tags (M.memory memory.old) place)).rgsr }
    ensures last { rgsr.new.tag ≡ result }
    ensures below { result < 16 }
    ensures memory { M.memory memory.new ≡ M.memory memory.old }
    ensures kept { M.kept memory.old memory.new }
{
    let present = tag_present(memory, place, known);
    let unit = (size_of_class(place.class) as u32).trailing_zeros();
    let half = (place.block >> unit) % 2;
    let mask: u16 = if half == 0 { 0x5555 } else { 0xAAAA };
    let exclude = 1 | mask | (1 << present);
    rgsr.draw(exclude)
}
