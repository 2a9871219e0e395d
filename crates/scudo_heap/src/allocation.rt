//! Allocation (Scudo, `combined.h`, `Allocator::allocate`).

ghost use Rattle.std.specs.Prelude.{◌≡◌, ◌+◌, ◌*◌, ◌<◌, ◌≤◌, ◌^◌, IfSome, IsNone, Some};
ghost use Rattle.scudo_header.specs.Classes.{class_for};
ghost use Rattle.scudo_heap.specs.Chunks.{granules_of};
ghost use Rattle.scudo_heap.specs.Placing.{world_of, pages_for};
ghost use Rattle.scudo_heap.specs.Allocation.{allocation_of, allocate_cases, need_of, nonzero_size};
ghost use Rattle.scudo_heap.specs.Allocation.{after_allocate, answer_of};
ghost use Rattle.scudo_heap.specs.Allocation.{is_alignment};
ghost use Rattle.scudo_heap.specs.Served.{HeapOwnsItsPages, HasTag};
ghost use Rattle.scudo_heap.specs.Inner.{IsAlign, IsRequest, IsLow};
ghost use Rattle.scudo_heap.specs.Inner.Parts.{heap_in};

use crate::chunk::{Chunk, address_or_null, by_fields};
use crate::classes::{take_block, take_top};
use crate::pages::take_pages;
use crate::parts::HeapParts;
use crate::request::Request;
use mte_tags::{Paged, Rgsr};
use scudo_header::{MAX_ALIGNMENT, MAX_REQUEST, Origin, class_of};

/// Whether an alignment is a power of two up to `MAX_ALIGNMENT`.
pub(crate) fn is_power(alignment: u64) -> bool
    ensures { result ≡ is_alignment alignment }
{
    alignment <= MAX_ALIGNMENT && alignment.is_power_of_two()
}

/// A chunk of some bytes: in a block of the least class that holds them, else with pages of its
/// own.
#[inline(always)]
fn make_some<M: Paged>(
    parts: &mut HeapParts,
    rgsr: &mut Rgsr,
    memory: &mut M,
    request: Request,
) -> Option<Chunk>
    requires drawn { HasTag rgsr.old }
    requires request { IsRequest request }
    requires served { HeapOwnsItsPages (M.memory memory.old) (heap_in parts.old) }
    ensures made { allocation_of
        (world_of (M.memory memory.new) (heap_in parts.new) rgsr.new) result
        ≡ allocate_cases (world_of (M.memory memory.old)
        (heap_in parts.old) rgsr.old)
        request.origin request.align request.size (class_for (need_of request.align request.size)) }
    ensures low_chunk { IfSome result IsLow }
    ensures tag { HasTag rgsr.new }
    ensures kept { M.kept memory.old memory.new }
{
    match class_of(request.need()) {
        Some(class) => take_block(
            parts.cookie,
            &mut parts.stacks,
            rgsr,
            memory,
            request,
            class,
        ),
        None => {
            let chunk = take_pages(parts.cookie, &mut parts.maps, memory, request);
            by_fields(chunk)
        }
    }
}

/// A chunk of some bytes in a block that is free; where there is none, nothing changes.
#[inline(always)]
fn make_in_free_block<M: Paged>(
    parts: &mut HeapParts,
    rgsr: &mut Rgsr,
    memory: &mut M,
    request: Request,
) -> Option<Chunk>
    requires drawn { HasTag rgsr.old }
    requires request { IsRequest request }
    requires served { HeapOwnsItsPages (M.memory memory.old) (heap_in parts.old) }
    ensures made { IfSome result (λ chunk. allocation_of
        (world_of (M.memory memory.new) (heap_in parts.new) rgsr.new) (Some chunk)
        ≡ allocate_cases (world_of (M.memory memory.old) (heap_in parts.old) rgsr.old)
        request.origin request.align request.size
        (class_for (need_of request.align request.size))) }
    ensures none { IsNone result
        → world_of (M.memory memory.new) (heap_in parts.new) rgsr.new
        ≡ world_of (M.memory memory.old) (heap_in parts.old) rgsr.old }
    ensures low_chunk { IfSome result IsLow }
    ensures tag { HasTag rgsr.new }
    ensures kept { M.kept memory.old memory.new }
{
    let Some(class) = class_of(request.need()) else {
        return None;
    };
    let cookie = parts.cookie;
    match take_top(cookie, &mut parts.stacks, rgsr, memory, request, class) {
        Some(chunk) => Some(chunk),
        None => None,
    }
}

/// The address of a chunk of the requested bytes, or of one byte if none is requested; 0 where none
/// is made.
#[inline(always)]
pub(crate) fn allocate_address<M: Paged>(
    parts: &mut HeapParts,
    rgsr: &mut Rgsr,
    memory: &mut M,
    request: Request,
) -> u64
    requires drawn { HasTag rgsr.old }
    requires align { IsAlign request.align }
    requires served { HeapOwnsItsPages (M.memory memory.old) (heap_in parts.old) }
    ensures answer { result
        ≡ answer_of (after_allocate (world_of (M.memory memory.old) (heap_in parts.old) rgsr.old)
        request.origin request.align request.size).chunk }
    ensures world { world_of (M.memory memory.new) (heap_in parts.new) rgsr.new
        ≡ (after_allocate (world_of (M.memory memory.old) (heap_in parts.old) rgsr.old)
        request.origin request.align request.size).world }
    ensures tag { HasTag rgsr.new }
    ensures kept { M.kept memory.old memory.new }
{
    if request.size > MAX_REQUEST {
        return 0;
    }
    let size = if request.size == 0 { 1 } else { request.size };
    let some = Request { size, ..request };
    match make_in_free_block(parts, rgsr, memory, some) {
        Some(chunk) => chunk.address(),
        None => allocate_apart(
            parts,
            rgsr,
            memory,
            request.origin,
            request.align,
            request.size,
        ),
    }
}

/// Slow path of `allocate_address`, in which the chunk is in memory.
#[inline(never)]
fn allocate_apart<M: Paged>(
    parts: &mut HeapParts,
    rgsr: &mut Rgsr,
    memory: &mut M,
    origin: Origin,
    align: u64,
    size: u64,
) -> u64
    requires drawn { HasTag rgsr.old }
    requires align { IsAlign align }
    requires served { HeapOwnsItsPages (M.memory memory.old) (heap_in parts.old) }
    ensures answer { result
        ≡ answer_of (after_allocate (world_of (M.memory memory.old) (heap_in parts.old) rgsr.old)
        origin align size).chunk }
    ensures world { world_of (M.memory memory.new) (heap_in parts.new) rgsr.new
        ≡ (after_allocate (world_of (M.memory memory.old) (heap_in parts.old) rgsr.old)
        origin align size).world }
    ensures tag { HasTag rgsr.new }
    ensures kept { M.kept memory.old memory.new }
{
    let request = Request {
        origin,
        align,
        size,
    };
    let chunk = allocate(parts, rgsr, memory, request);
    address_or_null(&chunk)
}

/// A chunk of the requested bytes, or of one byte if none is requested.
#[tactic(auto, unfolding(crate::specs::Allocation::after_allocate))]
#[inline(always)]
pub(crate) fn allocate<M: Paged>(
    parts: &mut HeapParts,
    rgsr: &mut Rgsr,
    memory: &mut M,
    request: Request,
) -> Option<Chunk>
    requires drawn { HasTag rgsr.old }
    requires align { IsAlign request.align }
    requires served { HeapOwnsItsPages (M.memory memory.old) (heap_in parts.old) }
    ensures made { allocation_of
        (world_of (M.memory memory.new) (heap_in parts.new) rgsr.new) result
        ≡ after_allocate (world_of (M.memory memory.old)
        (heap_in parts.old) rgsr.old)
        request.origin request.align request.size }
    ensures low_chunk { IfSome result IsLow }
    ensures tag { HasTag rgsr.new }
    ensures kept { M.kept memory.old memory.new }
{
    if request.size > MAX_REQUEST {
        return None;
    }
    let size = if request.size == 0 { 1 } else { request.size };
    let some = Request { size, ..request };
    make_some(parts, rgsr, memory, some)
}
