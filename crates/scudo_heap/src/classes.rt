//! Allocation in the size classes.

ghost use Rattle.std.specs.Prelude.{◌≡◌, ◌≢◌, ◌+◌, ◌-◌, ◌*◌, ◌/◌, ◌%◌, ◌<◌, ◌≤◌, ◌^◌, []};
ghost use Rattle.std.specs.Prelude.{nat_le, IsNone};
ghost use Rattle.std.specs.Prelude.{IfSome, IsTrue};
ghost use Rattle.std.specs.Prelude.{if◌then◌else◌};
ghost use Rattle.mte_tags.specs.Memory.{pages_left, with_new_pages};
ghost use Rattle.scudo_header.specs.Classes.{IsClass};
ghost use Rattle.scudo_header.specs.Regions.{region_of};
ghost use Rattle.scudo_secondary.specs.Mappings.{SecondaryState};
ghost use Rattle.scudo_heap.specs.Stacks.{stack_of, after_carve};
ghost use Rattle.scudo_heap.specs.Heaps.{heap_of};
ghost use Rattle.scudo_heap.specs.Placing.{world_of, more_pages, next_page, heap_attrs};
ghost use Rattle.scudo_heap.specs.Allocation.{allocation_of, place_in, after_take};
ghost use Rattle.scudo_heap.specs.Allocation.{after_class_allocation};
ghost use Rattle.scudo_heap.specs.Served.{HasTag};
ghost use Rattle.scudo_heap.specs.Inner.{IsAlign, IsLow, AreRegions, FitsClass};

use crate::chunk::{Chunk, Place, by_fields};
use crate::placing::make_chunk;
use crate::request::Request;
use crate::stacks::Stacks;
use common::PAGE_SIZE;
use mte_tags::{Attrs, Paged, Rgsr, Tagged};
use scudo_header::{MIN_ALIGNMENT, region_start, size_of_class};

/// Where a chunk is in a block: after the header, at the first multiple of the alignment. Most
/// chunks are aligned to a granule, as blocks are; in 32 bits the compiler sees that the upper half
/// of the address is 0.
#[inline(always)]
fn place(class: u8, block: u64, align: u64, size: u64) -> Place
    requires block { block < 2 ^ 31 }
    requires granule { block % 16 ≡ 0 }
    requires align { IsAlign align }
    ensures { result ≡ place_in class block align size }
{
    let user = if align == MIN_ALIGNMENT {
        u64::from(block as u32 + 16)
    } else {
        (block + 16 + (align - 1)) / align * align
    };
    Place {
        class,
        block,
        user,
        size,
    }
}

/// Makes a chunk in the top of a class's stack, where there is one.
#[inline(always)]
pub(crate) fn take_top<M: Paged>(
    cookie: u32,
    stacks: &mut Stacks,
    rgsr: &mut Rgsr,
    memory: &mut M,
    request: Request,
    class: u8,
) -> Option<Chunk>
    requires drawn { HasTag rgsr.old }
    requires request { FitsClass class request }
    requires regions { AreRegions (M.memory memory.old) stacks.old }
    ensures made { (ms : SecondaryState)
        → allocation_of (world_of (M.memory memory.new)
        (heap_of cookie stacks.new ms) rgsr.new) result
        ≡ after_take (world_of (M.memory memory.old) (heap_of cookie stacks.old ms) rgsr.old)
        (world_of (M.memory memory.old) (heap_of cookie stacks.old ms) rgsr.old)
        request.origin request.align request.size class (stack_of stacks.old class) }
    ensures empty { IsNone result → stack_of stacks.old class ≡ [] }
    ensures stacks { IsNone result → stacks.new ≡ stacks.old }
    ensures memory { IsNone result → M.memory memory.new ≡ M.memory memory.old }
    ensures rgsr { IsNone result → rgsr.new ≡ rgsr.old }
    ensures low_chunk { IfSome result IsLow }
    ensures tag { HasTag rgsr.new }
    ensures kept { M.kept memory.old memory.new }
{
    match stacks.take(class) {
        None => None,
        Some(block) => {
            let place = place(class, block, request.align, request.size);
            let tag = make_chunk(cookie, rgsr, memory, request.origin, place);
            Some(Chunk::Small(place, tag))
        }
    }
}

/// Gives a class without free blocks the pages of one block, if they are left.
fn grow<M: Paged>(stacks: &mut Stacks, memory: &mut M, class: u8) -> bool
    requires class { IsClass class }
    requires empty { stack_of stacks.old class ≡ [] }
    requires regions { AreRegions (M.memory memory.old) stacks.old }
    ensures answer { result ≡ nat_le (more_pages class) (pages_left (M.memory memory.old)) }
    ensures memory { M.memory memory.new
        ≡ (if result
        then with_new_pages (M.memory memory.old) (next_page stacks.old class) (more_pages class)
        heap_attrs
        else M.memory memory.old) }
    ensures stacks { stacks.new
        ≡ (if result then after_carve stacks.old class (more_pages class) else stacks.old) }
    ensures some { IsTrue result → stack_of stacks.new class ≢ [] }
    ensures regions { AreRegions (M.memory memory.new) stacks.new }
    ensures kept { M.kept memory.old memory.new }
{
    let pages = (size_of_class(class) + (PAGE_SIZE - 1)) / PAGE_SIZE;
    if pages > memory.pages_left() as u64 {
        return false;
    }
    let first = region_start(class) / PAGE_SIZE + stacks.pages(class);
    // The memory has these pages left.
    let _ = memory.map_pages(first, pages as usize, Attrs::DATA);
    stacks.carve(class, pages);
    true
}

/// A chunk in the lowest new block of a class without free blocks, where pages for one are left:
/// apart, so that an allocation in a free block stays short.
#[inline(never)]
fn grow_and_take<M: Paged>(
    cookie: u32,
    stacks: &mut Stacks,
    rgsr: &mut Rgsr,
    memory: &mut M,
    request: Request,
    class: u8,
) -> Option<Chunk>
    requires drawn { HasTag rgsr.old }
    requires request { FitsClass class request }
    requires empty { stack_of stacks.old class ≡ [] }
    requires regions { AreRegions (M.memory memory.old) stacks.old }
    ensures made { (ms : SecondaryState)
        → allocation_of (world_of (M.memory memory.new)
        (heap_of cookie stacks.new ms) rgsr.new) result
        ≡ after_class_allocation (world_of (M.memory memory.old)
        (heap_of cookie stacks.old ms) rgsr.old)
        request.origin request.align request.size class }
    ensures low_chunk { IfSome result IsLow }
    ensures tag { HasTag rgsr.new }
    ensures kept { M.kept memory.old memory.new }
{
    if !grow(stacks, memory, class) {
        return None;
    }
    take_top(cookie, stacks, rgsr, memory, request, class)
}

/// A chunk in a block of a class, where there is a block or pages for one.
#[inline(always)]
pub(crate) fn take_block<M: Paged>(
    cookie: u32,
    stacks: &mut Stacks,
    rgsr: &mut Rgsr,
    memory: &mut M,
    request: Request,
    class: u8,
) -> Option<Chunk>
    requires drawn { HasTag rgsr.old }
    requires request { FitsClass class request }
    requires regions { AreRegions (M.memory memory.old) stacks.old }
    ensures made { (ms : SecondaryState)
        → allocation_of (world_of (M.memory memory.new)
        (heap_of cookie stacks.new ms) rgsr.new) result
        ≡ after_class_allocation (world_of (M.memory memory.old)
        (heap_of cookie stacks.old ms) rgsr.old)
        request.origin request.align request.size class }
    ensures low_chunk { IfSome result IsLow }
    ensures tag { HasTag rgsr.new }
    ensures kept { M.kept memory.old memory.new }
{
    if let Some(chunk) = take_top(cookie, stacks, rgsr, memory, request, class) {
        return Some(chunk);
    }
    let chunk = grow_and_take(cookie, stacks, rgsr, memory, request, class);
    by_fields(chunk)
}
