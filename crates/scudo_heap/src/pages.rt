//! Allocation with pages of their own.

ghost use Rattle.std.specs.Prelude.{◌≡◌, ◌+◌, ◌-◌, ◌*◌, ◌/◌, ◌<◌, ◌≤◌, ◌^◌, ◌%◌, ℕ, IsTrue, Some};
ghost use Rattle.std.specs.Prelude.{IfSome};
ghost use Rattle.mte_tags.specs.Memory.{pages_left, with_new_pages};
ghost use Rattle.mte_tags.specs.declared.generator.Rgsr.{Rgsr};
ghost use Rattle.scudo_secondary.specs.Mappings as secondary;
ghost use Rattle.scudo_heap.specs.Stacks.{StackState};
ghost use Rattle.scudo_heap.specs.Heaps.{heap_of, with_more};
ghost use Rattle.scudo_heap.specs.Chunks.{with_header};
ghost use Rattle.scudo_heap.specs.Placing.{world_of, heap_attrs, pages_for};
ghost use Rattle.scudo_heap.specs.Large.{large_header};
ghost use Rattle.scudo_heap.specs.Allocation.{allocation_of, need_of, after_large_allocation};
ghost use Rattle.scudo_heap.specs.Inner.{IsRequest, IsLarge, IsLow, ArePlaces};

use crate::chunk::Chunk;
use crate::granules::put_header;
use crate::request::Request;
use common::PAGE_SIZE;
use mte_tags::{Attrs, Paged, Tagged};
use scudo_header::{Header, Origin, State};
use scudo_secondary::{Mapping, Secondary};

/// Maps the pages of a chunk and writes its header.
fn map_chunk<M: Paged>(
    cookie: u32,
    maps: &mut Secondary,
    memory: &mut M,
    origin: Origin,
    mapping: Mapping,
    size: u64,
)
    requires places { ArePlaces (M.memory memory.old) maps.old }
    requires place { IsTrue
        (secondary.is_place maps.old.mappings mapping.pages mapping.start) }
    requires left { mapping.pages ≤ pages_left (M.memory memory.old) }
    requires large { IsLarge mapping size }
    ensures memory { M.memory memory.new
        ≡ with_header
        (with_new_pages (M.memory memory.old) (mapping.start / PAGE_SIZE) mapping.pages heap_attrs)
        cookie mapping.user (large_header origin mapping size) }
    ensures maps { maps.new ≡ with_more maps.old mapping }
    ensures kept { M.kept memory.old memory.new }
{
    // The memory has these pages left.
    let _ = memory.map_pages(
        mapping.start / PAGE_SIZE,
        mapping.pages as usize,
        Attrs::DATA,
    );
    let header = Header {
        class_id: 0,
        state: State::Allocated,
        origin,
        size_or_unused_bytes: (mapping.end() - mapping.user - size) as u32,
        offset: 0,
    };
    put_header(memory, cookie, mapping.user, &header);
    maps.add(mapping);
}

/// A chunk with pages of its own, if they fit and as many are left.
#[inline(never)]
pub(crate) fn take_pages<M: Paged>(
    cookie: u32,
    maps: &mut Secondary,
    memory: &mut M,
    request: Request,
) -> Option<Chunk>
    requires places { ArePlaces (M.memory memory.old) maps.old }
    requires request { IsRequest request }
    ensures made { (s : StackState) (r : Rgsr)
        → allocation_of (world_of (M.memory memory.new) (heap_of cookie s maps.new) r) result
        ≡ after_large_allocation (world_of (M.memory memory.old) (heap_of cookie s maps.old) r)
        request.origin request.align request.size
        (pages_for (need_of request.align request.size)) }
    ensures low_chunk { IfSome result IsLow }
    ensures kept { M.kept memory.old memory.new }
{
    let pages = (request.need() + (PAGE_SIZE - 1)) / PAGE_SIZE;
    let Some(start) = maps.place(pages) else {
        return None;
    };
    if pages > memory.pages_left() as u64 {
        return None;
    }
    // The chunk ends as near to the end of its pages as its alignment allows.
    let end = start + PAGE_SIZE * pages;
    let user = (end - request.size) / request.align * request.align;
    let mapping = Mapping { start, pages, user };
    map_chunk(cookie, maps, memory, request.origin, mapping, request.size);
    Some(Chunk::Large(mapping, request.size))
}
