//! When the condition of the calls holds, that each call keeps it, and what no call changes.

ghost use Rattle.std.specs.Prelude.{◌≡◌, ◌≤◌, ◌<◌, ◌+◌, ◌/◌, ◌⊎◌, ℕ, Some, None, Bool, List};
ghost use Rattle.common.specs.declared.limits.TheConstants.{PAGE_SIZE, MAX_PAGES};
ghost use Rattle.common.specs.declared.ranges.TheConstants.{SECONDARY_END};
ghost use Rattle.scudo_header.specs.Regions.{region_of};
ghost use Rattle.scudo_secondary.specs.Mappings.{pages_of};
ghost use Rattle.mte_tags.specs.Memory.{Memory, attrs_at, pages_left, with_granules, data_attrs};
ghost use Rattle.mte_tags.specs.Accesses.{after_read, after_write};
ghost use Rattle.mte_tags.specs.declared.generator.Rgsr.{Rgsr};
ghost use Rattle.scudo_heap.specs.declared.call.HeapCall.{HeapCall};
ghost use Rattle.scudo_heap.specs.Calls.{after_call};
ghost use Rattle.scudo_heap.specs.Heaps.{HeapState, empty_heap};
ghost use Rattle.scudo_heap.specs.Placing.{World, world_of};
ghost use Rattle.scudo_heap.specs.Allocation.{after_malloc, after_calloc, after_memalign};
ghost use Rattle.scudo_heap.specs.Freeing.{free_of};
ghost use Rattle.scudo_heap.specs.Realloc.{after_realloc};
ghost use Rattle.scudo_heap.specs.Others.{KeepsOthers};
ghost use Rattle.scudo_heap.specs.Sound.{IsSound, IsSoundWorld};
ghost use Rattle.scudo_heap.specs.Served.{HeapOwnsItsPages, IsUntouched};

/// A new heap may be used with a memory of at most the pages that it was made for, none of them
/// where a heap's pages lie; and what changes neither the attributes of a page nor how many are
/// left, as every access, keeps the condition.
pub fn condition_of_calls()
    ensures first { (m : Memory) (cookie pages : ℕ)
        → m.limit ≤ pages → IsUntouched m → HeapOwnsItsPages m (empty_heap cookie pages) }
    ensures same { (before after : Memory) (h : HeapState)
        → HeapOwnsItsPages before h
        → ((page : ℕ) → attrs_at after page ≡ attrs_at before page)
        → pages_left after ≡ pages_left before → HeapOwnsItsPages after h }
    ensures others { (before after : Memory) (h : HeapState)
        → HeapOwnsItsPages before h
        → ((page : ℕ)
        → region_of 1 / PAGE_SIZE ≤ page
        → page < SECONDARY_END / PAGE_SIZE
        → attrs_at after page ≡ attrs_at before page)
        → pages_left after + pages_of h.maps.mappings ≤ h.stacks.left
        → HeapOwnsItsPages after h }
{}

/// Each heap call keeps the condition of the calls, together with what holds of a heap whatever its
/// memory (`IsSoundWorld`). That holds of a new heap too, and what changes neither the attributes
/// of a page nor how many are left keeps it.
pub fn calls_keep_the_condition()
    ensures first { (m : Memory) (cookie pages : ℕ) (rgsr : Rgsr)
        → m.limit ≤ pages
        → pages ≤ MAX_PAGES
        → IsUntouched m
        → IsSoundWorld (world_of m (empty_heap cookie pages) rgsr) }
    ensures calls { (w : World) (call : HeapCall)
        → IsSoundWorld w
        → IsSoundWorld (after_call w call).world }
    ensures same { (w : World) (after : Memory)
        → IsSoundWorld w
        → ((page : ℕ) → attrs_at after page ≡ attrs_at w.memory page)
        → pages_left after ≡ pages_left w.memory
        → IsSoundWorld (record w { memory = after }) }
{}

/// Each access to the memory, a load, a store or a store of tags, keeps the condition of the calls.
pub fn accesses_keep_the_condition()
    ensures read { (m : Memory) (addr count : ℕ) (check : Bool) (h : HeapState)
        → HeapOwnsItsPages m h → HeapOwnsItsPages (after_read m addr count check) h }
    ensures write { (m : Memory) (addr : ℕ) (bytes : List ℕ) (check : Bool) (h : HeapState)
        → HeapOwnsItsPages m h → HeapOwnsItsPages (after_write m addr bytes check) h }
    ensures tags { (m : Memory) (addr count tag : ℕ) (zero_bytes : Bool) (h : HeapState)
        → HeapOwnsItsPages m h → HeapOwnsItsPages (with_granules m addr count tag zero_bytes) h }
{}

/// No heap call changes a page outside of the ranges where a heap's pages lie, and in these each
/// page that is mapped has READ, WRITE and TAGGED.
pub fn calls_keep_other_pages()
    ensures pages { (m : Memory) (h : HeapState) (page : ℕ)
        → HeapOwnsItsPages m h
        → region_of 1 / PAGE_SIZE ≤ page
        → page < SECONDARY_END / PAGE_SIZE
        → (attrs_at m page ≡ None) ⊎ (attrs_at m page ≡ Some data_attrs.0) }
    ensures malloc { (w : World) (size : ℕ)
        → HeapOwnsItsPages w.memory w.heap
        → IsSound w.heap
        → KeepsOthers w.memory (after_malloc w size).world.memory }
    ensures calloc { (w : World) (count size : ℕ)
        → HeapOwnsItsPages w.memory w.heap
        → IsSound w.heap
        → KeepsOthers w.memory (after_calloc w count size).world.memory }
    ensures memalign { (w : World) (align size : ℕ)
        → HeapOwnsItsPages w.memory w.heap
        → IsSound w.heap
        → KeepsOthers w.memory (after_memalign w align size).world.memory }
    ensures free { (w : World) (pointer : ℕ)
        → HeapOwnsItsPages w.memory w.heap
        → IsSound w.heap
        → KeepsOthers w.memory (free_of w pointer).world.memory }
    ensures realloc { (w : World) (pointer size : ℕ)
        → HeapOwnsItsPages w.memory w.heap
        → IsSound w.heap
        → KeepsOthers w.memory (after_realloc w pointer size).world.memory }
{}
