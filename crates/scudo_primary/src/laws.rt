//! Laws of the stacks: how they begin, how they change where the pool itself changes, and what the
//! equations of the calls say of them.

ghost use Rattle.std.specs.Prelude.{◌≡◌, ◌≢◌, ◌<◌, ◌≤◌, ◌∷◌, [], ℕ, List, false, length, drop};
ghost use Rattle.std.specs.Prelude.{slice_get, Some};
ghost use Rattle.scudo_header.specs.ByClass.{by_class};
ghost use Rattle.scudo_primary.specs.Batches.{max_count_of};
ghost use Rattle.scudo_primary.specs.Pools.{PoolState, empty_pool, with_pages, is_marked};
ghost use Rattle.scudo_primary.specs.Caches.{CacheState, entries_of, with_entries};
ghost use Rattle.scudo_primary.specs.Caches.{one_stack, IsAbove, AreStacks, KeepsLists};
ghost use Rattle.scudo_primary.specs.Caches.{block_taken, class_after_take, class_after_put};

use scudo_header::CLASSES;

/// An empty cache above a new pool has sound stacks, and a class gets pages where the cache holds
/// none of its blocks.
pub fn stacks_of_parts()
    ensures new { (c : CacheState) (p : PoolState) (pages : ℕ) (capacities : List ℕ)
        → c.classes ≡ by_class (λ _. [])
        → p ≡ empty_pool pages capacities
        → AreStacks c p }
    ensures above_new { (c : CacheState) (p : PoolState)
        → c.classes ≡ by_class (λ _. []) → IsAbove c p }
    ensures carve { (c : CacheState) (p : PoolState) (class pages : ℕ)
        → 0 < class
        → class ≤ CLASSES
        → entries_of c class ≡ []
        → AreStacks c p
        → AreStacks c (with_pages p class pages) }
    ensures above_carve { (c : CacheState) (p : PoolState) (class pages : ℕ)
        → 0 < class → class ≤ CLASSES → IsAbove c p → IsAbove c (with_pages p class pages) }
{}

/// A take that gives the top of the one stack leaves the rest of it, and marks the block used; a
/// put leaves it with the block on top. The pool's own lists stay where the cache holds a block to
/// be taken, or has capacity for one that is put.
pub fn stacks_after_calls()
    ensures take { (c : CacheState) (p : PoolState) (class : ℕ)
        → block_taken c p class ≡ slice_get (one_stack c p class) 0
        → let k = class_after_take c p class in
        one_stack (with_entries c class k.entries) k.pool class ≡ drop 1 (one_stack c p class) }
    ensures used { (c : CacheState) (p : PoolState) (class block : ℕ)
        → block_taken c p class ≡ Some block
        → is_marked (class_after_take c p class).pool class block ≡ false }
    ensures put { (c : CacheState) (p : PoolState) (class block : ℕ)
        → let k = class_after_put c p class block in
        one_stack (with_entries c class k.entries) k.pool class ≡ block ∷ one_stack c p class }
    ensures lists_taken { (c : CacheState) (p : PoolState) (class : ℕ)
        → entries_of c class ≢ [] → KeepsLists class p (class_after_take c p class).pool }
    ensures lists_put { (c : CacheState) (p : PoolState) (class block : ℕ)
        → length (entries_of c class) < max_count_of class
        → KeepsLists class p (class_after_put c p class block).pool }
{}
