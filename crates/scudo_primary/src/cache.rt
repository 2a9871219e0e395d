//! The blocks of each class that are at hand.

ghost use Rattle.std.specs.Prelude.{◌≡◌, ◌<◌, [], length, slice_get, false, IfSome, IfOk};
ghost use Rattle.std.specs.Prelude.{vec_capacity};
ghost use Rattle.scudo_primary.specs.Batches.{max_count_of};
ghost use Rattle.scudo_primary.specs.Blocks.{IsClass, IsBlock, is_member};
ghost use Rattle.scudo_primary.specs.Pools.{pages_of, stack_of, is_marked};
ghost use Rattle.scudo_primary.specs.Caches.{one_stack, stack_over, with_entries, empty_cache};
ghost use Rattle.scudo_primary.specs.Caches.{AreStacks, IsAbove, KeepsRest};
ghost use Rattle.scudo_primary.specs.Caches.{block_taken, class_after_take, class_after_put};
ghost use Rattle.scudo_primary.specs.Caches.{after_refill, newest, after_take, with_room, after_put};
ghost use Rattle.scudo_primary.specs.CacheInner.{IsHeld, class_with};

use crate::batches::max_count;
use crate::per_class::PerClass;
use crate::pool::Primary;
use scudo_header::CLASSES;
use std::alloc::{AllocError, Global};
use std::marker::Model;

/// For each size class the free blocks that are at hand, the oldest first: at most 28 of the
/// classes up to 512 bytes, and 8 of the others. No call changes for how many classes there is
/// memory.
#[derive(Drop)]
pub struct Cache {
    entries: Vec<PerClass>,
}

impl Model for Cache {
    ghost use Rattle.scudo_primary.specs.Caches.{CacheState, coded_cache};
    ghost use Rattle.scudo_primary.specs.CacheInner.{cache_of, IsCache};

    ghost Value = { CacheState };

    ghost coded = { coded_cache };

    ghost view = { cache_of };

    ghost invariant = { IsCache };
}

impl Cache {
    /// A cache that holds no block. It is refused only where its memory is.
    pub fn new(alloc: Global) -> Result<Cache, AllocError>
        ensures { IfOk result (λ cache. cache ≡ empty_cache CLASSES) }
    {
        let mut entries = Vec::with_capacity(alloc, CLASSES as usize)?;
        while entries.len() < CLASSES as usize {
            entries.push_reserved(PerClass::new());
        }
        Ok(Cache { entries })
    }

    /// A copy of the cache. It is refused only where its memory is.
    pub fn copy(&self, alloc: Global) -> Result<Cache, AllocError>
        ensures { IfOk result (λ cache. cache ≡ self.now) }
    {
        let entries = copy_classes(alloc, &self.entries)?;
        Ok(Cache { entries })
    }

    /// Takes the newest block of a class and marks it used. A cache that holds none of the class
    /// first gets the pool's top batch; there is no block where the pool has none either.
    pub fn take(&mut self, class: u8, pool: &mut Primary) -> Option<u64>
        requires class { IsClass class }
        requires above { IsAbove self.old pool.old }
        ensures answer { result ≡ block_taken self.old pool.old class }
        ensures cache { self.new
            ≡ with_entries self.old class (class_after_take self.old pool.old class).entries }
        ensures pool { pool.new ≡ (class_after_take self.old pool.old class).pool }

        // Cache and pool are one stack: `stacks_after_calls` says what is left of it.
        ensures top { result ≡ slice_get (one_stack self.old pool.old class) 0 }
        ensures block { IfSome result (IsBlock class (pages_of pool.new class)) }
        ensures rest { KeepsRest class self.old pool.old self.new pool.new }
    {
        take_from(&mut self.entries[class as usize - 1], class, pool)
    }

    /// Puts a carved block that is marked used, and marks it free. A full cache first gives its
    /// oldest half to the pool, as one batch that keeps its order.
    pub fn put(&mut self, class: u8, block: u64, pool: &mut Primary)
        requires class { IsClass class }
        requires above { IsAbove self.old pool.old }
        requires carved { IsBlock class (pages_of pool.old class) block }
        requires used { is_marked pool.old class block ≡ false }
        ensures cache { self.new
            ≡ with_entries self.old class (class_after_put self.old pool.old class block).entries }
        ensures pool { pool.new ≡ (class_after_put self.old pool.old class block).pool }
        ensures rest { KeepsRest class self.old pool.old self.new pool.new }
    {
        put_into(&mut self.entries[class as usize - 1], class, block, pool);
    }

    /// Whether a carved block of a class is in its stack.
    #[inline(always)]
    pub fn is_free(&self, class: u8, block: u64, pool: &Primary) -> bool
        requires class { IsClass class }
        requires stacks { AreStacks self.now pool.now }
        requires carved { IsBlock class (pages_of pool.now class) block }
        ensures answer { result ≡ is_member (one_stack self.now pool.now class) block }
        ensures mark { result ≡ is_marked pool.now class block }
    {
        pool.is_free(class, block)
    }
}

/// Takes the newest of a class's entries.
#[inline]
fn take_from(entries: &mut PerClass, class: u8, pool: &mut Primary) -> Option<u64>
    requires class { IsClass class }
    requires held { IsHeld class entries.old pool.old }
    ensures answer { result ≡ newest (after_refill class entries.old pool.old).entries }
    ensures state { class_with entries.new pool.new
        ≡ after_take class (after_refill class entries.old pool.old) }
    ensures held { IsHeld class entries.new pool.new }
    ensures top { result ≡ slice_get (stack_over entries.old pool.old class) 0 }
    ensures block { IfSome result (IsBlock class (pages_of pool.new class)) }
{
    if entries.is_empty() {
        return refill_and_take(entries, class, pool);
    }
    hand_out(entries, class, pool)
}

/// Slow path of `take_from`: refills from the pool. Apart, so that the fast path stays short.
#[inline(never)]
fn refill_and_take(entries: &mut PerClass, class: u8, pool: &mut Primary) -> Option<u64>
    requires class { IsClass class }
    requires empty { length entries.old ≡ 0 }
    ensures answer { result ≡ newest (after_refill class entries.old pool.old).entries }
    ensures state { class_with entries.new pool.new
        ≡ after_take class (after_refill class entries.old pool.old) }
    ensures held { IsHeld class entries.new pool.new }
    ensures top { result ≡ slice_get (stack_over entries.old pool.old class) 0 }
    ensures block { IfSome result (IsBlock class (pages_of pool.new class)) }
{
    entries.refill(class, pool);
    hand_out(entries, class, pool)
}

/// Takes the newest entry and marks it used. Where there is none, the pool has none either.
#[inline]
fn hand_out(entries: &mut PerClass, class: u8, pool: &mut Primary) -> Option<u64>
    requires class { IsClass class }
    requires held { IsHeld class entries.old pool.old }
    requires none { entries.old ≡ [] → stack_of pool.old class ≡ [] }
    ensures answer { result ≡ newest entries.old }
    ensures state { class_with entries.new pool.new
        ≡ after_take class (class_with entries.old pool.old) }
    ensures held { IsHeld class entries.new pool.new }
    ensures top { result ≡ slice_get (stack_over entries.old pool.old class) 0 }
    ensures block { IfSome result (IsBlock class (pages_of pool.new class)) }
{
    let block = entries.pop()?;
    pool.mark_used(class, block);
    Some(block)
}

/// Appends a block to a class's entries.
#[inline]
fn put_into(entries: &mut PerClass, class: u8, block: u64, pool: &mut Primary)
    requires class { IsClass class }
    requires held { IsHeld class entries.old pool.old }
    requires carved { IsBlock class (pages_of pool.old class) block }
    requires used { is_marked pool.old class block ≡ false }
    ensures state { class_with entries.new pool.new
        ≡ after_put class block (with_room class entries.old pool.old) }
    ensures held { IsHeld class entries.new pool.new }
{
    if entries.len() >= max_count(class) {
        return make_room_and_put(entries, class, block, pool);
    }
    add(entries, class, block, pool);
}

/// Slow path of `put_into`: makes room first. Apart, so that the fast path stays short.
#[inline(never)]
fn make_room_and_put(entries: &mut PerClass, class: u8, block: u64, pool: &mut Primary)
    requires class { IsClass class }
    requires held { IsHeld class entries.old pool.old }
    requires full { length entries.old ≡ max_count_of class }
    requires carved { IsBlock class (pages_of pool.old class) block }
    requires used { is_marked pool.old class block ≡ false }
    ensures state { class_with entries.new pool.new
        ≡ after_put class block (with_room class entries.old pool.old) }
    ensures held { IsHeld class entries.new pool.new }
{
    make_room(entries, class, pool);
    add(entries, class, block, pool);
}

/// Adds a block where there is room, and marks it free.
#[inline]
fn add(entries: &mut PerClass, class: u8, block: u64, pool: &mut Primary)
    requires class { IsClass class }
    requires held { IsHeld class entries.old pool.old }
    requires room { length entries.old < max_count_of class }
    requires carved { IsBlock class (pages_of pool.old class) block }
    requires used { is_marked pool.old class block ≡ false }
    ensures state { class_with entries.new pool.new
        ≡ after_put class block (class_with entries.old pool.old) }
    ensures held { IsHeld class entries.new pool.new }
{
    entries.push(block);
    pool.mark_free(class, block);
}

/// Gives the oldest half of full entries to the pool.
fn make_room(entries: &mut PerClass, class: u8, pool: &mut Primary)
    requires class { IsClass class }
    requires held { IsHeld class entries.old pool.old }
    requires full { length entries.old ≡ max_count_of class }
    ensures state { class_with entries.new pool.new ≡ with_room class entries.old pool.old }
    ensures held { IsHeld class entries.new pool.new }
    ensures room { length entries.new < max_count_of class }
{
    let half = max_count(class) / 2;
    pool.push_batch(class, entries.oldest(half));
    entries.drop_oldest(half);
}

/// A copy of the blocks of each class, with memory for as many classes.
fn copy_classes(alloc: Global, classes: &Vec<PerClass>) -> Result<Vec<PerClass>, AllocError>
    ensures items { IfOk result (λ copy. copy.items ≡ classes.now.items) }
    ensures capacity { IfOk result (λ copy. vec_capacity copy ≡ vec_capacity classes.now) }
{
    let mut copy = Vec::with_capacity(alloc, classes.capacity())?;
    for class in classes.as_slice() {
        copy.push_reserved(class.copy());
    }
    Ok(copy)
}
