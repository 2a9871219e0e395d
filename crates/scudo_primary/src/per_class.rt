//! The blocks of one class.

ghost use Rattle.std.specs.Prelude.{◌≡◌, ◌<◌, ◌≤◌, ◌==◌, ◌∷◌, ◌++◌, []};
ghost use Rattle.std.specs.Prelude.{length, take, drop, IfSome};
ghost use Rattle.scudo_primary.specs.Blocks.{IsClass};
ghost use Rattle.scudo_primary.specs.Pools.{stack_of};
ghost use Rattle.scudo_primary.specs.Caches.{newest, without_newest, after_refill};
ghost use Rattle.scudo_primary.specs.CacheInner.{IsHeld, class_with};

use crate::pool::Primary;
use scudo_header::MAX_COUNT;
use std::marker::Model;

/// The blocks of one class that are at hand, the oldest first (Scudo, `local_cache.h`, `PerClass`).
#[derive(Drop)]
pub(crate) struct PerClass {
    count: usize,
    blocks: [u64; MAX_COUNT],
}

impl Model for PerClass {
    ghost use Rattle.std.specs.Prelude.{◌≤◌, ℕ, List, take};
    ghost use Rattle.scudo_header.specs.declared.config.TheConstants.{MAX_COUNT};

    ghost Value = { List ℕ };

    ghost view = { λ c. take c.count c.blocks };

    ghost invariant = { λ c. c.count ≤ MAX_COUNT };
}

impl PerClass {
    /// No block.
    pub(crate) fn new() -> PerClass
        ensures { result ≡ [] }
    {
        PerClass {
            count: 0,
            blocks: [0; MAX_COUNT],
        }
    }

    /// The same blocks.
    pub(crate) fn copy(&self) -> PerClass
        ensures { result ≡ self.now }
    {
        PerClass {
            count: self.count,
            blocks: self.blocks,
        }
    }

    #[inline]
    pub(crate) fn len(&self) -> usize
        ensures { result ≡ length self.now }
    {
        self.count
    }

    #[inline]
    pub(crate) fn is_empty(&self) -> bool
        ensures { result ≡ (length self.now == 0) }
    {
        self.count == 0
    }

    /// Adds a block, which is then the newest.
    #[inline]
    pub(crate) fn push(&mut self, block: u64)
        requires room { length self.old < MAX_COUNT }
        ensures { self.new ≡ self.old ++ block ∷ [] }
    {
        self.blocks[self.count] = block;
        self.count += 1;
    }

    /// Takes the newest block.
    #[inline]
    pub(crate) fn pop(&mut self) -> Option<u64>
        ensures value { result ≡ newest self.old }
        ensures rest { self.new ≡ without_newest self.old }
        ensures blocks { IfSome result (λ block. self.old ≡ self.new ++ block ∷ []) }
    {
        if self.count == 0 {
            return None;
        }
        self.count -= 1;
        Some(self.blocks[self.count])
    }

    /// The oldest blocks, `count` of them.
    pub(crate) fn oldest(&self, count: usize) -> &[u64]
        requires some { count ≤ length self.now }
        ensures { result.now ≡ take count self.now }
    {
        &self.blocks[..count]
    }

    /// Drops the oldest blocks, `count` of them.
    pub(crate) fn drop_oldest(&mut self, count: usize)
        requires some { count ≤ length self.old }
        ensures { self.new ≡ drop count self.old }
    {
        self.blocks.copy_within(count..self.count, 0);
        self.count -= count;
    }

    /// Where there is no block, takes the pool's top batch.
    pub(crate) fn refill(&mut self, class: u8, pool: &mut Primary)
        requires class { IsClass class }
        requires empty { length self.old ≡ 0 }
        ensures state { class_with self.new pool.new ≡ after_refill class self.old pool.old }
        ensures held { IsHeld class self.new pool.new }
        ensures none { self.new ≡ [] → stack_of pool.new class ≡ [] }
    {
        self.count = pool.pop_batch(class, &mut self.blocks);
    }
}
