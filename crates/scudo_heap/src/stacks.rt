//! The free blocks of the size classes: a local cache above a pool, which are one stack a class.

ghost use Rattle.std.specs.Prelude.{◌≡◌, ◌≤◌, ◌<◌, ◌+◌, ◌↔◌, [], false, slice_get, IfOk, IfSome};
ghost use Rattle.std.specs.Prelude.{IsTrue, IsNone};
ghost use Rattle.scudo_primary.specs.Blocks.{IsClass, IsBlock};
ghost use Rattle.scudo_primary.specs.Pools.{is_member};
ghost use Rattle.scudo_heap.specs.Stacks.{pages_of, stack_of, empty_stacks, after_pop, after_push};
ghost use Rattle.scudo_heap.specs.Stacks.{after_carve};
ghost use Rattle.scudo_heap.specs.Stacks.{AreSound};

use common::MAX_PAGES;
use scudo_primary::{Cache, Primary};
use std::alloc::{AllocError, Global};
use std::marker::Model;

/// For each size class the pages of its region, and one stack of free blocks.
#[derive(Drop)]
pub(crate) struct Stacks {
    pool: Primary,
    cache: Cache,
}

impl Model for Stacks {
    ghost use Rattle.scudo_heap.specs.Stacks.{StackState, coded_stacks};
    ghost use Rattle.scudo_heap.specs.Inner.{stacks_in, AreParts};

    ghost Value = { StackState };

    ghost coded = { coded_stacks };

    ghost view = { stacks_in };

    ghost invariant = { AreParts };
}

impl Stacks {
    /// Stacks without blocks, for `pages` pages.
    pub(crate) fn new(alloc: Global, pages: u64) -> Result<Stacks, AllocError>
        requires { pages ≤ MAX_PAGES }
        ensures { IfOk result (λ stacks. stacks ≡ empty_stacks pages) }
    {
        let pool = Primary::new(alloc, pages)?;
        let cache = Cache::new(alloc)?;
        Ok(Stacks { pool, cache })
    }

    /// A copy of the stacks, with memory for as many pages.
    pub(crate) fn copy(&self, alloc: Global) -> Result<Stacks, AllocError>
        ensures { IfOk result (λ stacks. stacks ≡ self.now) }
    {
        let pool = self.pool.copy(alloc)?;
        let cache = self.cache.copy(alloc)?;
        Ok(Stacks { pool, cache })
    }

    /// Takes the top of a class's stack.
    #[inline]
    pub(crate) fn take(&mut self, class: u8) -> Option<u64>
        requires class { IsClass class }
        ensures answer { result ≡ slice_get (stack_of self.old class) 0 }
        ensures stacks { self.new ≡ after_pop self.old class }
        ensures block { IfSome result (IsBlock class (pages_of self.old class)) }
        ensures none { IsNone result → self.new ≡ self.old }
    {
        self.cache.take(class, &mut self.pool)
    }

    /// Puts a carved block that is not there on top of its class's stack.
    #[inline]
    pub(crate) fn put(&mut self, class: u8, block: u64)
        requires class { IsClass class }
        requires carved { IsBlock class (pages_of self.old class) block }
        requires used { is_member (stack_of self.old class) block ≡ false }
        ensures { self.new ≡ after_push self.old class block }
    {
        self.cache.put(class, block, &mut self.pool);
    }

    /// Carves `pages` pages more for a class without free blocks.
    pub(crate) fn carve(&mut self, class: u8, pages: u64)
        requires class { IsClass class }
        requires room { pages ≤ self.old.left }
        requires empty { stack_of self.old class ≡ [] }
        ensures { self.new ≡ after_carve self.old class pages }
    {
        self.pool.carve(class, pages);
    }

    /// Does nothing. Its contract recalls what holds of all stacks, for a proof of the caller.
    pub(crate) fn recall(&self)
        ensures { AreSound self.now }
    {
        let _own = &self.pool;
    }

    /// How many pages a class has.
    pub(crate) fn pages(&self, class: u8) -> u64
        requires class { IsClass class }
        ensures pages { result ≡ pages_of self.now class }
        ensures most { result + self.now.left ≤ MAX_PAGES }
    {
        self.pool.pages(class)
    }

    /// Whether a carved block of a class begins at an address.
    #[inline(always)]
    pub(crate) fn is_block(&self, class: u8, block: u64) -> bool
        requires class { IsClass class }
        ensures { IsTrue result ↔ IsBlock class (pages_of self.now class) block }
    {
        self.pool.is_block(class, block)
    }

    /// Whether a carved block is in its class's stack.
    #[inline(always)]
    pub(crate) fn is_free(&self, class: u8, block: u64) -> bool
        requires class { IsClass class }
        requires carved { IsBlock class (pages_of self.now class) block }
        ensures { result ≡ is_member (stack_of self.now class) block }
    {
        self.cache.is_free(class, block, &self.pool)
    }
}
