//! The pool of free blocks.

ghost use Rattle.std.specs.Prelude.{◌≡◌, ◌≤◌, ◌<◌, ◌+◌, ◌*◌, ◌∷◌, ◌++◌, ◌↔◌, [], true, false, length, take};
ghost use Rattle.std.specs.Prelude.{drop};
ghost use Rattle.std.specs.Prelude.{reverse, slice_get, nat_eq, IfSome, IfOk, IsTrue};
ghost use Rattle.std.specs.List.{All, IsDistinct};
ghost use Rattle.scudo_primary.specs.Blocks.{IsClass, IsBlock, carved_count};
ghost use Rattle.scudo_primary.specs.Batches.{IsBatch, max_count_of, first_size};
ghost use Rattle.scudo_primary.specs.Pools.{pages_of, stack_of, sizes_of, is_listed, is_marked};
ghost use Rattle.scudo_primary.specs.Pools.{IsFree, IsCached, empty_pool, after_pop, after_push};
ghost use Rattle.scudo_primary.specs.Pools.{top_batch, without_batch, with_batch, with_mark};
ghost use Rattle.scudo_primary.specs.Pools.{with_pages};

use crate::lists::{
    BlockEntry, ClassList, LISTS, fill_up, link, link_batch, link_new, number_pages, place,
    set_mark, unlink, unlink_batch,
};
use common::{MAX_PAGES, PAGE_SIZE, copy_list};
use scudo_header::{CLASSES, MAX_COUNT, is_multiple, region_start, size_of_class};
use std::alloc::{AllocError, Global};
use std::marker::Model;

/// For each size class the pages of its region that are carved into blocks, one stack of free
/// blocks, and a mark for each carved block that says whether it is free. `new` reserves the pool's
/// memory and writes none of it; what a page needs is written where it is carved. No call changes
/// for how many elements the pool's lists have memory.
pub struct Primary {
    /// 128 for each carved page, one for each 32 bytes, in memory for `limit` pages.
    entries: Vec<BlockEntry>,
    /// For each page of a region and each class the number of that page among all carved ones, as
    /// far as any class has pages, in memory for `limit` pages.
    numbers: Vec<u16>,
    lists: [ClassList; LISTS],
    used: u64,
    limit: u64,
}

impl Drop for Primary {
    fn drop(self) {
        let Primary {
            entries: _,
            numbers: _,
            lists: _,
            used: _,
            limit: _,
        } = self;
    }
}

impl Model for Primary {
    ghost use Rattle.scudo_primary.specs.Pools.{PoolState, coded_pool};
    ghost use Rattle.scudo_primary.specs.Inner.{pool_in, IsPool};

    ghost Value = { PoolState };

    ghost coded = { coded_pool };

    ghost view = { pool_in };

    ghost invariant = { IsPool };
}

impl Primary {
    /// A pool for `pages` pages, none of them carved. It is refused only where its memory is; no
    /// later call takes any.
    pub fn new(alloc: Global, pages: u64) -> Result<Primary, AllocError>
        requires { pages ≤ MAX_PAGES }
        ensures { IfOk result
            (λ pool. pool ≡ empty_pool pages (128 * pages ∷ CLASSES * pages ∷ [])) }
    {
        let no_list = ClassList {
            head: 0,
            count: 0,
            pages: 0,
        };
        let entries = Vec::with_capacity(alloc, 128 * pages as usize)?;
        let numbers = Vec::with_capacity(alloc, LISTS * pages as usize)?;
        Ok(Primary {
            entries,
            numbers,
            lists: [no_list; LISTS],
            used: 0,
            limit: pages,
        })
    }

    /// A copy of the pool, with memory of its own for as many elements. It is refused only where
    /// its memory is.
    pub fn copy(&self, alloc: Global) -> Result<Primary, AllocError>
        ensures { IfOk result (λ pool. pool ≡ self.now) }
    {
        Ok(Primary {
            entries: copy_list(alloc, &self.entries)?,
            numbers: copy_list(alloc, &self.numbers)?,
            lists: self.lists,
            used: self.used,
            limit: self.limit,
        })
    }

    /// Carves `pages` pages more of a class's region into blocks. The new blocks come on top of its
    /// stack, marked free, the lowest on top, in batches of at most half of what a local cache
    /// holds.
    pub fn carve(&mut self, class: u8, pages: u64)
        requires class { IsClass class }
        requires room { pages ≤ self.old.left }
        ensures { self.new ≡ with_pages self.old class pages }
    {
        let list = self.lists[class as usize - 1];
        let own = list.pages + pages;
        let used = self.used + pages;
        let no_entry = BlockEntry {
            next: 0,
            free: false,
            last: false,
        };
        fill_up(&mut self.entries, 128 * used as usize, no_entry);
        fill_up(&mut self.numbers, LISTS * own as usize, 0);
        number_pages(&mut self.numbers, class, list.pages, pages, self.used);
        self.used = used;
        self.lists[class as usize - 1].pages = own;
        let size = size_of_class(class);
        link_new(
            &mut self.entries,
            &self.numbers,
            &mut self.lists,
            class,
            PAGE_SIZE * list.pages / size,
            PAGE_SIZE * own / size,
        );
    }

    /// Takes the top block of the stack of a class and marks it used. There is none where the stack
    /// is empty.
    pub fn pop(&mut self, class: u8) -> Option<u64>
        requires class { IsClass class }
        ensures answer { result ≡ slice_get (stack_of self.old class) 0 }
        ensures pool { self.new ≡ after_pop self.old class }
        ensures block { IfSome result (IsBlock class (pages_of self.new class)) }
        ensures unlisted { IfSome result (λ block. is_listed self.new class block ≡ false) }
        ensures used { IfSome result (λ block. is_marked self.new class block ≡ false) }
    {
        if self.lists[class as usize - 1].count == 0 {
            return None;
        }
        Some(unlink(&mut self.entries, &self.numbers, &mut self.lists, class))
    }

    /// Puts a carved block that is marked used on top of the stack of its class, as a batch of its
    /// own, and marks it free.
    pub fn push(&mut self, class: u8, block: u64)
        requires class { IsClass class }
        requires carved { IsBlock class (pages_of self.old class) block }
        requires used { is_marked self.old class block ≡ false }
        ensures { self.new ≡ after_push self.old class block }
    {
        link(
            &mut self.entries,
            &self.numbers,
            &mut self.lists,
            class,
            block,
            true,
        );
    }

    /// Takes the top batch of the stack of a class into the first places of the buffer, in its own
    /// order, its top block last, and returns its length: 0 where the stack is empty. The blocks
    /// stay marked free.
    pub fn pop_batch(&mut self, class: u8, buffer: &mut [u64; MAX_COUNT]) -> usize
        requires class { IsClass class }
        ensures count { result ≡ first_size (sizes_of self.old class) }
        ensures blocks { buffer.new ≡ top_batch self.old class ++ drop result buffer.old }
        ensures pool { self.new ≡ without_batch self.old class }

        // Facts that follow from the pool's own order.
        ensures most { result ≤ max_count_of class }
        ensures empty { (result ≡ 0) ↔ (stack_of self.old class ≡ []) }
        ensures stack { stack_of self.old class
            ≡ reverse (take result buffer.new) ++ stack_of self.new class }
        ensures cached { All (IsCached self.new class) (take result buffer.new) }
        ensures distinct { IsDistinct nat_eq (take result buffer.new) }
    {
        unlink_batch(&self.entries, &self.numbers, &mut self.lists, class, buffer)
    }

    /// Puts blocks on top of the stack of their class as one batch that keeps their order: the last
    /// comes on top.
    pub fn push_batch(&mut self, class: u8, blocks: &[u64])
        requires class { IsClass class }
        requires batch { IsBatch class blocks.now }
        requires cached { All (IsCached self.old class) blocks.now }
        ensures { self.new ≡ with_batch self.old class blocks.now }
    {
        link_batch(
            &mut self.entries,
            &self.numbers,
            &mut self.lists,
            class,
            blocks,
        );
    }

    /// Marks a carved block free. One that was marked used is in no list of the pool, so a cache
    /// may hold it from now on.
    pub fn mark_free(&mut self, class: u8, block: u64)
        requires class { IsClass class }
        requires carved { IsBlock class (pages_of self.old class) block }
        ensures pool { self.new ≡ with_mark self.old class block true }
        ensures cached { is_marked self.old class block ≡ false
            → IsCached self.new class block }
    {
        set_mark(&mut self.entries, &self.numbers, class, block, true);
    }

    /// Marks a carved block used, which is in no list of the pool.
    pub fn mark_used(&mut self, class: u8, block: u64)
        requires class { IsClass class }
        requires carved { IsBlock class (pages_of self.old class) block }
        requires unlisted { is_listed self.old class block ≡ false }
        ensures { self.new ≡ with_mark self.old class block false }
    {
        set_mark(&mut self.entries, &self.numbers, class, block, false);
    }

    /// Whether a carved block of a class begins at an address.
    #[inline(always)]
    pub fn is_block(&self, class: u8, block: u64) -> bool
        requires class { IsClass class }
        ensures { IsTrue result ↔ IsBlock class (pages_of self.now class) block }
    {
        let start = region_start(class);
        if block < start {
            return false;
        }
        let offset = block - start;
        let bytes = PAGE_SIZE * self.lists[class as usize - 1].pages;
        let size = size_of_class(class);
        size <= bytes.saturating_sub(offset) && is_multiple(class, offset)
    }

    /// Whether a carved block of a class that is marked free begins at an address: it is in the
    /// pool, or in a cache above it.
    #[inline(always)]
    pub fn is_free(&self, class: u8, block: u64) -> bool
        requires class { IsClass class }
        ensures free { IsTrue result ↔ IsFree self.now class block }
        ensures mark { IsBlock class (pages_of self.now class) block
            → result ≡ is_marked self.now class block }
    {
        self.is_block(class, block) && self.entries[place(&self.numbers, class, block)].free
    }

    /// How many pages of a class's region are carved. With those that still may be, no more than
    /// the region has.
    pub fn pages(&self, class: u8) -> u64
        requires class { IsClass class }
        ensures pages { result ≡ pages_of self.now class }
        ensures most { result + self.now.left ≤ MAX_PAGES }
    {
        let own = self.lists[class as usize - 1];
        own.pages
    }

    /// How many blocks of a class are carved.
    pub fn carved(&self, class: u8) -> u64
        requires class { IsClass class }
        ensures { result ≡ carved_count class (pages_of self.now class) }
    {
        PAGE_SIZE * self.lists[class as usize - 1].pages / size_of_class(class)
    }
}
