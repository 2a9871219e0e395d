//! The heap's calls.

ghost use Rattle.std.specs.Prelude.{◌≡◌, ◌<◌, ◌≤◌, IfOk};
ghost use Rattle.scudo_heap.specs.Heaps.{HeapState, empty_heap};
ghost use Rattle.scudo_heap.specs.Placing.{world_of};
ghost use Rattle.scudo_heap.specs.Allocation.{answer_of, after_malloc, after_calloc};
ghost use Rattle.scudo_heap.specs.Allocation.{after_memalign};
ghost use Rattle.scudo_heap.specs.Freeing.{free_of, usable_size_of};
ghost use Rattle.scudo_heap.specs.Realloc.{realloc_answer, after_realloc};
ghost use Rattle.scudo_heap.specs.Calls.{after_call};
ghost use Rattle.scudo_heap.specs.Served.{HeapOwnsItsPages, HasTag};
ghost use Rattle.scudo_heap.specs.Sound.{IsSound};

use crate::abort::HeapAbort;
use crate::allocation::{allocate_address, is_power};
use crate::call::HeapCall;
use crate::checks::{check_word, find_chunk, read_header};
use crate::chunk::address_or_null;
use crate::freeing::free_found;
use crate::parts::HeapParts;
use crate::request::Request;
use crate::resizing::reallocate;
use crate::stacks::Stacks;
use a64_bits::plain;
use common::MAX_PAGES;
use mte_tags::{Paged, Rgsr};
use scudo_header::{MIN_ALIGNMENT, Origin};
use scudo_secondary::Secondary;
use std::alloc::{AllocError, Global};
use std::marker::Model;

/// The heap of one tenant. Its chunks are in the tenant's memory, which each call borrows; here
/// stand the free blocks of the size classes and the mappings of larger chunks. No call changes for
/// how many elements its lists have memory.
pub struct Heap {
    parts: HeapParts,
}

impl Drop for Heap {
    fn drop(self) {
        let Heap { parts: _ } = self;
    }
}

impl Model for Heap {
    ghost use Rattle.scudo_heap.specs.Heaps.{HeapState, coded_heap};
    ghost use Rattle.scudo_heap.specs.Inner.{AreHeapParts};
    ghost use Rattle.scudo_heap.specs.Inner.Parts.{heap_in};

    ghost Value = { HeapState };

    ghost coded = { coded_heap };

    ghost view = { λ f. heap_in f.parts };

    ghost invariant = { λ f. AreHeapParts (heap_in f.parts) };
}

impl Heap {
    /// A heap without chunks, for a memory of at most `pages` pages, up to `MAX_PAGES`. The cookie
    /// is what the checksums of its headers start from. It is refused only where its memory is; no
    /// later call takes any.
    pub fn new(alloc: Global, cookie: u32, pages: u64) -> Result<Heap, AllocError>
        requires most { pages ≤ MAX_PAGES }
        ensures { IfOk result (λ heap. heap ≡ empty_heap cookie pages) }
    {
        let stacks = Stacks::new(alloc, pages)?;
        let maps = Secondary::new(alloc, pages)?;
        let parts = HeapParts {
            cookie,
            stacks,
            maps,
        };
        Ok(Heap { parts })
    }

    /// A copy of the heap, with memory of its own. It is refused only where its memory is; no later
    /// call of it takes any.
    pub fn copy(&self, alloc: Global) -> Result<Heap, AllocError>
        ensures { IfOk result (λ heap. heap ≡ self.now) }
    {
        let stacks = self.parts.stacks.copy(alloc)?;
        let maps = self.parts.maps.copy(alloc)?;
        let parts = HeapParts {
            cookie: self.parts.cookie,
            stacks,
            maps,
        };
        Ok(Heap { parts })
    }

    /// The address of a new chunk of `size` bytes, one where that is 0, with its tag in bits 59:56.
    /// The bytes of a chunk of a size class are zero, up to the end of its last granule, and so are
    /// those of its pages where it has its own. It is 0, with nothing changed, where `size` is over
    /// `MAX_REQUEST`, or no block is free and fewer pages are left than are needed, or pages of its
    /// own fit nowhere.
    #[inline(never)]
    pub fn malloc<M: Paged>(&mut self, rgsr: &mut Rgsr, memory: &mut M, size: u64) -> u64
        requires served { HeapOwnsItsPages (M.memory memory.old) self.old }
        requires tag { HasTag rgsr.old }
        ensures answer { let w = world_of (M.memory memory.old) self.old rgsr.old in
            result ≡ answer_of (after_malloc w size).chunk }
        ensures world { let w = world_of (M.memory memory.old) self.old rgsr.old in
            world_of (M.memory memory.new) self.new rgsr.new ≡ (after_malloc w size).world }
        ensures served { HeapOwnsItsPages (M.memory memory.new) self.new }
        ensures tag { HasTag rgsr.new }
        ensures kept { M.kept memory.old memory.new }
    {
        let align = MIN_ALIGNMENT;
        let request = Request {
            origin: Origin::Malloc,
            align,
            size,
        };
        allocate_address(&mut self.parts, rgsr, memory, request)
    }

    /// A chunk for `count` elements of `size` bytes: as `malloc` of the product, which is 0 where
    /// the product is over `MAX_REQUEST`.
    #[inline(never)]
    pub fn calloc<M: Paged>(
        &mut self,
        rgsr: &mut Rgsr,
        memory: &mut M,
        count: u64,
        size: u64,
    ) -> u64
        requires served { HeapOwnsItsPages (M.memory memory.old) self.old }
        requires tag { HasTag rgsr.old }
        ensures answer { let w = world_of (M.memory memory.old) self.old rgsr.old in
            result ≡ answer_of (after_calloc w count size).chunk }
        ensures world { let w = world_of (M.memory memory.old) self.old rgsr.old in
            world_of (M.memory memory.new) self.new rgsr.new ≡ (after_calloc w count size).world }
        ensures served { HeapOwnsItsPages (M.memory memory.new) self.new }
        ensures tag { HasTag rgsr.new }
        ensures kept { M.kept memory.old memory.new }
    {
        match count.checked_mul(size) {
            None => 0,
            Some(all) => self.malloc(rgsr, memory, all),
        }
    }

    /// A chunk at a multiple of an alignment: as `malloc`, and 0 as well where the alignment is not
    /// a power of two up to `MAX_ALIGNMENT`.
    #[inline(never)]
    pub fn memalign<M: Paged>(
        &mut self,
        rgsr: &mut Rgsr,
        memory: &mut M,
        alignment: u64,
        size: u64,
    ) -> u64
        requires served { HeapOwnsItsPages (M.memory memory.old) self.old }
        requires tag { HasTag rgsr.old }
        ensures answer { let w = world_of (M.memory memory.old) self.old rgsr.old in
            result ≡ answer_of (after_memalign w alignment size).chunk }
        ensures world { let w = world_of (M.memory memory.old) self.old rgsr.old in
            world_of (M.memory memory.new) self.new rgsr.new
            ≡ (after_memalign w alignment size).world }
        ensures served { HeapOwnsItsPages (M.memory memory.new) self.new }
        ensures tag { HasTag rgsr.new }
        ensures kept { M.kept memory.old memory.new }
    {
        if !is_power(alignment) {
            return 0;
        }
        let align = alignment.max(MIN_ALIGNMENT);
        let request = Request {
            origin: Origin::Memalign,
            align,
            size,
        };
        allocate_address(&mut self.parts, rgsr, memory, request)
    }

    /// Frees a chunk. The null pointer is ignored.
    #[inline(never)]
    pub fn free<M: Paged>(
        &mut self,
        rgsr: &mut Rgsr,
        memory: &mut M,
        pointer: u64,
    ) -> Result<(), HeapAbort>
        requires served { HeapOwnsItsPages (M.memory memory.old) self.old }
        requires tag { HasTag rgsr.old }
        ensures answer { let w = world_of (M.memory memory.old) self.old rgsr.old in
            result ≡ (free_of w pointer).result }
        ensures world { let w = world_of (M.memory memory.old) self.old rgsr.old in
            world_of (M.memory memory.new) self.new rgsr.new ≡ (free_of w pointer).world }
        ensures served { HeapOwnsItsPages (M.memory memory.new) self.new }
        ensures tag { HasTag rgsr.new }
        ensures kept { M.kept memory.old memory.new }
    {
        if pointer == 0 {
            return Ok(());
        }
        let user = plain(pointer);
        match read_header(memory, user) {
            Err(abort) => Err(abort),
            Ok((word, tag)) => match check_word(&self.parts, user, word) {
                Err(abort) => Err(abort),
                Ok(found) => {
                    free_found(&mut self.parts, rgsr, memory, found, Some(tag));
                    Ok(())
                }
            },
        }
    }

    /// Gives a chunk another size. Where its block holds that, it stays there: the granules that
    /// come to it are zero and get its tag, and those that it gives up get tag 0. Else a new chunk,
    /// as of `malloc`, gets the bytes that both sizes have, and the old one is freed. Returns the
    /// address with the tag, or 0, with nothing changed, where `size` is over `MAX_REQUEST` or no
    /// new chunk is made. Size 0 frees the chunk and returns 0; the null pointer is as `malloc`.
    pub fn realloc<M: Paged>(
        &mut self,
        rgsr: &mut Rgsr,
        memory: &mut M,
        pointer: u64,
        size: u64,
    ) -> Result<u64, HeapAbort>
        requires served { HeapOwnsItsPages (M.memory memory.old) self.old }
        requires tag { HasTag rgsr.old }
        ensures answer { let w = world_of (M.memory memory.old) self.old rgsr.old in
            result ≡ realloc_answer (after_realloc w pointer size).result }
        ensures world { let w = world_of (M.memory memory.old) self.old rgsr.old in
            world_of (M.memory memory.new) self.new rgsr.new
            ≡ (after_realloc w pointer size).world }
        ensures served { HeapOwnsItsPages (M.memory memory.new) self.new }
        ensures tag { HasTag rgsr.new }
        ensures kept { M.kept memory.old memory.new }
    {
        if pointer == 0 {
            return Ok(self.malloc(rgsr, memory, size));
        }
        match find_chunk(&self.parts, memory, plain(pointer)) {
            Err(abort) => Err(abort),
            Ok(found) => {
                let chunk = reallocate(&mut self.parts, rgsr, memory, found, size);
                Ok(address_or_null(&chunk))
            }
        }
    }

    /// Makes a call, and returns its answer: the address of a chunk with its tag, or 0 where there
    /// is none; the size; 0 of a free. One that aborts has changed nothing.
    #[tactic(auto, unfolding(crate::specs::Calls::after_call))]
    pub fn call<M: Paged>(
        &mut self,
        rgsr: &mut Rgsr,
        memory: &mut M,
        call: HeapCall,
    ) -> Result<u64, HeapAbort>
        requires served { HeapOwnsItsPages (M.memory memory.old) self.old }
        requires tag { HasTag rgsr.old }
        ensures answer { let w = world_of (M.memory memory.old) self.old rgsr.old in
            result ≡ (after_call w call).answer }
        ensures world { let w = world_of (M.memory memory.old) self.old rgsr.old in
            world_of (M.memory memory.new) self.new rgsr.new ≡ (after_call w call).world }
        ensures served { HeapOwnsItsPages (M.memory memory.new) self.new }
        ensures tag { HasTag rgsr.new }
        ensures kept { M.kept memory.old memory.new }
    {
        match call {
            HeapCall::Malloc { size } => Ok(self.malloc(rgsr, memory, size)),
            HeapCall::Free { pointer } => match self.free(rgsr, memory, pointer) {
                Ok(()) => Ok(0),
                Err(abort) => Err(abort),
            },
            HeapCall::Calloc { count, size } => Ok(self.calloc(rgsr, memory, count, size)),
            HeapCall::Realloc { pointer, size } => self.realloc(rgsr, memory, pointer, size),
            HeapCall::Memalign { alignment, size } => {
                Ok(self.memalign(rgsr, memory, alignment, size))
            }
            HeapCall::UsableSize { pointer } => self.usable_size(memory, pointer),
        }
    }

    /// The invariant of every heap, whatever the calls were: in each stack of free blocks there are
    /// carved blocks, none of them twice, and the mappings are in order, each with pages of its own
    /// in their range.
    pub fn recall(&self)
        ensures { IsSound self.now }
    {
        self.parts.stacks.recall();
        self.parts.maps.recall();
    }

    /// How many bytes of a chunk its user may use: 0 for the null pointer.
    pub fn usable_size<M: Paged>(&self, memory: &mut M, pointer: u64) -> Result<u64, HeapAbort>
        ensures answer { result ≡ usable_size_of (M.memory memory.old) self.now pointer }
        ensures memory { M.memory memory.new ≡ M.memory memory.old }
        ensures kept { M.kept memory.old memory.new }
    {
        if pointer == 0 {
            return Ok(0);
        }
        match find_chunk(&self.parts, memory, plain(pointer)) {
            Err(abort) => Err(abort),
            Ok(found) => Ok(found.size()),
        }
    }
}
