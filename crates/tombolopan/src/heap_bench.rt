//! A heap with a memory of its own.

ghost use Rattle.std.specs.Prelude.{◌≡◌, ◌<◌, ◌≤◌, IfOk};
ghost use Rattle.mte_tags.specs.Memory.{no_pages};
ghost use Rattle.scudo_heap.specs.Heaps.{empty_heap};
ghost use Rattle.scudo_heap.specs.Placing.{world_of};
ghost use Rattle.tombolopan.specs.HeapAnswers.{after_operation};

use crate::heap_answer::answer;
use crate::heap_op::{HeapAnswer, HeapOp};
use common::MAX_PAGES;
use mte_flat::Flat;
use mte_tags::{Rgsr, TagMode};
use scudo_heap::Heap;
use std::alloc::{AllocError, Global};
use std::marker::Model;

/// A heap, the memory that its chunks are in and its generator of random tags.
pub struct HeapBench {
    heap: Heap,
    memory: Flat,
    rgsr: Rgsr,
}

impl Drop for HeapBench {
    fn drop(self) {
        let HeapBench {
            heap: _,
            memory: _,
            rgsr: _,
        } = self;
    }
}

impl Model for HeapBench {
    ghost use Rattle.std.specs.Prelude.{◌<◌};
    ghost use Rattle.scudo_heap.specs.Placing.{World, world_of};
    ghost use Rattle.scudo_heap.specs.Served.{HeapOwnsItsPages};
    ghost use Rattle.tombolopan.specs.HeapWorlds.{coded_world};

    ghost Value = { World };

    ghost coded = { coded_world };

    ghost view = { λ b. world_of b.memory b.heap b.rgsr };

    ghost invariant = { λ b. HeapOwnsItsPages b.memory b.heap × (b.rgsr.tag < 16) };
}

impl HeapBench {
    /// A heap without chunks over a memory of at most `pages` pages, none of them mapped, 1 to
    /// `MAX_PAGES`. The cookie is what the checksums of its headers start from. It is refused only
    /// where its memory is.
    pub fn new(
        alloc: Global,
        cookie: u32,
        pages: u32,
        mode: TagMode,
        rgsr: Rgsr,
    ) -> Result<HeapBench, AllocError>
        requires some { 0 < pages }
        requires most { pages ≤ MAX_PAGES }
        requires tag { rgsr.tag < 16 }
        ensures { IfOk result
            (λ bench. bench ≡ world_of (no_pages pages mode) (empty_heap cookie pages) rgsr) }
    {
        let memory = Flat::new(alloc, pages as usize, mode)?;
        let heap = Heap::new(alloc, cookie, u64::from(pages))?;
        Ok(HeapBench { heap, memory, rgsr })
    }

    /// The memory, as it is now.
    pub fn memory(&self) -> &Flat
        ensures { result.now ≡ self.now.memory }
    {
        &self.memory
    }

    /// Makes a call or an access, and returns its answer.
    pub fn answer(&mut self, op: &HeapOp) -> HeapAnswer
        ensures answer { result ≡ (after_operation self.old op.now).answer }
        ensures world { self.new ≡ (after_operation self.old op.now).world }
    {
        answer(&mut self.heap, &mut self.rgsr, &mut self.memory, op)
    }
}
