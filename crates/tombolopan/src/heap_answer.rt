//! The answer of an operation on a heap.

ghost use Rattle.std.specs.Prelude.{◌≡◌, ◌<◌};
ghost use Rattle.scudo_heap.specs.Placing.{world_of};
ghost use Rattle.scudo_heap.specs.Served.{HeapOwnsItsPages};
ghost use Rattle.tombolopan.specs.HeapAnswers.{after_operation};

use crate::heap_access::{load, load_tag, store};
use crate::heap_op::{HeapAnswer, HeapOp};
use mte_tags::{Paged, Rgsr};
use scudo_heap::Heap;

/// Makes a call of a heap or an access to its memory, and returns its answer.
#[tactic(auto, unfolding(crate::specs::HeapAnswers::after_operation))]
pub fn answer<M: Paged>(heap: &mut Heap, rgsr: &mut Rgsr, memory: &mut M, op: &HeapOp) -> HeapAnswer
    requires served { HeapOwnsItsPages (M.Tagged.memory memory.old) heap.old }
    requires tag { rgsr.old.tag < 16 }
    ensures answer { let w = world_of (M.Tagged.memory memory.old) heap.old rgsr.old in
        result ≡ (after_operation w op.now).answer }
    ensures world { let w = world_of (M.Tagged.memory memory.old) heap.old rgsr.old in
        world_of (M.Tagged.memory memory.new) heap.new rgsr.new ≡ (after_operation w op.now).world }
    ensures served { HeapOwnsItsPages (M.Tagged.memory memory.new) heap.new }
    ensures tag { rgsr.new.tag < 16 }
    ensures kept { M.Tagged.kept memory.old memory.new }
{
    match *op {
        HeapOp::Call(call) => HeapAnswer::of_call(heap.call(rgsr, memory, call)),
        HeapOp::Load { addr } => load(memory, addr),
        HeapOp::Store { addr, value } => store(memory, addr, value),
        HeapOp::LoadTag { addr } => load_tag(memory, addr),
    }
}
