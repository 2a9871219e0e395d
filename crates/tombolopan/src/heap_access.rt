//! The checked accesses to a heap's memory.

ghost use Rattle.std.specs.Prelude.{◌≡◌};
ghost use Rattle.scudo_heap.specs.Heaps.{HeapState};
ghost use Rattle.scudo_heap.specs.Served.{HeapOwnsItsPages};
ghost use Rattle.tombolopan.specs.HeapAnswers.{load_of, store_of, load_tag_of};

use crate::heap_op::HeapAnswer;
use mte_tags::Tagged;

/// The eight bytes at an address as a number.
#[tactic(auto, unfolding(crate::specs::HeapAnswers::load_of))]
pub(crate) fn load<M: Tagged>(memory: &mut M, addr: u64) -> HeapAnswer
    ensures answer { result ≡ (load_of (M.memory memory.old) addr).answer }
    ensures memory { M.memory memory.new ≡ (load_of (M.memory memory.old) addr).memory }
    ensures served { (h : HeapState)
        → HeapOwnsItsPages (M.memory memory.old) h → HeapOwnsItsPages (M.memory memory.new) h }
    ensures kept { M.kept memory.old memory.new }
{
    let mut bytes = [0; 8];
    match memory.read(addr, &mut bytes, true) {
        Ok(()) => HeapAnswer::Value(u64::from_le_bytes(bytes)),
        Err(fault) => HeapAnswer::Fault(fault),
    }
}

/// Replaces the eight bytes at an address by those of a number.
#[tactic(auto, unfolding(crate::specs::HeapAnswers::store_of))]
pub(crate) fn store<M: Tagged>(memory: &mut M, addr: u64, value: u64) -> HeapAnswer
    ensures answer { result ≡ (store_of (M.memory memory.old) addr value).answer }
    ensures memory { M.memory memory.new ≡ (store_of (M.memory memory.old) addr value).memory }
    ensures served { (h : HeapState)
        → HeapOwnsItsPages (M.memory memory.old) h → HeapOwnsItsPages (M.memory memory.new) h }
    ensures kept { M.kept memory.old memory.new }
{
    match memory.write(addr, &value.to_le_bytes(), true) {
        Ok(()) => HeapAnswer::Value(0),
        Err(fault) => HeapAnswer::Fault(fault),
    }
}

/// The allocation tag of the granule that holds an address.
#[tactic(auto, unfolding(crate::specs::HeapAnswers::load_tag_of))]
pub(crate) fn load_tag<M: Tagged>(memory: &mut M, addr: u64) -> HeapAnswer
    ensures answer { result ≡ load_tag_of (M.memory memory.old) addr }
    ensures memory { M.memory memory.new ≡ M.memory memory.old }
    ensures kept { M.kept memory.old memory.new }
{
    match memory.load_tag(addr) {
        Ok(tag) => HeapAnswer::Value(u64::from(tag)),
        Err(fault) => HeapAnswer::Fault(fault),
    }
}
