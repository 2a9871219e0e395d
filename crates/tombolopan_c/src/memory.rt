//! The acts that read and write memory. They compare no tags.

ghost use Rattle.std.specs.Prelude.{◌≡◌};
ghost use Rattle.scudo_heap.specs.Heaps.{HeapState};
ghost use Rattle.scudo_heap.specs.Served.{HeapOwnsItsPages};
ghost use Rattle.tombolopan_c.specs.Acts.{after_load, after_store, tag_loaded};

use crate::act::MachineAct;
use mte_tags::Tagged;

/// Reads the eight bytes at an address as a number.
#[tactic(auto, unfolding(crate::specs::Acts::after_load))]
pub(crate) fn load<M: Tagged>(memory: &mut M, act: &MachineAct) -> MachineAct
    ensures act { result ≡ (after_load (M.memory memory.old) act.now).act }
    ensures memory { M.memory memory.new ≡ (after_load (M.memory memory.old) act.now).memory }
    ensures served { (h : HeapState)
        → HeapOwnsItsPages (M.memory memory.old) h → HeapOwnsItsPages (M.memory memory.new) h }
    ensures kept { M.kept memory.old memory.new }
{
    let mut bytes = [0; 8];
    match memory.read(act.addr, &mut bytes, false) {
        Ok(()) => act.with(u64::from_le_bytes(bytes)),
        Err(fault) => act.with_fault(&fault),
    }
}

/// Replaces the eight bytes at an address by those of a number.
#[tactic(auto, unfolding(crate::specs::Acts::after_store))]
pub(crate) fn store<M: Tagged>(memory: &mut M, act: &MachineAct) -> MachineAct
    ensures act { result ≡ (after_store (M.memory memory.old) act.now).act }
    ensures memory { M.memory memory.new ≡ (after_store (M.memory memory.old) act.now).memory }
    ensures served { (h : HeapState)
        → HeapOwnsItsPages (M.memory memory.old) h → HeapOwnsItsPages (M.memory memory.new) h }
    ensures kept { M.kept memory.old memory.new }
{
    match memory.write(act.addr, &act.value.to_le_bytes(), false) {
        Ok(()) => act.with(0),
        Err(fault) => act.with_fault(&fault),
    }
}

/// Reads the allocation tag of the granule that holds an address.
#[tactic(auto, unfolding(crate::specs::Acts::tag_loaded))]
pub(crate) fn load_tag<M: Tagged>(memory: &mut M, act: &MachineAct) -> MachineAct
    ensures act { result ≡ tag_loaded (M.memory memory.old) act.now }
    ensures memory { M.memory memory.new ≡ M.memory memory.old }
    ensures kept { M.kept memory.old memory.new }
{
    match memory.load_tag(act.addr) {
        Ok(tag) => act.with(u64::from(tag)),
        Err(fault) => act.with_fault(&fault),
    }
}
