//! Lists of slots: one is taken out, copied, or brought back to what it was.

ghost use Rattle.std.specs.Prelude.{◌≡◌, ◌<◌, ◌≤◌, ◌-◌, IfOk, length, take, map};
ghost use Rattle.std.specs.Prelude.{slice_index_or, vec_len, vec_capacity};
ghost use Rattle.mte_tags.specs.Memory.{Memory, without_page};
ghost use Rattle.mte_flat.specs.Inner.Slots.{slots_memory, AreSlots};
ghost use Rattle.mte_flat.specs.Inner.Written.{KeepsUnwritten, FitIn, without_mark};

use crate::slot::Slot;
use std::alloc::{AllocError, Global};

/// Takes a slot out. The last one takes its place, and is marked as written.
pub(crate) fn take_slot(slots: &mut Vec<Slot>, s: usize)
    requires there { s < length slots.old.items }
    requires slots { AreSlots slots.old.items }
    ensures memory { (m : Memory) (d : Slot)
        → slots_memory m slots.new.items
        ≡ without_page (slots_memory m slots.old.items) (slice_index_or slots.old.items s d).page }
    ensures slots { AreSlots slots.new.items }
    ensures kept { KeepsUnwritten slots.old.items slots.new.items }
    ensures len { vec_len slots.new ≡ vec_len slots.old - 1 }
    ensures capacity { vec_capacity slots.new ≡ vec_capacity slots.old }
{
    slots.swap_remove(s);
    if s < slots.len() {
        slots[s].written = true;
    }
}

/// Copies of slots that are not marked as written, with memory for `limit`.
pub(crate) fn unmarked_slots(
    alloc: Global,
    limit: usize,
    slots: &[Slot],
) -> Result<Vec<Slot>, AllocError>
    requires { FitIn limit slots.now }
    ensures items { IfOk result (λ copies. copies.items ≡ map without_mark slots.now) }
    ensures len { IfOk result (λ copies. vec_len copies ≡ length slots.now) }
    ensures capacity { IfOk result (λ copies. limit ≤ vec_capacity copies) }
{
    let mut copies = Vec::with_capacity(alloc, limit)?;
    for slot in slots {
        copies.push_reserved(Slot {
            written: false,
            ..*slot
        });
    }
    Ok(copies)
}

/// Makes slots those of before.
pub(crate) fn restore_slots(slots: &mut Vec<Slot>, saved: &[Slot])
    requires kept { KeepsUnwritten saved.now slots.old.items }
    requires room { FitIn (vec_capacity slots.old) saved.now }
    ensures items { slots.new.items ≡ saved.now }
    ensures capacity { vec_capacity slots.new ≡ vec_capacity slots.old }
{
    slots.truncate(saved.len());
    restore_written(slots, saved);
    append_rest(slots, saved);
}

/// Makes each slot that is marked as written the one of before.
fn restore_written(slots: &mut [Slot], saved: &[Slot])
    requires kept { KeepsUnwritten saved.now slots.old }
    requires few { FitIn (length saved.now) slots.old }
    ensures items { slots.new ≡ take (length slots.old) saved.now }
{
    for i in 0..slots.len() {
        if slots[i].written {
            slots[i] = saved[i];
        }
    }
}

/// Appends the slots of before that are not there.
fn append_rest(slots: &mut Vec<Slot>, saved: &[Slot])
    requires first { slots.old.items ≡ take (vec_len slots.old) saved.now }
    requires few { FitIn (length saved.now) slots.old.items }
    requires room { FitIn (vec_capacity slots.old) saved.now }
    ensures items { slots.new.items ≡ saved.now }
    ensures capacity { vec_capacity slots.new ≡ vec_capacity slots.old }
{
    while slots.len() < saved.len() {
        let next = saved[slots.len()];
        slots.push_reserved(next);
    }
}
