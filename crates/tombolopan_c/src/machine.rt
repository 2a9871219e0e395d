//! Acts that are done to a tenant's machine.

ghost use Rattle.std.specs.Prelude.{◌≡◌, ◌<◌, ℕ, length, slice_index_or};
ghost use Rattle.mte_tenant.specs.Machines.{machine_of};
ghost use Rattle.tombolopan_c.specs.Machines.{after_act, after_slice_act};
ghost use Rattle.tombolopan_c.specs.Machines.{machine_before, act_done};
ghost use Rattle.tombolopan_c.specs.declared.act.MachineAct.{MachineAct};

use crate::act::MachineAct;
use crate::act_kinds::{ACT_GET, ACT_LOAD, ACT_LOAD_TAG, ACT_SET, ACT_SLICE, ACT_STORE};
use crate::memory::{load, load_tag, store};
use crate::registers::{get, set};
use mte_tenant::Lone;

/// A slice of at most `number` steps.
fn slice(lone: &mut Lone, act: &MachineAct) -> MachineAct
    ensures act { result ≡ (after_slice_act
        (machine_of lone.old.parts lone.old.memory) act.now).act }
    ensures machine { machine_of lone.new.parts lone.new.memory ≡ (after_slice_act
        (machine_of lone.old.parts lone.old.memory) act.now).machine }
{
    lone.slice(act.number);
    act.with(lone.parts.history.steps)
}

/// Does an act to a tenant's machine, and returns it with its answer.
#[tactic(auto, unfolding(crate::specs::Machines::after_act))]
pub fn make_act(lone: &mut Lone, act: &MachineAct) -> MachineAct
    ensures act { result ≡ (after_act
        (machine_of lone.old.parts lone.old.memory) act.now).act }
    ensures machine { machine_of lone.new.parts lone.new.memory ≡ (after_act
        (machine_of lone.old.parts lone.old.memory) act.now).machine }
{
    match act.act {
        ACT_SLICE => slice(lone, act),
        ACT_GET => get(&lone.parts.regs, act),
        ACT_SET => set(&mut lone.parts.regs, act),
        ACT_LOAD => load(&mut lone.memory, act),
        ACT_STORE => store(&mut lone.memory, act),
        ACT_LOAD_TAG => load_tag(&mut lone.memory, act),
        _ => act.without_act(),
    }
}

/// Does acts in order, and enters the answer of each.
pub fn make_acts(lone: &mut Lone, acts: &mut [MachineAct])
    ensures machine { (d : MachineAct) → machine_of lone.new.parts lone.new.memory
        ≡ machine_before (machine_of lone.old.parts lone.old.memory) acts.old
        (length acts.old) d }
    ensures count { length acts.new ≡ length acts.old }
    ensures answers { (k : ℕ) (d : MachineAct) → k < length acts.old
        → slice_index_or acts.new k d
        ≡ act_done (machine_of lone.old.parts lone.old.memory) acts.old k d }
{
    for act in acts.iter_mut() {
        *act = make_act(lone, act);
    }
}
