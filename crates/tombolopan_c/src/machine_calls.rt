//! The export that runs a tenant's machine which is changed between its slices.

ghost use Rattle.std.specs.Prelude.{◌≡◌, ◌≢◌, ◌≤◌, ◌<◌, ◌⊎◌, length, None, false};
ghost use Rattle.mte_tenant.specs.Ledger.{is_bad};
ghost use Rattle.mte_tenant.specs.Alone.{refusal_alone};
ghost use Rattle.tombolopan_c.specs.declared.codes.TheConstants.{OK, NO_ROOM, REFUSED};
ghost use Rattle.tombolopan_c.specs.declared.codes.TheConstants.{OUT_OF_MEMORY};
ghost use Rattle.tombolopan_c.specs.LentRegisters.{regs_of};
ghost use Rattle.tombolopan_c.specs.LentMachines.{HasActed, HasPages, AreAnswered};
ghost use Rattle.tombolopan_c.specs.LoneTenants.{lent_start};

use crate::act::MachineAct;
use crate::alone_calls::told;
use crate::alone_end::AloneEnd;
use crate::codes::{NO_ROOM, OK, OUT_OF_MEMORY, REFUSED};
use crate::kept_calls::KeptCall;
use crate::lent_bytes::copy_to;
use crate::lent_regs::LentRegs;
use crate::lent_terms::LentTerms;
use crate::machine::make_acts;
use crate::pages::{PageEntry, page_map};
use common::Obstacle;
use mte_tenant::Lone;
use std::alloc::Global;

/// How a tenant's machine ended.
#[repr(C)]
#[derive(Clone, Copy)]
pub struct MachineEnd {
    /// The report of a tenant alone.
    pub alone: AloneEnd,
    /// Its registers.
    pub regs: LentRegs,
}

/// Admits a tenant alone and does acts to its machine in order: slices, and between them reads and
/// writes of registers and memory. Enters the answer of each, and then copies its registers, and of
/// its output and its last 64 heap calls as much as the buffers hold, as `tb_alone` does. The
/// slices of `terms` are not looked at. It is a function of `terms` and of the acts, so the same
/// acts with more after them go on where these came to. OK where the buffers hold all; NO_ROOM
/// where they do not. REFUSED and OUT_OF_MEMORY change nothing but `end.alone`.
#[unsafe(no_mangle)]
pub extern "C" fn tb_machine_acts(
    alloc: Global,
    terms: &LentTerms<'_>,
    acts: &mut [MachineAct],
    output: &mut [u8],
    calls: &mut [KeptCall],
    end: &mut MachineEnd,
) -> u32
    ensures code { result ≡ end.new.alone.code }
    ensures count { length acts.new ≡ length acts.old }
    ensures acted { HasActed terms.now acts.old acts.new
        (regs_of end.old.regs) (regs_of end.new.regs)
        (record { output = output.old; calls = calls.old })
        (record { output = output.new; calls = calls.new }) end.new.alone }
{
    end.alone = match Lone::new(alloc, &terms.admission()) {
        Ok(mut machine) => {
            make_acts(&mut machine, acts);
            end.regs.set(&machine.parts.regs);
            told(&machine.parts.history, output, calls)
        }
        Err(obstacle) => AloneEnd::of_obstacle(obstacle),
    };
    end.alone.code
}

/// Admits a tenant alone, does acts to its machine as `tb_machine_acts` does, and copies as many of
/// its pages as the array holds, each once, in no order. OK where it holds all; NO_ROOM where it
/// does not: `mapped` says how many there are. REFUSED and OUT_OF_MEMORY, where it is 0, leave the
/// array as it was, and REFUSED the acts too.
#[unsafe(no_mangle)]
#[tactic(auto, using(crate::proofs::Fuzzed::is_in_limits))]
pub extern "C" fn tb_machine_pages(
    alloc: Global,
    terms: &LentTerms<'_>,
    acts: &mut [MachineAct],
    pages: &mut [PageEntry],
    mapped: &mut u64,
) -> u32
    ensures codes { (result ≡ OK) ⊎ (result ≡ NO_ROOM) ⊎ (result ≡ REFUSED)
        ⊎ (result ≡ OUT_OF_MEMORY) }
    ensures pages { (result ≡ OK) ⊎ (result ≡ NO_ROOM)
        → HasPages terms.now acts.old pages.old pages.new mapped.new }
    ensures room { result ≡ OK → mapped.new ≤ length pages.old }
    ensures short { result ≡ NO_ROOM → length pages.old < mapped.new }
    ensures count { length acts.new ≡ length acts.old }
    ensures answers { (result ≡ OK) ⊎ (result ≡ NO_ROOM)
        → AreAnswered terms.now acts.old acts.new }
    ensures undone { result ≡ REFUSED → acts.new ≡ acts.old }
    ensures kept { (result ≡ REFUSED) ⊎ (result ≡ OUT_OF_MEMORY)
        → (pages.new ≡ pages.old) × (mapped.new ≡ 0) }
    ensures refused { result ≡ REFUSED → refusal_alone 0 (lent_start terms.now) ≢ None }
    ensures memory { result ≡ OUT_OF_MEMORY → is_bad (lent_start terms.now).terms ≡ false }
{
    *mapped = 0;
    let mut machine = match Lone::new(alloc, &terms.admission()) {
        Ok(machine) => machine,
        Err(Obstacle::Refused(_)) => return REFUSED,
        Err(Obstacle::OutOfMemory) => return OUT_OF_MEMORY,
    };
    make_acts(&mut machine, acts);
    let Ok(entries) = page_map(alloc, &machine.memory) else {
        return OUT_OF_MEMORY;
    };
    *mapped = entries.len() as u64;
    if copy_to(entries.as_slice(), pages) {
        OK
    } else {
        NO_ROOM
    }
}
