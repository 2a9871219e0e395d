//! The acts that read and write registers.

ghost use Rattle.std.specs.Prelude.{◌≡◌};
ghost use Rattle.tombolopan_c.specs.Acts.{register_read, after_set};

use crate::act::MachineAct;
use crate::act_kinds::{PC, SP};
use a64_registers::Regs;

/// Reads a register.
pub(crate) fn get(regs: &Regs, act: &MachineAct) -> MachineAct
    ensures { result ≡ register_read regs.now act.now }
{
    match act.number {
        PC => act.with(regs.pc),
        n if n <= SP => act.with(regs.get_or_sp(n as u8)),
        _ => act.without_act(),
    }
}

/// Writes a register.
#[rattlefmt::skip]
#[tactic(auto, unfolding(
    a64_registers::specs::Registers::with_pc,
    a64_registers::specs::Registers::with_register_or_sp
))]
pub(crate) fn set(regs: &mut Regs, act: &MachineAct) -> MachineAct
    ensures act { result ≡ (after_set regs.old act.now).act }
    ensures regs { regs.new ≡ (after_set regs.old act.now).regs }
    ensures rgsr { regs.new.rgsr ≡ regs.old.rgsr }
{
    match act.number {
        PC => regs.jump(act.value),
        n if n <= SP => regs.set_or_sp(n as u8, act.value),
        _ => return act.without_act(),
    }
    act.with(0)
}
