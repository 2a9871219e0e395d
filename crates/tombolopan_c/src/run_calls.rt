//! The exports that attempt instructions.

ghost use Rattle.std.specs.Prelude.{◌≡◌, Some};
ghost use Rattle.a64_step.specs.Steps.{step_of, run_of};
ghost use Rattle.tombolopan_c.specs.LentPages.{lent_memory, state_of};
ghost use Rattle.tombolopan_c.specs.LentRegisters.{regs_of};
ghost use Rattle.tombolopan_c.specs.Stops.{stop_code, stop_report};

use crate::lent::{Lent, LentTagState};
use crate::lent_page::LentPage;
use crate::lent_regs::LentRegs;
use crate::stops::StopReport;
use a64_step::{Decoder, Stop, run, step};

/// Attempts the instruction at the PC. OK is the only answer after which a register or the memory
/// differs, but for bits that do not count; after any other the PC is still at the instruction.
#[unsafe(no_mangle)]
pub extern "C" fn tb_step(
    pages: &mut [LentPage],
    state: &mut LentTagState,
    regs: &mut LentRegs,
    stop: &mut StopReport,
) -> u32
    ensures code { result
        ≡ stop_code
        (Some (step_of (regs_of regs.old) (lent_memory (state_of state.old) pages.old)).outcome) }
    ensures stop { stop.new
        ≡ stop_report
        (record {
          outcome = Some (step_of (regs_of regs.old)
              (lent_memory (state_of state.old) pages.old)).outcome;
          left = 0;
        }) }
    ensures regs { regs_of regs.new
        ≡ (step_of (regs_of regs.old) (lent_memory (state_of state.old) pages.old)).regs }
    ensures memory { lent_memory (state_of state.new) pages.new
        ≡ (step_of (regs_of regs.old) (lent_memory (state_of state.old) pages.old)).memory }
{
    let mut memory = Lent::new(pages, state);
    let mut own = regs.regs();
    let outcome = step(&mut own, &mut memory);
    regs.set(&own);
    *stop = StopReport::of(&Stop {
        outcome: Some(outcome),
        left: 0,
    });
    stop.code
}

/// Attempts at most `steps` instructions, and stops after the first whose answer is not OK; a step
/// each, as `tb_step` does it.
#[unsafe(no_mangle)]
pub extern "C" fn tb_run(
    pages: &mut [LentPage],
    state: &mut LentTagState,
    regs: &mut LentRegs,
    steps: u64,
    stop: &mut StopReport,
) -> u32
    ensures code { result
        ≡ stop_code (run_of steps (regs_of regs.old)
        (lent_memory (state_of state.old) pages.old)).stop.outcome }
    ensures stop { stop.new
        ≡ stop_report (run_of steps (regs_of regs.old)
        (lent_memory (state_of state.old) pages.old)).stop }
    ensures regs { regs_of regs.new
        ≡ (run_of steps (regs_of regs.old) (lent_memory (state_of state.old) pages.old)).regs }
    ensures memory { lent_memory (state_of state.new) pages.new
        ≡ (run_of steps (regs_of regs.old) (lent_memory (state_of state.old) pages.old)).memory }
{
    let mut decoder = Decoder::new();
    let mut memory = Lent::new(pages, state);
    let mut own = regs.regs();
    let end = run(&mut decoder, &mut own, &mut memory, steps);
    regs.set(&own);
    *stop = StopReport::of(&end);
    stop.code
}
