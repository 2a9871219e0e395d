//! A run that also stops at some addresses, and its export.

ghost use Rattle.std.specs.Prelude.{◌≡◌, ◌<◌};
ghost use Rattle.tombolopan_c.specs.LentPages.{lent_memory, state_of};
ghost use Rattle.tombolopan_c.specs.LentRegisters.{regs_of};
ghost use Rattle.tombolopan_c.specs.RunsUntil.{run_until_of, until_report};

use crate::lent::{Lent, LentTagState};
use crate::lent_page::LentPage;
use crate::lent_regs::LentRegs;
use crate::stops::StopReport;
use a64_step::{Outcome, Regs, Stop, step};
use mte_tags::Tagged;

/// Attempts at most `steps` instructions, and stops after the first whose answer is not OK, or
/// after which the PC is one of `stops`: its answer is STOPPED then, unless it was another already.
#[unsafe(no_mangle)]
pub extern "C" fn tb_run_until(
    pages: &mut [LentPage],
    state: &mut LentTagState,
    regs: &mut LentRegs,
    steps: u64,
    stops: &[u64],
    stop: &mut StopReport,
) -> u32
    ensures code { result ≡ stop.new.code }
    ensures stop { stop.new ≡ until_report
        (run_until_of steps stops.now (regs_of regs.old)
        (lent_memory (state_of state.old) pages.old)).stop
        (run_until_of steps stops.now (regs_of regs.old)
        (lent_memory (state_of state.old) pages.old)).reached }
    ensures regs { regs_of regs.new
        ≡ (run_until_of steps stops.now (regs_of regs.old)
        (lent_memory (state_of state.old) pages.old)).regs }
    ensures memory { lent_memory (state_of state.new) pages.new
        ≡ (run_until_of steps stops.now (regs_of regs.old)
        (lent_memory (state_of state.old) pages.old)).memory }
{
    let mut memory = Lent::new(pages, state);
    let mut own = regs.regs();
    let (end, reached) = run_until(&mut own, &mut memory, steps, stops);
    regs.set(&own);
    *stop = StopReport::until(&end, reached);
    stop.code
}

/// Attempts at most `steps` instructions, and stops at the first outcome that is not `Next`, or
/// where the PC is one of `stops` after one. Returns how it ended, and whether it was there.
fn run_until<M: Tagged>(regs: &mut Regs, memory: &mut M, steps: u64, stops: &[u64]) -> (Stop, bool)
    ensures stop { result.0 ≡ (run_until_of steps stops.now regs.old (M.memory memory.old)).stop }
    ensures reached { result.1
        ≡ (run_until_of steps stops.now regs.old (M.memory memory.old)).reached }
    ensures regs { regs.new
        ≡ (run_until_of steps stops.now regs.old (M.memory memory.old)).regs }
    ensures memory { M.memory memory.new
        ≡ (run_until_of steps stops.now regs.old (M.memory memory.old)).memory }
    ensures kept { M.kept memory.old memory.new }
    ensures tag { regs.old.rgsr.tag < 16 → regs.new.rgsr.tag < 16 }
{
    for i in 0..steps {
        let left = steps - i - 1;
        match step(regs, memory) {
            Outcome::Next => {
                if stops.contains(&regs.pc) {
                    return (
                        Stop {
                            outcome: None,
                            left,
                        },
                        true,
                    );
                }
            }
            other => {
                return (
                    Stop {
                        outcome: Some(other),
                        left,
                    },
                    false,
                );
            }
        }
    }
    (
        Stop {
            outcome: None,
            left: 0,
        },
        false,
    )
}
