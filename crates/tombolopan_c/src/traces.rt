//! The export of a run whose instructions and accesses are entered in arrays of the caller.

ghost use Rattle.std.specs.Prelude.{◌≡◌, false, true};
ghost use Rattle.tombolopan.specs.Traces.{arrays, trace_of};
ghost use Rattle.tombolopan_c.specs.LentPages.{lent_memory, state_of};
ghost use Rattle.tombolopan_c.specs.LentRegisters.{regs_of};
ghost use Rattle.tombolopan_c.specs.LentTraces.{is_request, end_report, no_steps, HasTraced};
ghost use Rattle.tombolopan_c.specs.declared.codes.TheConstants.{BAD_ARGUMENT};

use crate::codes::{BAD_ARGUMENT, NO_ROOM, STOPPED};
use crate::faults::FaultReport;
use crate::lent::{Lent, LentTagState};
use crate::lent_page::LentPage;
use crate::lent_regs::LentRegs;
use crate::stops::StopReport;
use a64_step::Stop;
use tombolopan::{TraceArrays, TraceEnd, TraceRequest, run_traced};

/// How a traced run ended.
#[repr(C)]
#[derive(Clone, Copy)]
pub struct TraceReport {
    /// The instructions that were attempted.
    pub steps: u64,
    /// The instructions that are entered.
    pub instructions: u64,
    /// The accesses that are entered.
    pub accesses: u64,
    /// The answer of the call.
    pub code: u32,
    /// The number of BREAKPOINT, or the word of ILLEGAL; else 0.
    pub number: u32,
    /// The fault of FAULT.
    pub fault: FaultReport,
}

impl TraceReport {
    /// The report of a run that is not begun.
    fn refused() -> TraceReport
        ensures { result ≡ no_steps }
    {
        TraceReport {
            steps: 0,
            instructions: 0,
            accesses: 0,
            code: BAD_ARGUMENT,
            number: 0,
            fault: FaultReport::none(),
        }
    }

    /// The report of the end of a run.
    fn of(end: &TraceEnd) -> TraceReport
        ensures report { result ≡ end_report end.now }
        ensures steps { result.steps ≡ end.now.steps }
    {
        let told = StopReport::of(&Stop {
            outcome: end.outcome,
            left: 0,
        });
        let code = if end.reached {
            STOPPED
        } else if end.full {
            NO_ROOM
        } else {
            told.code
        };
        TraceReport {
            steps: end.steps,
            instructions: end.instructions as u64,
            accesses: end.accesses as u64,
            code,
            number: told.number,
            fault: told.fault,
        }
    }
}

/// Whether ranges begin before they end, and kinds are kinds.
fn is_in_range(request: &TraceRequest<'_>) -> bool
    ensures { result ≡ is_request request.now }
{
    request.code_low <= request.code_high && request.low <= request.high && request.kinds < 16
}

/// Attempts at most `request.steps` instructions, and enters those that are fetched and the
/// accesses that are completed, as far as they are asked for, from the start of the arrays on. It
/// stops after the first instruction whose answer is not OK, or after which the PC is one of the
/// stops, and before an instruction where an array is full: its answer is STOPPED or NO_ROOM then.
/// BAD_ARGUMENT, where a range is empty or a kind is none, changes nothing but `end`.
#[unsafe(no_mangle)]
pub extern "C" fn tb_run_traced(
    pages: &mut [LentPage],
    state: &mut LentTagState,
    regs: &mut LentRegs,
    request: &TraceRequest<'_>,
    entered: &mut TraceArrays<'_>,
    end: &mut TraceReport,
) -> u32
    ensures code { result ≡ end.new.code }
    ensures refused { is_request request.now ≡ false → end.new ≡ no_steps }
    ensures kept_regs { is_request request.now ≡ false → regs.new ≡ regs.old }
    ensures kept_memory { is_request request.now ≡ false
        → lent_memory (state_of state.new) pages.new ≡ lent_memory (state_of state.old) pages.old }
    ensures kept_lists { is_request request.now ≡ false
        → entered.new.instructions.now ≡ entered.old.instructions.now }
    ensures kept_accesses { is_request request.now ≡ false
        → entered.new.accesses.now ≡ entered.old.accesses.now }
    ensures memory { is_request request.now ≡ true
        → lent_memory (state_of state.new) pages.new
        ≡ (trace_of end.new.steps request.now (regs_of regs.old)
        (lent_memory (state_of state.old) pages.old)).memory }
    ensures traced { is_request request.now ≡ true
        → HasTraced request.now (regs_of regs.old) (lent_memory (state_of state.old) pages.old)
        (arrays entered.old.instructions.now entered.old.accesses.now) end.new
        (regs_of regs.new) (arrays entered.new.instructions.now entered.new.accesses.now) }
{
    if !is_in_range(request) {
        *end = TraceReport::refused();
        return end.code;
    }
    let mut memory = Lent::new(pages, state);
    let mut own = regs.regs();
    let ended = run_traced(
        &mut own,
        &mut memory,
        request,
        &mut *entered.instructions,
        &mut *entered.accesses,
    );
    regs.set(&own);
    *end = TraceReport::of(&ended);
    end.code
}
