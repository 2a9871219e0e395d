//! The report of the end of a step or a run.

ghost use Rattle.std.specs.Prelude.{◌≡◌};
ghost use Rattle.tombolopan_c.specs.RunsUntil.{until_report};
ghost use Rattle.tombolopan_c.specs.Stops.{stop_report};

use crate::codes::{BREAKPOINT, FAULT, ILLEGAL, OK, STOPPED, SVC};
use crate::faults::FaultReport;
use a64_step::{Outcome, Stop};

/// How a step or a run ended.
#[repr(C)]
#[derive(Clone, Copy)]
pub struct StopReport {
    /// The steps that were not attempted.
    pub left: u64,
    /// OK, FAULT, SVC, BREAKPOINT, ILLEGAL or STOPPED.
    pub code: u32,
    /// The number of BREAKPOINT, or the word of ILLEGAL; else 0.
    pub number: u32,
    /// The fault of FAULT.
    pub fault: FaultReport,
}

impl StopReport {
    /// The report of the end of a run.
    pub(crate) fn of(stop: &Stop) -> StopReport
        ensures { result ≡ stop_report stop.now }
    {
        let (code, number, fault) = match stop.outcome {
            None | Some(Outcome::Next) => (OK, 0, FaultReport::none()),
            Some(Outcome::Svc) => (SVC, 0, FaultReport::none()),
            Some(Outcome::Fault(fault)) => (FAULT, 0, FaultReport::of(&fault)),
            Some(Outcome::Illegal(word)) => (ILLEGAL, word, FaultReport::none()),
            Some(Outcome::Breakpoint(number)) => {
                (BREAKPOINT, u32::from(number), FaultReport::none())
            }
        };
        StopReport {
            left: stop.left,
            code,
            number,
            fault,
        }
    }

    /// The stop of a run that may have come to one of its addresses.
    pub(crate) fn until(stop: &Stop, reached: bool) -> StopReport
        ensures { result ≡ until_report stop.now reached }
    {
        let told = StopReport::of(stop);
        StopReport {
            code: if reached { STOPPED } else { told.code },
            ..told
        }
    }
}
