//! The report of a tenant alone.

ghost use Rattle.std.specs.Prelude.{◌≡◌};
ghost use Rattle.tombolopan_c.specs.LoneTenants.{end_without, told_end, without_tenant};

use crate::codes::{NO_REFUSAL, OUT_OF_MEMORY, REFUSED};
use crate::refusal_codes::code_of_refusal;
use crate::status_report::StatusReport;
use common::Obstacle;
use mte_tenant::{AdmitError, Record};

/// How a tenant alone ended.
#[repr(C)]
#[derive(Clone, Copy)]
pub struct AloneEnd {
    /// How many instructions it attempted.
    pub steps: u64,
    /// How many bytes it wrote.
    pub output: u64,
    /// How many heap calls it made.
    pub calls: u64,
    /// How many of these are kept, the last 64 at most.
    pub kept: u64,
    /// Its status.
    pub status: StatusReport,
    /// OK, NO_ROOM, REFUSED or OUT_OF_MEMORY.
    pub code: u32,
    /// Why it was refused, from BAD_RESERVATION on, for REFUSED; else 0.
    pub refusal: u32,
}

impl AloneEnd {
    /// The end of a tenant that was not admitted.
    pub(crate) fn of_obstacle(obstacle: Obstacle<AdmitError>) -> AloneEnd
        ensures { result ≡ end_without obstacle }
    {
        let (code, refusal) = match obstacle {
            Obstacle::OutOfMemory => (OUT_OF_MEMORY, NO_REFUSAL),
            Obstacle::Refused(error) => (REFUSED, code_of_refusal(error)),
        };
        AloneEnd::without_tenant(code, refusal)
    }

    /// The end where no tenant has run.
    pub(crate) fn without_tenant(code: u32, refusal: u32) -> AloneEnd
        ensures { result ≡ without_tenant code refusal }
    {
        AloneEnd {
            steps: 0,
            output: 0,
            calls: 0,
            kept: 0,
            status: StatusReport::none(),
            code,
            refusal,
        }
    }

    /// The end of a tenant with a record.
    pub(crate) fn of_record(code: u32, log: &Record) -> AloneEnd
        ensures { result ≡ told_end code log.now }
    {
        AloneEnd {
            steps: log.steps,
            output: log.output.as_slice().len() as u64,
            calls: log.calls.count(),
            kept: log.calls.kept() as u64,
            status: StatusReport::of(&log.status),
            code,
            refusal: NO_REFUSAL,
        }
    }
}
