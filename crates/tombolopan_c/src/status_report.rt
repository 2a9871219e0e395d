//! The report of a tenant's status.

ghost use Rattle.std.specs.Prelude.{◌≡◌};
ghost use Rattle.tombolopan_c.specs.LoneTenants.{plain_status, status_told};
ghost use Rattle.tombolopan_c.specs.declared.codes.TheConstants.{STATUS_NONE};

use crate::codes::{
    STATUS_ABORT, STATUS_ASYNC, STATUS_BREAK, STATUS_EXIT, STATUS_FAULT, STATUS_ILLEGAL,
    STATUS_NONE, STATUS_RUNNING, STATUS_STOPPED,
};
use crate::faults::FaultReport;
use crate::refusal_codes::code_of_abort;
use mte_tenant::Status;

/// A tenant's status, or zero in all fields where there is none.
#[repr(C)]
#[derive(Clone, Copy)]
pub struct StatusReport {
    /// From STATUS_RUNNING on; 0 where there is no tenant.
    pub status: u32,
    /// The code of STATUS_EXIT, the word of STATUS_ILLEGAL, the number of STATUS_BREAK, of
    /// STATUS_ABORT why, from MISALIGNED on; else 0.
    pub number: u32,
    /// The address of the instruction; 0 for STATUS_RUNNING, STATUS_EXIT and STATUS_STOPPED.
    pub pc: u64,
    /// The pointer of STATUS_ABORT; else 0.
    pub pointer: u64,
    /// The fault of STATUS_FAULT; else zero.
    pub fault: FaultReport,
}

impl StatusReport {
    /// The report of no tenant.
    pub(crate) fn none() -> StatusReport
        ensures { result ≡ plain_status STATUS_NONE 0 0 }
    {
        StatusReport::plain(STATUS_NONE, 0, 0)
    }

    /// One without a pointer or a fault.
    fn plain(status: u32, number: u32, pc: u64) -> StatusReport
        ensures { result ≡ plain_status status number pc }
    {
        StatusReport {
            status,
            number,
            pc,
            pointer: 0,
            fault: FaultReport::none(),
        }
    }

    /// The report of a status.
    pub(crate) fn of(status: &Status) -> StatusReport
        ensures { result ≡ status_told status.now }
    {
        match status {
            Status::Running => StatusReport::plain(STATUS_RUNNING, 0, 0),
            Status::Stopped => StatusReport::plain(STATUS_STOPPED, 0, 0),
            Status::Exited(code) => StatusReport::plain(STATUS_EXIT, u32::from(*code), 0),
            Status::Illegal(word, pc) => StatusReport::plain(STATUS_ILLEGAL, *word, *pc),
            Status::Breakpoint(number, pc) => {
                StatusReport::plain(STATUS_BREAK, u32::from(*number), *pc)
            }
            Status::AsyncTag(pc) => StatusReport::plain(STATUS_ASYNC, 0, *pc),
            Status::Faulted(fault, pc) => StatusReport {
                fault: FaultReport::of(fault),
                ..StatusReport::plain(STATUS_FAULT, 0, *pc)
            },
            Status::Aborted(abort, pointer, pc) => StatusReport {
                pointer: *pointer,
                ..StatusReport::plain(STATUS_ABORT, code_of_abort(*abort) as u32, *pc)
            },
        }
    }
}
