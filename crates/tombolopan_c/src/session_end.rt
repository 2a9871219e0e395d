//! The report of the end of a session.

ghost use Rattle.std.specs.Prelude.{◌≡◌};
ghost use Rattle.tombolopan_c.specs.LentSessions.{without_report, with_report, with_fault};

use crate::codes::{NO_ROOM, OK, SCRIPT};
use crate::refusal_codes::code_of_fault;
use mte_session::ScriptFault;

/// How a session ended.
#[repr(C)]
#[derive(Clone, Copy)]
pub struct SessionEnd {
    /// How many bytes the whole report has, for OK and NO_ROOM; else 0.
    pub length: u64,
    /// The script's first faulty line, from 1, for SCRIPT; else 0.
    pub line: u64,
    /// OK, NO_ROOM, SCRIPT, OUT_OF_MEMORY or BAD_ARGUMENT.
    pub code: u32,
    /// The fault of the line, from SYNTAX on, for SCRIPT; else 0.
    pub fault: u32,
}

impl SessionEnd {
    /// The end of a session without a report.
    pub(crate) fn of_code(code: u32) -> SessionEnd
        ensures { result ≡ without_report code }
    {
        SessionEnd {
            length: 0,
            line: 0,
            code,
            fault: 0,
        }
    }

    /// The end of a session with a report of `len` bytes, which a buffer holds or not.
    pub(crate) fn of_report(length: usize, fits: bool) -> SessionEnd
        ensures { result ≡ with_report length fits }
    {
        SessionEnd {
            length: length as u64,
            line: 0,
            code: if fits { OK } else { NO_ROOM },
            fault: 0,
        }
    }

    /// The end of a script with a faulty line.
    pub(crate) fn of_fault(line: u64, fault: ScriptFault) -> SessionEnd
        ensures { result ≡ with_fault line fault }
    {
        SessionEnd {
            length: 0,
            line,
            code: SCRIPT,
            fault: code_of_fault(fault),
        }
    }
}
