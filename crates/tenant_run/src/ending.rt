//! How a tenant ended, and the exit status that says so.

ghost use Rattle.std.specs.Prelude.{◌≡◌};
ghost use Rattle.tenant_run.specs.Endings.{exit_status};

use mte_tenant::{Record, Status};
use std::fmt;

/// How a tenant ended. The exit status is 128 and the number of the way, or the tenant's own.
#[derive(Clone, Copy, PartialEq, Eq)]
pub enum TenantEnding {
    /// It exited.
    Exit = 0,
    /// An access failed.
    Fault = 1,
    /// In the asynchronous mode a tag differed.
    AsyncTag = 2,
    /// A check of a pointer that was handed to the heap failed.
    Abort = 3,
    /// A word is no instruction of the table.
    Illegal = 4,
    /// A breakpoint.
    Breakpoint = 5,
    /// The limit of steps was reached.
    StepLimit = 6,
    /// The slices were over, or it was stopped.
    NotEnded = 7,
    /// The image is refused, or the session never admits the tenant.
    Refused = 8,
    /// An access went beyond its chunk, where accesses are to keep to them; or it exited after what
    /// a check found.
    Exact = 9,
    /// It exited, but wrote more than there was room for, where its output is to be whole.
    Cut = 10,
}

/// How many ways there are.
pub const ENDINGS: usize = 11;

/// The exit status of a tenant that is refused.
pub const REFUSED: u8 = 136;

impl TenantEnding {
    /// The ending of a tenant that may attempt `limit` steps.
    pub fn of(log: &Record, limit: u64) -> TenantEnding {
        match log.status {
            Status::Exited(_) => TenantEnding::Exit,
            Status::Faulted(_, _) => TenantEnding::Fault,
            Status::AsyncTag(_) => TenantEnding::AsyncTag,
            Status::Aborted(_, _, _) => TenantEnding::Abort,
            Status::Illegal(_, _) => TenantEnding::Illegal,
            Status::Breakpoint(_, _) => TenantEnding::Breakpoint,
            Status::Running if log.steps >= limit => TenantEnding::StepLimit,
            Status::Running | Status::Stopped => TenantEnding::NotEnded,
        }
    }

    /// The exit status.
    pub fn status(self, log: &Record) -> u8
        ensures { result ≡ exit_status self log.now.status }
    {
        match log.status {
            Status::Exited(code) if self == TenantEnding::Exit => code,
            _ => 128 + self as u8,
        }
    }
}

impl fmt::Display for TenantEnding {
    fn fmt<W: fmt::Write>(&self, f: &mut fmt::Formatter<W>) -> fmt::Result {
        f.write_str(match self {
            TenantEnding::Exit => "exit",
            TenantEnding::Fault => "fault",
            TenantEnding::AsyncTag => "async",
            TenantEnding::Abort => "abort",
            TenantEnding::Illegal => "illegal word",
            TenantEnding::Breakpoint => "breakpoint",
            TenantEnding::StepLimit => "limit of steps",
            TenantEnding::NotEnded => "end of its slices",
            TenantEnding::Refused => "refusal",
            TenantEnding::Exact => "exact",
            TenantEnding::Cut => "output that was cut",
        })
    }
}

/// The way with a number.
pub fn ending_at(index: usize) -> TenantEnding {
    match index {
        0 => TenantEnding::Exit,
        1 => TenantEnding::Fault,
        2 => TenantEnding::AsyncTag,
        3 => TenantEnding::Abort,
        4 => TenantEnding::Illegal,
        5 => TenantEnding::Breakpoint,
        6 => TenantEnding::StepLimit,
        7 => TenantEnding::NotEnded,
        8 => TenantEnding::Refused,
        9 => TenantEnding::Exact,
        _ => TenantEnding::Cut,
    }
}

/// The last line of standard error: `ended by fault TagCheck, status 129`, and `exited with 129`
/// where the tenant's own exit status is one of the program's.
#[derive(Clone, Copy)]
pub struct LastLine<'a> {
    /// How it ended.
    pub ending: TenantEnding,
    /// Its record.
    pub log: &'a Record,
    /// The exit status of the program.
    pub status: u8,
    /// The option that found an access or a use at which it ended; none where none did.
    pub finder: Option<&'static str>,
}

impl<'a> LastLine<'a> {
    /// Whether it is written: not for an exit status that only a tenant has.
    pub fn is_told(&self) -> bool {
        let is_own = self.status == self.ending.status(self.log);
        !is_own || self.ending != TenantEnding::Exit || matches!(self.status, 2..=6 | 129..=138)
    }
}

impl<'a> fmt::Display for LastLine<'a> {
    fn fmt<W: fmt::Write>(&self, f: &mut fmt::Formatter<W>) -> fmt::Result {
        let (ending, status) = (self.ending, self.status);
        if let Some(finder) = self.finder {
            return write!(f, "ended by {finder}, status {status}");
        }
        match &self.log.status {
            _ if ending == TenantEnding::Cut => { write!(f, "ended by {ending}, status {status}") }
            Status::Exited(code) if ending == TenantEnding::Exact => {
                write!(
                    f,
                    "exited with {code} after what --check found, status {status}"
                )
            }
            Status::Exited(code) if *code != status => {
                write!(f, "exited with {code} and has lost chunks, status {status}")
            }
            Status::Exited(_) => write!(f, "exited with {status}"),
            Status::Faulted(fault, _) => {
                let kind = fault.kind;
                write!(f, "ended by {ending} {kind:?}, status {status}")
            }
            Status::Aborted(abort, _, _) => {
                write!(f, "ended by {ending} {abort}, status {status}")
            }
            _ => write!(f, "ended by {ending}, status {status}"),
        }
    }
}
