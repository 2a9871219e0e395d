//! The faults of a script.

ghost use Rattle.std.specs.Prelude.{◌≡◌, Some};
ghost use Rattle.mte_script.specs.Faults.{fault_name};

use std::fmt;
use thiserror::Error;

/// The faults of a line, in the order in which they are tested.
#[derive(Clone, Copy, Debug, PartialEq, Eq)]
pub enum ScriptFault {
    /// It has not the form of an event.
    Syntax,
    /// A number exceeds its limit.
    BadNumber,
    /// It names a file that is not there.
    NoSuchFile,
    /// It is the 10001st event.
    TooManyEvents,
}

impl ScriptFault {
    /// Its name, as the program's line on standard error gives it.
    pub fn name(self) -> &'static str
        ensures { result.now ≡ fault_name self }
    {
        match self {
            ScriptFault::Syntax => "Syntax",
            ScriptFault::BadNumber => "BadNumber",
            ScriptFault::NoSuchFile => "NoSuchFile",
            ScriptFault::TooManyEvents => "TooManyEvents",
        }
    }
}

impl fmt::Display for ScriptFault {
    ghost output = { λ fault. Some (fault_name fault) };

    fn fmt<W: fmt::Write>(&self, f: &mut fmt::Formatter<W>) -> fmt::Result {
        f.write_str(self.name())
    }
}

impl std::error::Error for ScriptFault {}

/// Why a script is refused: its first faulty line, and what is wrong with it.
#[derive(Clone, Copy, Debug, PartialEq, Eq, Error)]
#[error("line {line}: {fault}")]
pub struct ScriptError {
    /// The line, counted from 1.
    pub line: u64,
    /// The first of its faults.
    pub fault: ScriptFault,
}
