//! Why the program has nothing to say of a tenant, or cannot.

use crate::suppressions::SuppressionFault;
use crate::wrong::WrongWord;
use common::{Obstacle, Printable};
use mte_script::{ScriptError, ScriptFault};
use mte_streams::{ReadFault, WriteFault};
use std::alloc::{AllocError, AllocFailed};
use std::{fmt, io};

/// Why a file cannot be read or written.
#[derive(Clone, Copy)]
pub enum FileFault {
    /// There is no such file, or no such folder.
    Missing,
    /// Its permissions do not allow it.
    Forbidden,
    /// It is a folder.
    Folder,
    /// It has more bytes than are read.
    TooLong,
    /// Its disk has no space.
    Full,
    /// Anything else.
    Other,
}

impl FileFault {
    /// The meaning of an error of the system.
    fn of(error: &io::Error) -> FileFault {
        match error.kind() {
            io::ErrorKind::NotFound | io::ErrorKind::NotADirectory => FileFault::Missing,
            io::ErrorKind::PermissionDenied | io::ErrorKind::ReadOnlyFilesystem => {
                FileFault::Forbidden
            }
            io::ErrorKind::IsADirectory => FileFault::Folder,
            io::ErrorKind::StorageFull | io::ErrorKind::QuotaExceeded => FileFault::Full,
            _ => FileFault::Other,
        }
    }

    /// The text after the name of the file.
    fn reason(self) -> &'static str {
        match self {
            FileFault::Missing => ": no such file or folder",
            FileFault::Forbidden => ": permission denied",
            FileFault::Folder => ": it is a folder",
            FileFault::TooLong => ": it has more than 16 MiB",
            FileFault::Full => ": no space is left",
            FileFault::Other => "",
        }
    }
}

/// Why the program ends without a tenant's status.
#[derive(Clone, Copy)]
pub enum Failure<'a> {
    /// An allocation failed.
    Memory,
    /// A file could not be read; its name as it was given.
    Read(&'a str, FileFault),
    /// A stream could not be written.
    Write,
    /// A file could not be written; its name as it was given.
    WriteFile(&'a str, FileFault),
    /// A script's first faulty line, counted from 1, what is wrong with it, and which word.
    Script(u64, ScriptFault, WrongWord),
    /// The watch of the tenant's pointers could note no more, and why.
    Check(&'static str),
    /// A file of what is not told, by its name, has a line that is none.
    Suppressions(&'a str, SuppressionFault),
}

impl<'a> Failure<'a> {
    /// A file that cannot be read as a whole.
    pub fn of_read(fault: ReadFault, name: &'a str) -> Failure<'a> {
        match fault {
            ReadFault::OutOfMemory => Failure::Memory,
            ReadFault::Read => Failure::Read(name, FileFault::Other),
            ReadFault::TooLong => Failure::Read(name, FileFault::TooLong),
        }
    }

    /// A file that cannot be opened to be read.
    pub fn of_open(error: &io::Error, name: &'a str) -> Failure<'a> {
        if error.kind() == io::ErrorKind::OutOfMemory {
            Failure::Memory
        } else {
            Failure::Read(name, FileFault::of(error))
        }
    }

    /// A file that cannot be written as a whole.
    pub fn of_write(error: &io::Error, name: &'a str) -> Failure<'a> {
        if error.kind() == io::ErrorKind::OutOfMemory {
            Failure::Memory
        } else {
            Failure::WriteFile(name, FileFault::of(error))
        }
    }

    /// The failure of a script that cannot be read as one, with `files` files named.
    pub fn of_script(obstacle: &Obstacle<ScriptError>, script: &[u8], files: usize) -> Failure<'a> {
        match *obstacle {
            Obstacle::OutOfMemory => Failure::Memory,
            Obstacle::Refused(ScriptError { line, fault }) => {
                let wrong = WrongWord::of(script, line, fault, files);
                Failure::Script(line, fault, wrong)
            }
        }
    }

    /// The exit status.
    pub fn status(&self) -> u8 {
        match self {
            Failure::Memory | Failure::Check(_) => 4,
            Failure::Read(_, _) => 5,
            Failure::Write | Failure::WriteFile(_, _) => 6,
            Failure::Script(_, _, _) | Failure::Suppressions(_, _) => 3,
        }
    }
}

impl<'a> fmt::Display for Failure<'a> {
    fn fmt<W: fmt::Write>(&self, f: &mut fmt::Formatter<W>) -> fmt::Result {
        match self {
            Failure::Memory => f.write_str("out of memory"),
            Failure::Read(name, fault) => write_fault(f, "read", name, *fault),
            Failure::Write => f.write_str("cannot write"),
            Failure::WriteFile(name, fault) => write_fault(f, "write", name, *fault),
            Failure::Script(line, fault, wrong) => {
                write!(f, "script line {line}: {fault}: {wrong}")
            }
            Failure::Suppressions(name, fault) => {
                let name = Printable(name);
                write!(f, "{name} {fault}")
            }
            Failure::Check(why) => write!(f, "--check can note no more: {why}"),
        }
    }
}

/// Writes what cannot be done with a file, and why.
fn write_fault<W: fmt::Write>(
    f: &mut fmt::Formatter<W>,
    verb: &str,
    name: &str,
    fault: FileFault,
) -> fmt::Result {
    let (name, reason) = (Printable(name), fault.reason());
    write!(f, "cannot {verb} {name}{reason}")
}

impl<'a> From<AllocError> for Failure<'a> {
    fn from(_error: AllocError) -> Failure<'a> {
        Failure::Memory
    }
}

impl<'a, T: Drop> From<AllocFailed<T>> for Failure<'a> {
    fn from(_error: AllocFailed<T>) -> Failure<'a> {
        Failure::Memory
    }
}

impl<'a> From<WriteFault> for Failure<'a> {
    fn from(_error: WriteFault) -> Failure<'a> {
        Failure::Write
    }
}

impl<'a> From<io::Error> for Failure<'a> {
    fn from(error: io::Error) -> Failure<'a> {
        if error.kind() == io::ErrorKind::OutOfMemory {
            Failure::Memory
        } else {
            Failure::Write
        }
    }
}

/// Writes the line for standard error, and returns the exit status, whether or not the line could
/// be written.
pub fn report(rt: &HostRuntime, failure: &Failure<'_>) -> u8 {
    let _ = eprintln!(rt; "mte_run: {failure}");
    failure.status()
}
