//! Suppressions of findings: lines of a kind, a function and a source file.

use crate::kind_words::{CheckKind, NAMES};
use common::Obstacle;
use std::alloc::{AllocError, Global};
use std::fmt;

/// The word for any kind, function or file.
const ANY: &str = "*";

/// The faults of a line.
#[derive(Clone, Copy, PartialEq, Eq)]
pub enum LineFault {
    /// There are fewer than three words.
    Short,
    /// The first word is no kind.
    Kind,
}

/// A line that is none.
#[derive(Clone, Copy, PartialEq, Eq)]
pub struct SuppressionFault {
    /// The line's number, from 1.
    pub line: u64,
    /// Its fault.
    pub fault: LineFault,
}

impl fmt::Display for SuppressionFault {
    fn fmt<W: fmt::Write>(&self, f: &mut fmt::Formatter<W>) -> fmt::Result {
        let line = self.line;
        write!(f, "line {line}: ")?;
        match self.fault {
            LineFault::Short => f.write_str("there should be a kind, a function and a file"),
            LineFault::Kind => write!(f, "the first word should be {NAMES} or *"),
        }
    }
}

/// A suppression: where a kind of finding has a function and a source file in one of its calls.
#[derive(Drop)]
struct Suppression {
    /// The kind; any where it is not named.
    kind: Option<CheckKind>,
    function: String,
    file: String,
}

/// All that is not told.
pub struct Suppressions {
    all: Vec<Suppression>,
}

impl Drop for Suppressions {
    fn drop(self) {
        let Suppressions { all: _ } = self;
    }
}

impl Suppressions {
    /// Nothing.
    pub fn none(alloc: Global) -> Suppressions {
        Suppressions {
            all: Vec::new(alloc),
        }
    }

    /// Those of a text: in each line a kind, a function's name and the last part of a source file's
    /// path, with blanks between them. `*` is any of them, and ends a name of which only the
    /// beginning is given. The name may have blanks of its own. Empty lines and lines from a `#` on
    /// are left out.
    pub fn parse(alloc: Global, text: &str) -> Result<Suppressions, Obstacle<SuppressionFault>> {
        let mut suppressions = Suppressions::none(alloc);
        for (line, number) in text.split('\n').zip(1u64..u64::MAX) {
            let line = line.trim();
            if !line.is_empty() && !line.starts_with('#') {
                match suppressions.enter(alloc, line)? {
                    None => {}
                    Some(fault) => {
                        return Err(Obstacle::Refused(SuppressionFault {
                            line: number,
                            fault,
                        }));
                    }
                }
            }
        }
        Ok(suppressions)
    }

    /// Enters a line; what is wrong with it, if something is.
    fn enter(&mut self, alloc: Global, line: &str) -> Result<Option<LineFault>, AllocError> {
        let Some((kind, rest)) = line.split_once(' ') else {
            return Ok(Some(LineFault::Short));
        };
        let Some((function, file)) = rest.trim().rsplit_once(' ') else {
            return Ok(Some(LineFault::Short));
        };
        let known = CheckKind::of(kind);
        if known.is_none() && kind != ANY {
            return Ok(Some(LineFault::Kind));
        }
        let function = String::from_str(alloc, function.trim())?;
        let file = String::from_str(alloc, file)?;
        self.all.push(Suppression {
            kind: known,
            function,
            file,
        })?;
        Ok(None)
    }

    /// Whether there are none.
    pub fn is_empty(&self) -> bool {
        self.all.is_empty()
    }

    /// Whether a finding is not told which has a function and a source file, as far as they are
    /// known, in one of its calls.
    pub fn hides(&self, kind: CheckKind, function: Option<&str>, file: Option<&str>) -> bool {
        self.all.iter().any(|one| {
            (one.kind.is_none() || one.kind == Some(kind))
                && is_meant(one.function.as_str(), function)
                && is_meant(one.file.as_str(), file)
        })
    }
}

/// Whether a pattern means a name: any, one with a beginning, or this one.
fn is_meant(pattern: &str, name: Option<&str>) -> bool {
    if pattern == ANY {
        return true;
    }
    let Some(name) = name else {
        return false;
    };
    match pattern.strip_suffix(ANY) {
        Some(start) => name.starts_with(start),
        None => name == pattern,
    }
}
