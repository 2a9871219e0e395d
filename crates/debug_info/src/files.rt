//! The files of a unit, of which some are kept.

use crate::budget::Budget;
use debug_lines::{FileLine, UnitFiles};

/// How many files are kept.
const KEPT: usize = 32;

/// A file that was looked for, and its number.
#[derive(Clone, Copy)]
struct KnownFile<'a> {
    number: u64,
    line: Option<FileLine<'a>>,
}

/// The files of a unit.
#[derive(Clone, Copy)]
pub struct KnownFiles<'a> {
    files: Option<UnitFiles<'a>>,
    /// Each at its number modulo `KEPT`.
    kept: [Option<KnownFile<'a>>; KEPT],
}

impl<'a> KnownFiles<'a> {
    /// The files of a unit, of which none is kept yet.
    pub fn of(files: Option<UnitFiles<'a>>) -> KnownFiles<'a> {
        KnownFiles {
            files,
            kept: [None; KEPT],
        }
    }

    /// A line in the file of a number.
    pub fn line_in(&mut self, number: u64, line: u32, budget: &mut Budget) -> Option<FileLine<'a>> {
        let known = self.file(number, budget)?;
        Some(FileLine {
            path: known.path,
            directory: known.directory,
            line,
        })
    }

    /// A line in the file of a number, whichever. To look for the file costs as much as the unit's
    /// tables have bytes.
    fn file(&mut self, number: u64, budget: &mut Budget) -> Option<FileLine<'a>> {
        let place = (number % KEPT as u64) as usize;
        if let Some(known) = self.kept[place] {
            if known.number == number {
                return known.line;
            }
        }
        let files = self.files?;
        budget.spend(files.size())?;
        let line = files.line_in(number, 0);
        self.kept[place] = Some(KnownFile { number, line });
        line
    }
}
