//! The sections that compilers write about an image's functions.

use crate::abbreviations::Abbreviations;
use crate::budget::Budget;
use crate::calls::{DEEPEST, InlinedCalls};
use crate::entry::Entry;
use crate::files::KnownFiles;
use crate::origin::UnitView;
use crate::scope::Scope;
use crate::search::Search;
use crate::sections::DebugSections;
use crate::unit::{CompilationUnit, UnitBytes};
use crate::value::number;
use debug_lines::{DebugLines, UnitFiles};
use std::alloc::{AllocError, Global};

/// How many calls are found at most, for each address.
const CALLS: usize = 16;

/// How many there may be besides.
const MORE_CALLS: usize = 1024;

/// The entries of an image's functions.
#[derive(Clone, Copy)]
pub struct DebugInfo<'a> {
    sections: DebugSections<'a>,
    lines: DebugLines<'a>,
}

impl<'a> DebugInfo<'a> {
    /// The entries of a file: `.debug_info`, and the sections that it refers to. A section that is
    /// not there, is not in the file or is compressed is empty.
    pub fn of(file: &'a [u8]) -> DebugInfo<'a> {
        DebugInfo {
            sections: DebugSections::of(file),
            lines: DebugLines::of(file),
        }
    }

    /// The inlined calls that some addresses are in. `.debug_info` is gone through once, and only
    /// in its units of versions 4 and 5 of the 32-bit format. A unit is read up to an entry that
    /// can't be read, and nothing more is found once so much was read as ten large programs have.
    pub fn inlined_calls(
        &self,
        alloc: Global,
        addresses: &[u64],
    ) -> Result<InlinedCalls<'a>, AllocError> {
        let most = addresses
            .len()
            .saturating_mul(CALLS)
            .saturating_add(MORE_CALLS);
        let mut search = Search {
            budget: Budget::FULL,
            found: InlinedCalls::none(alloc, addresses, most)?,
            most,
            open: Vec::with_capacity(alloc, DEEPEST as usize)?,
            files: KnownFiles::of(None),
        };
        let mut table = Abbreviations::new(alloc);
        let mut at = 0;
        for _ in 0..search.budget.left() {
            let Some(bytes) = self.next_unit(&mut search, at) else {
                break;
            };
            at = bytes.end;
            if let Some(unit) = bytes.unit() {
                self.load(&mut table, &unit, &mut search)?;
                self.search(&mut search, &unit, &table);
            }
        }
        Ok(search.found)
    }

    /// The unit at an offset, while there is something left to be spent.
    fn next_unit(&self, search: &mut Search<'a>, at: u64) -> Option<UnitBytes<'a>> {
        search.budget.spend(1)?;
        UnitBytes::at(self.sections.info, at)
    }

    /// Reads the abbreviations of a unit.
    fn load(
        &self,
        table: &mut Abbreviations<'a>,
        unit: &CompilationUnit<'a>,
        search: &mut Search<'a>,
    ) -> Result<(), AllocError> {
        let section = self.sections.abbreviations;
        table.load(section, unit.abbreviations, &mut search.budget)
    }

    /// Searches a unit.
    fn search(
        &self,
        search: &mut Search<'a>,
        unit: &CompilationUnit<'a>,
        table: &Abbreviations<'a>,
    ) -> Option<()> {
        let mut entries = unit.entries;
        let first = table.of(number(&mut entries)?)?;
        let entry = Entry::read(&first, &mut entries, &mut search.budget)?;
        if !first.has_children {
            return None;
        }
        search.files = KnownFiles::of(self.files(&entry));
        let view = UnitView {
            unit: *unit,
            scope: Scope::of(&self.sections, &entry),
            table,
        };
        search.search(&view, &entry, entries)
    }

    /// The files of a unit, by its first entry.
    fn files(&self, entry: &Entry<'a>) -> Option<UnitFiles<'a>> {
        self.lines.files_of(entry.lines.offset()?)
    }
}
