//! The names of functions, which other entries than the call's may have (DWARF 5, 3.3.8.2).

use crate::abbreviations::{Abbreviations, find_abbreviation};
use crate::budget::Budget;
use crate::entry::Entry;
use crate::scope::Scope;
use crate::sections::DebugSections;
use crate::unit::{CompilationUnit, UnitBytes};
use crate::value::{AttributeValue, number};
use debug_lines::Reader;

/// How many entries are looked at after the first.
const FOLLOWED: u32 = 4;

/// A unit, its abbreviations and what its values mean.
#[derive(Clone, Copy)]
pub struct UnitView<'t, 'a> {
    pub unit: CompilationUnit<'a>,
    pub scope: Scope<'a>,
    pub table: &'t Abbreviations<'a>,
}

/// An entry, and the unit that it is in.
#[derive(Clone, Copy)]
struct PlacedEntry<'a> {
    unit: CompilationUnit<'a>,
    scope: Scope<'a>,
    entry: Entry<'a>,
}

impl<'t, 'a> UnitView<'t, 'a> {
    /// The name of the function that an entry is about. One for linkers is the name where there is
    /// no other.
    pub fn name(&self, entry: &Entry<'a>, budget: &mut Budget) -> Option<&'a [u8]> {
        let mut place = PlacedEntry {
            unit: self.unit,
            scope: self.scope,
            entry: *entry,
        };
        let mut linkage = None;
        for _ in 0..=FOLLOWED {
            if let Some(name) = place.scope.name(&place.entry.name) {
                return Some(name);
            }
            linkage = linkage.or(place.scope.name(&place.entry.linkage_name));
            match self.origin(&place, budget) {
                Some(origin) => place = origin,
                None => break,
            }
        }
        linkage
    }

    /// The entry that says more of the function.
    fn origin(&self, place: &PlacedEntry<'a>, budget: &mut Budget) -> Option<PlacedEntry<'a>> {
        match place.entry.origin {
            AttributeValue::EntryInUnit(offset) => {
                let entry = self.entry_at(&place.unit, offset, budget)?;
                Some(PlacedEntry {
                    unit: place.unit,
                    scope: place.scope,
                    entry,
                })
            }
            AttributeValue::EntryInSection(offset) => self.entry_in_section(offset, budget),
            _ => None,
        }
    }

    /// The entry at an offset of `.debug_info`.
    fn entry_in_section(&self, offset: u64, budget: &mut Budget) -> Option<PlacedEntry<'a>> {
        let sections = &self.scope.sections;
        let unit = unit_around(sections, offset, budget)?;
        let first = self.entry(&unit, unit.entries, budget)?;
        let entry = self.entry_at(&unit, offset.checked_sub(unit.offset)?, budget)?;
        Some(PlacedEntry {
            unit,
            scope: Scope::of(sections, &first),
            entry,
        })
    }
    /// The entry at an offset of a unit.
    fn entry_at(
        &self,
        unit: &CompilationUnit<'a>,
        offset: u64,
        budget: &mut Budget,
    ) -> Option<Entry<'a>> {
        self.entry(unit, unit.entries_at(offset)?, budget)
    }

    /// The first entry of some bytes of a unit.
    fn entry(
        &self,
        unit: &CompilationUnit<'a>,
        mut entries: Reader<'a>,
        budget: &mut Budget,
    ) -> Option<Entry<'a>> {
        let code = number(&mut entries)?;
        let at = unit.abbreviations;
        let abbreviation = if at == self.unit.abbreviations {
            self.table.of(code)?
        } else {
            find_abbreviation(self.scope.sections.abbreviations, at, code, budget)?
        };
        Entry::read(&abbreviation, &mut entries, budget)
    }
}

/// The unit that an offset of `.debug_info` is in.
fn unit_around<'a>(
    sections: &DebugSections<'a>,
    offset: u64,
    budget: &mut Budget,
) -> Option<CompilationUnit<'a>> {
    let mut at = 0;
    for _ in 0..budget.left() {
        budget.spend(1)?;
        let bytes = UnitBytes::at(sections.info, at)?;
        if offset < bytes.end {
            return bytes.unit();
        }
        at = bytes.end;
    }
    None
}
