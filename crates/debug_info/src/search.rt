//! The search for the inlined calls at some addresses.

use crate::abbreviation::Abbreviation;
use crate::budget::Budget;
use crate::calls::{DEEPEST, InlinedCall, InlinedCalls, NestedCall};
use crate::entry::Entry;
use crate::files::KnownFiles;
use crate::origin::UnitView;
use crate::ranges::{AddressRange, Ranges};
use crate::value::number;
use debug_lines::{FileLine, Reader};

/// DW_TAG_inlined_subroutine.
const INLINED: u64 = 0x1D;

/// DW_TAG_subprogram.
const FUNCTION: u64 = 0x2E;

/// The price of a function or an inlined call besides its attributes, and of a range besides the
/// addresses in it.
const ENTRY: u64 = 8;

/// An entry whose children are being read: a function or an inlined call.
#[derive(Clone, Copy)]
pub struct OpenEntry<'a> {
    /// How many entries it is in.
    depth: u64,
    is_inlined: bool,
    entry: Entry<'a>,
    /// The place of its call among those that were found, once an address was in it.
    place: Option<usize>,
}

/// A search through `.debug_info`.
#[derive(Drop)]
pub struct Search<'a> {
    pub budget: Budget,
    pub found: InlinedCalls<'a>,
    /// The most calls that are found, for which there is room.
    pub most: usize,
    /// The entries around the one that is read, the outermost first, with capacity for `DEEPEST`.
    pub open: Vec<OpenEntry<'a>>,
    pub files: KnownFiles<'a>,
}

impl<'a> Search<'a> {
    /// Goes through the children of a unit's first entry, if it may be of code at an address that
    /// is asked for. It ends where an entry can't be read.
    pub fn search(
        &mut self,
        view: &UnitView<'_, 'a>,
        first: &Entry<'a>,
        mut entries: Reader<'a>,
    ) -> Option<()> {
        if !self.has_address(view, first)? {
            return None;
        }
        self.open.clear();
        let mut depth: u64 = 1;
        for _ in 0..self.budget.left() {
            self.budget.spend(1)?;
            let code = number(&mut entries)?;
            if code == 0 {
                depth = depth.checked_sub(1)?;
                self.close(depth);
                continue;
            }
            let abbreviation = view.table.of(code)?;
            self.read(view, &abbreviation, &mut entries, depth)?;
            if abbreviation.has_children {
                depth = depth.saturating_add(1);
            } else {
                self.close(depth);
            }
        }
        None
    }

    /// Closes the entry at a depth, if it is open: all of its children were read.
    fn close(&mut self, depth: u64) {
        if let Some(last) = self.open.last() {
            if last.depth >= depth {
                self.open.pop();
            }
        }
    }

    /// Whether one of a unit's ranges has an address that is asked for, or it has no ranges.
    fn has_address(&mut self, view: &UnitView<'_, 'a>, first: &Entry<'a>) -> Option<bool> {
        let mut ranges = Ranges::of(&view.scope, view.unit.version, first);
        if ranges.is_empty() {
            return Some(true);
        }
        for _ in 0..self.budget.left() {
            let Some(range) = ranges.step() else {
                return Some(false);
            };
            let (start, end) = self.places_of(&range)?;
            if start < end {
                return Some(true);
            }
        }
        None
    }

    /// Reads an entry after its code.
    fn read(
        &mut self,
        view: &UnitView<'_, 'a>,
        abbreviation: &Abbreviation<'a>,
        entries: &mut Reader<'a>,
        depth: u64,
    ) -> Option<()> {
        let is_inlined = abbreviation.tag == INLINED;
        if !is_inlined && abbreviation.tag != FUNCTION {
            return abbreviation.skip(entries, &mut self.budget);
        }
        self.budget.spend(ENTRY)?;
        let entry = Entry::read(abbreviation, entries, &mut self.budget)?;
        if self.open.len() >= DEEPEST as usize {
            return Some(());
        }
        let open = OpenEntry {
            depth,
            is_inlined,
            entry,
            place: None,
        };
        self.open.push(open).ok()?;
        self.cover_all(view, &entry)
    }

    /// Gives the addresses in the ranges of the entry that was read last its call.
    fn cover_all(&mut self, view: &UnitView<'_, 'a>, entry: &Entry<'a>) -> Option<()> {
        let mut ranges = Ranges::of(&view.scope, view.unit.version, entry);
        for _ in 0..self.budget.left() {
            let Some(range) = ranges.step() else {
                return Some(());
            };
            self.cover(view, &range)?;
        }
        None
    }

    /// Gives the addresses in a range the innermost call of the open entries.
    fn cover(&mut self, view: &UnitView<'_, 'a>, range: &AddressRange) -> Option<()> {
        let (start, end) = self.places_of(range)?;
        if start >= end {
            return Some(());
        }
        let addresses = (end - start) as u64;
        self.budget.spend(addresses)?;
        let place = self.innermost(view)?;
        let all = self.found.innermost.as_mut_slice();
        for innermost in all.get_mut(start..end)? {
            *innermost = place;
        }
        Some(())
    }

    /// The places of the first address in a range, and of the first after it.
    fn places_of(&mut self, range: &AddressRange) -> Option<(usize, usize)> {
        let addresses = self.found.addresses.as_slice();
        self.budget.spend(1)?;
        if range.start >= range.end || addresses.last()? < &range.start {
            return Some((0, 0));
        }
        self.budget.spend(ENTRY)?;
        let start = addresses.partition_point(|address| *address < range.start);
        let end = addresses.partition_point(|address| *address < range.end);
        Some((start, end))
    }

    /// The place of the innermost call of the open entries, if the last is a call.
    fn innermost(&mut self, view: &UnitView<'_, 'a>) -> Option<Option<usize>> {
        self.budget.spend(self.open.len() as u64)?;
        let mut innermost = None;
        for i in 0..self.open.len() {
            innermost = self.place_of(view, i, innermost)?;
        }
        Some(innermost)
    }

    /// The place of the call of an open entry, if it is one.
    fn place_of(
        &mut self,
        view: &UnitView<'_, 'a>,
        i: usize,
        outer: Option<usize>,
    ) -> Option<Option<usize>> {
        let open = self.open.get(i)?;
        if !open.is_inlined {
            return Some(None);
        }
        if open.place.is_some() {
            return Some(open.place);
        }
        let entry = open.entry;
        let place = self.add(view, &entry, outer)?;
        self.open.get_mut(i)?.place = Some(place);
        Some(Some(place))
    }

    /// Adds a call to those that were found.
    fn add(
        &mut self,
        view: &UnitView<'_, 'a>,
        entry: &Entry<'a>,
        outer: Option<usize>,
    ) -> Option<usize> {
        let place = self.found.links.len();
        if place >= self.most {
            return None;
        }
        let call = InlinedCall {
            name: view.name(entry, &mut self.budget),
            line: self.line(entry),
        };
        self.found.links.push(NestedCall { call, outer }).ok()?;
        Some(place)
    }

    /// The line of the call that an entry is about.
    fn line(&mut self, entry: &Entry<'a>) -> Option<FileLine<'a>> {
        let file = entry.call_file.number()?;
        let line = u32::try_from(entry.call_line.number()?).ok()?;
        self.files.line_in(file, line, &mut self.budget)
    }
}
