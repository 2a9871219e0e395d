//! The ranges of addresses of an entry (DWARF 5, 2.17 and 7.25; DWARF 4, 2.17.3).

use crate::entry::Entry;
use crate::scope::Scope;
use crate::sections::{element_at, reader_at};
use crate::value::{AttributeValue, number};
use debug_lines::Reader;

/// The mark in `.debug_ranges` that an address follows, from which the next ranges are counted.
const BASE: u64 = u64::MAX;

/// The addresses from `start` up to those below `end`.
#[derive(Clone, Copy, PartialEq, Eq)]
pub struct AddressRange {
    /// The first address.
    pub start: u64,
    /// The address after the last.
    pub end: u64,
}

impl AddressRange {
    /// No address.
    const EMPTY: AddressRange = AddressRange { start: 0, end: 0 };

    /// The range from an entry's low address to its high one.
    pub fn whole<'a>(scope: &Scope<'a>, entry: &Entry<'a>) -> Option<AddressRange> {
        let start = scope.address(&entry.low)?;
        let end = match entry.high {
            AttributeValue::Number(size) => start.wrapping_add(size),
            _ => scope.address(&entry.high)?,
        };
        Some(AddressRange { start, end })
    }

    /// Whether an address is one of them.
    pub fn has(&self, address: u64) -> bool {
        self.start <= address && address < self.end
    }
}

/// The ranges of an entry that are not yet read.
#[derive(Clone, Copy)]
pub struct Ranges<'a> {
    scope: Scope<'a>,
    version: u16,
    /// The address from which an offset is counted.
    base: u64,
    /// The range from the low address to the high one.
    whole: Option<AddressRange>,
    list: Reader<'a>,
}

impl<'a> Ranges<'a> {
    /// The ranges of an entry of a unit of version 4 or 5: one, if it has a low and a high address,
    /// or else those of its list.
    pub fn of(scope: &Scope<'a>, version: u16, entry: &Entry<'a>) -> Ranges<'a> {
        let whole = AddressRange::whole(scope, entry);
        let list = match whole {
            Some(_) => None,
            None => list(scope, version, &entry.ranges),
        };
        Ranges {
            scope: *scope,
            version,
            base: scope.base,
            whole,
            list: list.unwrap_or(Reader { rest: &[] }),
        }
    }

    /// Whether there is no range.
    pub fn is_empty(&self) -> bool {
        self.whole.is_none() && self.list.rest.is_empty()
    }

    /// The next range, if there is one. It is empty where the list only gives a base.
    pub fn step(&mut self) -> Option<AddressRange> {
        if let Some(range) = self.whole {
            self.whole = None;
            return Some(range);
        }
        if self.version < 5 {
            self.pair()
        } else {
            self.listed()
        }
    }

    /// The next range of `.debug_ranges`.
    fn pair(&mut self) -> Option<AddressRange> {
        let start = self.list.double_word()?;
        let end = self.list.double_word()?;
        if start == BASE {
            self.base = end;
            return Some(AddressRange::EMPTY);
        }
        if start == 0 && end == 0 {
            return None;
        }
        Some(self.from_base(start, end))
    }

    /// The next range of `.debug_rnglists`.
    fn listed(&mut self) -> Option<AddressRange> {
        match self.list.byte()? {
            // DW_RLE_base_addressx
            1 => {
                self.base = self.numbered()?;
                Some(AddressRange::EMPTY)
            }
            // DW_RLE_base_address
            5 => {
                self.base = self.list.double_word()?;
                Some(AddressRange::EMPTY)
            }
            // DW_RLE_offset_pair
            4 => {
                let start = number(&mut self.list)?;
                let end = number(&mut self.list)?;
                Some(self.from_base(start, end))
            }
            kind => self.bounds(kind),
        }
    }

    /// A range that goes out from no base.
    fn bounds(&mut self, kind: u8) -> Option<AddressRange> {
        let (start, end) = match kind {
            // DW_RLE_startx_endx
            2 => (self.numbered()?, self.numbered()?),
            // DW_RLE_startx_length
            3 => {
                let start = self.numbered()?;
                (start, start.wrapping_add(number(&mut self.list)?))
            }
            // DW_RLE_start_end
            6 => (self.list.double_word()?, self.list.double_word()?),
            // DW_RLE_start_length
            7 => {
                let start = self.list.double_word()?;
                (start, start.wrapping_add(number(&mut self.list)?))
            }
            // DW_RLE_end_of_list, or none that is known
            _ => return None,
        };
        Some(AddressRange { start, end })
    }

    /// Reads the number of an address.
    fn numbered(&mut self) -> Option<u64> {
        let at = number(&mut self.list)?;
        self.scope.numbered_address(at)
    }

    fn from_base(&self, start: u64, end: u64) -> AddressRange {
        AddressRange {
            start: self.base.wrapping_add(start),
            end: self.base.wrapping_add(end),
        }
    }
}

/// The list of ranges that a value names.
fn list<'a>(scope: &Scope<'a>, version: u16, value: &AttributeValue<'a>) -> Option<Reader<'a>> {
    let sections = &scope.sections;
    match value {
        AttributeValue::Offset(at) if version < 5 => reader_at(sections.ranges, *at),
        AttributeValue::Offset(at) => reader_at(sections.range_lists, *at),
        AttributeValue::ListAt(number) => {
            let base = scope.range_lists?;
            let mut offsets = reader_at(sections.range_lists, element_at(base, *number, 4)?)?;
            let offset = u64::from(offsets.word()?);
            reader_at(sections.range_lists, base.checked_add(offset)?)
        }
        _ => None,
    }
}
