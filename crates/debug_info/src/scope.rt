//! The scope of a unit's values: where its addresses, texts and lists of ranges are.

use crate::entry::Entry;
use crate::sections::DebugSections;
use crate::value::AttributeValue;

/// The most bytes of a name, with the 0 after it.
const LONGEST: usize = 80;

/// The sections, and where the parts of a unit begin in them.
#[derive(Clone, Copy)]
pub struct Scope<'a> {
    pub sections: DebugSections<'a>,
    /// The address that the unit's ranges go out from.
    pub base: u64,
    /// Where its numbered lists of ranges begin.
    pub range_lists: Option<u64>,
    text_offsets: Option<u64>,
    addresses: Option<u64>,
}

impl<'a> Scope<'a> {
    /// The scope of a unit, by its first entry.
    pub fn of(sections: &DebugSections<'a>, unit: &Entry<'a>) -> Scope<'a> {
        let mut scope = Scope {
            sections: *sections,
            base: 0,
            range_lists: unit.range_lists.offset(),
            text_offsets: unit.text_offsets.offset(),
            addresses: unit.addresses.offset(),
        };
        scope.base = scope.address(&unit.low).unwrap_or(0);
        scope
    }

    /// The address that a value is.
    pub fn address(&self, value: &AttributeValue<'a>) -> Option<u64> {
        match value {
            AttributeValue::Address(address) => Some(*address),
            AttributeValue::AddressAt(number) => self.numbered_address(*number),
            _ => None,
        }
    }

    /// The address of a number.
    pub fn numbered_address(&self, number: u64) -> Option<u64> {
        self.sections.numbered_address(self.addresses?, number)
    }

    /// The name that a value is: fewer than 80 bytes in front of a 0.
    pub fn name(&self, value: &AttributeValue<'a>) -> Option<&'a [u8]> {
        self.text(value, LONGEST)
    }

    /// The text that a value is: fewer than `most` bytes in front of a 0, where it is in a section.
    pub fn text(&self, value: &AttributeValue<'a>, most: usize) -> Option<&'a [u8]> {
        let sections = &self.sections;
        match value {
            AttributeValue::Text(text) => Some(*text),
            AttributeValue::InfoText(at) => sections.text(*at, most),
            AttributeValue::LineText(at) => sections.line_text(*at, most),
            AttributeValue::TextAt(number) => {
                sections.numbered_text(self.text_offsets?, *number, most)
            }
            _ => None,
        }
    }
}
