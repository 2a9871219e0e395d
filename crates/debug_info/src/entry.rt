//! The attributes of an entry, as far as inlined calls and variables need them (DWARF 5, 7.5.4).

use crate::abbreviation::Abbreviation;
use crate::budget::Budget;
use crate::value::AttributeValue;
use debug_lines::Reader;

/// The attributes of an entry: one that it doesn't have is `AttributeValue::Other`.
#[derive(Clone, Copy)]
pub struct Entry<'a> {
    /// DW_AT_name.
    pub name: AttributeValue<'a>,
    /// DW_AT_linkage_name.
    pub linkage_name: AttributeValue<'a>,
    /// DW_AT_abstract_origin or DW_AT_specification: the entry that says more.
    pub origin: AttributeValue<'a>,
    /// DW_AT_low_pc.
    pub low: AttributeValue<'a>,
    /// DW_AT_high_pc: an address, or how far it is from the low one.
    pub high: AttributeValue<'a>,
    /// DW_AT_ranges.
    pub ranges: AttributeValue<'a>,
    /// DW_AT_call_file.
    pub call_file: AttributeValue<'a>,
    /// DW_AT_call_line.
    pub call_line: AttributeValue<'a>,
    /// DW_AT_stmt_list, of a unit.
    pub lines: AttributeValue<'a>,
    /// DW_AT_str_offsets_base, of a unit.
    pub text_offsets: AttributeValue<'a>,
    /// DW_AT_addr_base, of a unit.
    pub addresses: AttributeValue<'a>,
    /// DW_AT_rnglists_base, of a unit.
    pub range_lists: AttributeValue<'a>,
    /// DW_AT_producer, of a unit.
    pub producer: AttributeValue<'a>,
    /// DW_AT_frame_base, of a function.
    pub frame: AttributeValue<'a>,
    /// DW_AT_location, of a variable, as are the next two.
    pub location: AttributeValue<'a>,
    /// DW_AT_decl_file.
    pub file: AttributeValue<'a>,
    /// DW_AT_decl_line.
    pub line: AttributeValue<'a>,
    /// DW_AT_type.
    pub type_: AttributeValue<'a>,
    /// DW_AT_byte_size, of a type.
    pub size: AttributeValue<'a>,
    /// DW_AT_upper_bound, of a dimension.
    pub last: AttributeValue<'a>,
    /// DW_AT_count, of a dimension.
    pub count: AttributeValue<'a>,
    /// Whether it is said that all of a function's calls have entries (DW_AT_call_all_calls,
    /// DW_AT_GNU_all_call_sites).
    pub has_all_calls: bool,
}

impl<'a> Entry<'a> {
    /// An entry without attributes.
    const NOTHING: Entry<'static> = Entry {
        name: AttributeValue::Other,
        linkage_name: AttributeValue::Other,
        origin: AttributeValue::Other,
        low: AttributeValue::Other,
        high: AttributeValue::Other,
        ranges: AttributeValue::Other,
        call_file: AttributeValue::Other,
        call_line: AttributeValue::Other,
        lines: AttributeValue::Other,
        text_offsets: AttributeValue::Other,
        addresses: AttributeValue::Other,
        range_lists: AttributeValue::Other,
        producer: AttributeValue::Other,
        frame: AttributeValue::Other,
        location: AttributeValue::Other,
        file: AttributeValue::Other,
        line: AttributeValue::Other,
        type_: AttributeValue::Other,
        size: AttributeValue::Other,
        last: AttributeValue::Other,
        count: AttributeValue::Other,
        has_all_calls: false,
    };

    /// Reads the values of an entry.
    pub fn read(
        abbreviation: &Abbreviation<'a>,
        entries: &mut Reader<'a>,
        budget: &mut Budget,
    ) -> Option<Entry<'a>> {
        let mut entry: Entry<'a> = Entry::NOTHING;
        for attribute in abbreviation.attributes {
            let value = attribute.value(entries, budget)?;
            entry.put(attribute.name, value);
        }
        Some(entry)
    }

    /// Gives an attribute its value.
    fn put(&mut self, name: u64, value: AttributeValue<'a>) {
        match name {
            0x03 => self.name = value,
            // DW_AT_linkage_name, and DW_AT_MIPS_linkage_name in its place
            0x6E | 0x2007 => self.linkage_name = value,
            0x31 | 0x47 => self.origin = value,
            0x11 => self.low = value,
            0x12 => self.high = value,
            0x55 => self.ranges = value,
            0x58 => self.call_file = value,
            0x59 => self.call_line = value,
            0x10 => self.lines = value,
            0x72 => self.text_offsets = value,
            0x73 => self.addresses = value,
            0x74 => self.range_lists = value,
            _ => self.put_of_variable(name, value),
        }
    }

    /// Gives an attribute its value that variables, their types or their functions have.
    fn put_of_variable(&mut self, name: u64, value: AttributeValue<'a>) {
        match name {
            0x02 => self.location = value,
            0x0B => self.size = value,
            0x25 => self.producer = value,
            0x2F => self.last = value,
            0x37 => self.count = value,
            0x3A => self.file = value,
            0x3B => self.line = value,
            0x40 => self.frame = value,
            0x49 => self.type_ = value,
            0x7A | 0x2117 => self.has_all_calls = true,
            _ => {}
        }
    }
}
