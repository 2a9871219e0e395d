//! Abbreviations: what the entries of a code have (DWARF 5, 7.5.3).

ghost use Rattle.std.specs.Iterator.{at_most};

use crate::budget::Budget;
use crate::value::{AttributeValue, fixed_size, number};
use debug_lines::Reader;

/// The most attributes of an entry.
const MOST: u32 = 1024;

/// How many bytes of a value cost as much as an attribute.
const BYTES: u64 = 32;

/// DW_FORM_implicit_const.
const IMPLICIT: u64 = 0x21;

/// An attribute of an abbreviation.
#[derive(Clone, Copy)]
pub struct Attribute {
    /// DW_AT.
    pub name: u64,
    form: u64,
    /// The value of each entry, if the form is DW_FORM_implicit_const.
    constant: u64,
}

impl Attribute {
    /// Reads an attribute and its form. After the last one are two zeros, which are read too.
    fn read(table: &mut Reader<'_>) -> Option<Attribute> {
        let name = number(table)?;
        let form = number(table)?;
        if name == 0 && form == 0 {
            return None;
        }
        let constant = if form == IMPLICIT { table.signed()? } else { 0 };
        Some(Attribute {
            name,
            form,
            constant,
        })
    }

    /// Reads its value of an entry.
    pub fn value<'a>(
        &self,
        values: &mut Reader<'a>,
        budget: &mut Budget,
    ) -> Option<AttributeValue<'a>> {
        budget.spend(1)?;
        if self.form == IMPLICIT {
            return Some(AttributeValue::Number(self.constant));
        }
        let before = values.rest.len();
        let value = AttributeValue::read(values, self.form);
        let after = match value {
            Some(_) => values.rest.len(),
            None => 0,
        };
        budget.spend(before.saturating_sub(after) as u64 / BYTES)?;
        value
    }
}

/// The attributes of an abbreviation, in order.
#[derive(Clone, Copy)]
pub struct Attributes<'a> {
    table: Reader<'a>,
    /// How many more there may be.
    left: u32,
}

impl<'a> Iterator for Attributes<'a> {
    type Item = Attribute;

    ghost remaining = { λ s. at_most s.left };

    fn next(&mut self) -> Option<Attribute> {
        self.left = self.left.checked_sub(1)?;
        Attribute::read(&mut self.table)
    }
}

/// The attributes of a code's entries.
#[derive(Clone, Copy)]
pub struct Abbreviation<'a> {
    pub(crate) code: u64,
    /// DW_TAG.
    pub tag: u64,
    /// Whether other entries follow up to a code of 0, which are its own.
    pub has_children: bool,
    /// The attributes of each entry.
    pub attributes: Attributes<'a>,
    /// The bytes of an entry's values, where all entries have as many.
    size: Option<u64>,
}

impl<'a> Abbreviation<'a> {
    /// Reads the next abbreviation of a table. Code 0 ends the table.
    pub(crate) fn read(table: &mut Reader<'a>, budget: &mut Budget) -> Option<Abbreviation<'a>> {
        let code = number(table)?;
        if code == 0 {
            return None;
        }
        let tag = number(table)?;
        let has_children = table.byte()? != 0;
        let attributes = Attributes {
            table: *table,
            left: MOST,
        };
        let mut size = Some(0u64);
        let mut all = attributes;
        for attribute in all.by_ref() {
            budget.spend(1)?;
            size = sum(size, fixed_size(attribute.form));
        }
        budget.spend(1)?;
        *table = all.table;
        Some(Abbreviation {
            code,
            tag,
            has_children,
            attributes,
            size,
        })
    }

    /// Passes over the values of an entry.
    pub fn skip(&self, entries: &mut Reader<'a>, budget: &mut Budget) -> Option<()> {
        if let Some(size) = self.size {
            entries.bytes(size)?;
            return Some(());
        }
        for attribute in self.attributes {
            attribute.value(entries, budget)?;
        }
        Some(())
    }
}

/// The sum of two sizes, where both are known.
fn sum(size: Option<u64>, more: Option<u64>) -> Option<u64> {
    Some(size?.saturating_add(more?))
}
