//! The directories and files of version 5 (DWARF 5, 6.2.4), whose layout the table itself gives.

ghost use Rattle.std.specs.Prelude.{◌≡◌, ◌<◌, length, IfSome};
ghost use Rattle.std.specs.Iterator.{at_most};

use crate::form::{LineValue, Strings};
use crate::reader::Reader;
use crate::tables::FormattedEntry;

/// DW_LNCT_path.
const PATH: u64 = 1;

/// DW_LNCT_directory_index.
const DIRECTORY: u64 = 2;

/// The most bytes of the type and the form of a value.
const FORMAT: usize = 8;

/// Directories or files, from number 0 on.
#[derive(Clone, Copy)]
pub struct Entries<'a> {
    strings: Strings<'a>,
    /// The types and forms of an entry's values.
    formats: Reader<'a>,
    /// How many values an entry has: one at least, so that each entry takes some bytes.
    values: u8,
    /// How many entries are left.
    count: u64,
    /// The entries, and what is after them.
    table: Reader<'a>,
    ghost takes_bytes: { 0 < count → 0 < values },
}

impl<'a> Entries<'a> {
    /// The entries that a table begins with. Entries without values are refused, and those whose
    /// formats have more than eight bytes a value: each entry reads them again.
    pub fn read(mut table: Reader<'a>, strings: Strings<'a>) -> Option<Entries<'a>> {
        let values = table.byte()?;
        let formats = table;
        for _ in 0..values {
            table.unsigned()?;
            table.unsigned()?;
        }
        let most = usize::from(values) * FORMAT;
        if formats.rest.len().saturating_sub(table.rest.len()) > most {
            return None;
        }
        let count = table.unsigned()?;
        if values == 0 && count > 0 {
            return None;
        }
        Some(Entries {
            strings,
            formats,
            values,
            count,
            table,
        })
    }

    /// The entries that are after these.
    pub fn next_list(mut self) -> Option<Entries<'a>> {
        for _ in self.by_ref() {}
        if self.count > 0 {
            return None;
        }
        Entries::read(self.table, self.strings)
    }

    /// Reads the values of an entry, of which each takes some bytes.
    fn entry(&mut self) -> Option<FormattedEntry<'a>>
        requires { 0 < self.old.values }
        ensures shorter { IfSome result
            (λ _. length self.new.table.rest.now < length self.old.table.rest.now) }
        ensures values { self.new.values ≡ self.old.values }
    {
        let mut formats = self.formats;
        let mut entry = FormattedEntry::NOTHING;
        for _ in 0..self.values {
            let kind = formats.unsigned()?;
            let form = formats.unsigned()?;
            match (kind, self.strings.value(&mut self.table, form)?) {
                (PATH, LineValue::Text(path)) => entry.path = Some(path),
                (DIRECTORY, LineValue::Number(number)) => entry.directory = number,
                _ => {}
            }
        }
        Some(entry)
    }
}

impl<'a> Iterator for Entries<'a> {
    type Item = FormattedEntry<'a>;

    ghost remaining = { λ s. at_most (length s.table.rest.now) };

    fn next(&mut self) -> Option<FormattedEntry<'a>> {
        let count = self.count.checked_sub(1)?;
        let entry = self.entry()?;
        self.count = count;
        Some(entry)
    }
}
