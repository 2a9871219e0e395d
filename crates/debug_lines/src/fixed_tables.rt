//! The directories and files of versions 2 to 4 (DWARF 4, 6.2.4), whose layout is fixed.

ghost use Rattle.std.specs.Prelude.{length};
ghost use Rattle.std.specs.Iterator.{at_most};

use crate::reader::Reader;
use crate::tables::NameEntry;

/// The directories, from number 1 on. They end with an empty text.
#[derive(Clone, Copy)]
pub struct Directories<'a> {
    pub table: Reader<'a>,
}

impl<'a> Iterator for Directories<'a> {
    type Item = &'a [u8];

    ghost remaining = { λ s. at_most (length s.table.rest.now) };

    fn next(&mut self) -> Option<&'a [u8]> {
        let text = self.table.text()?;
        if text.is_empty() { None } else { Some(text) }
    }
}

/// The files, from number 1 on. They end with an empty text.
#[derive(Clone, Copy)]
pub struct Files<'a> {
    pub table: Reader<'a>,
}

impl<'a> Files<'a> {
    /// The files after a unit's directories.
    pub fn behind(mut directories: Directories<'a>) -> Files<'a> {
        for _ in directories.by_ref() {}
        Files {
            table: directories.table,
        }
    }
}

impl<'a> Iterator for Files<'a> {
    type Item = NameEntry<'a>;

    ghost remaining = { λ s. at_most (length s.table.rest.now) };

    fn next(&mut self) -> Option<NameEntry<'a>> {
        let path = self.table.text()?;
        if path.is_empty() {
            return None;
        }
        let directory = self.table.unsigned()?;
        // The time of its last change, and its size.
        self.table.unsigned()?;
        self.table.unsigned()?;
        Some(NameEntry {
            path: Some(path),
            directory,
        })
    }
}
