//! The directories and files of a unit.

use crate::fixed_tables::{Directories, Files};
use crate::form::{LineText, Strings};
use crate::formatted_tables::Entries;
use crate::unit::LineProgram;

/// A directory or a file.
#[derive(Clone, Copy)]
pub struct NameEntry<'a> {
    /// Its path, where the table has one.
    pub path: Option<&'a [u8]>,
    /// The number of the directory that a file's path begins in.
    pub directory: u64,
}

impl<'a> NameEntry<'a> {
    /// An entry without a path.
    pub const NOTHING: NameEntry<'static> = NameEntry {
        path: None,
        directory: 0,
    };
}

/// A directory or a file of version 5, whose path is not yet read.
#[derive(Clone, Copy)]
pub struct FormattedEntry<'a> {
    /// Its path, where the table has one.
    pub path: Option<LineText<'a>>,
    /// The number of the directory that a file's path begins in.
    pub directory: u64,
}

impl<'a> FormattedEntry<'a> {
    /// An entry without a path.
    pub const NOTHING: FormattedEntry<'static> = FormattedEntry {
        path: None,
        directory: 0,
    };

    /// The entry with its path.
    pub fn named(&self) -> NameEntry<'a> {
        NameEntry {
            path: self.path.and_then(|text| text.bytes()),
            directory: self.directory,
        }
    }
}

impl<'a> LineProgram<'a> {
    /// The file of a number.
    pub fn file(&self, number: u64, strings: Strings<'a>) -> Option<NameEntry<'a>> {
        if self.version == 5 {
            let directories = Entries::read(self.tables, strings)?;
            let entry = directories.next_list()?.nth(number as usize)?;
            return Some(entry.named());
        }
        let directories = Directories { table: self.tables };
        Files::behind(directories).nth(number.checked_sub(1)? as usize)
    }

    /// The path of the directory of a number. In versions 2 to 4 number 0, the directory of the
    /// compilation, has none.
    pub fn directory(&self, number: u64, strings: Strings<'a>) -> Option<&'a [u8]> {
        if self.version == 5 {
            return Entries::read(self.tables, strings)?
                .nth(number as usize)?
                .named()
                .path;
        }
        let mut directories = Directories { table: self.tables };
        directories.nth(number.checked_sub(1)? as usize)
    }
}
