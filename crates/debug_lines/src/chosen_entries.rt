//! The files and directories of a unit that rows name, read in one pass over its tables.

use crate::fixed_tables::{Directories, Files};
use crate::form::Strings;
use crate::formatted_tables::Entries;
use crate::open_addresses::CoveredAddress;
use crate::source_lines::FileLine;
use crate::tables::NameEntry;
use crate::unit::LineProgram;
use std::alloc::{AllocError, Global};

/// An entry, and its number in its table.
#[derive(Clone, Copy)]
struct NumberedEntry<'a> {
    number: u64,
    entry: NameEntry<'a>,
}

/// The entries of a table that are requested.
#[derive(Drop)]
struct ChosenEntries<'a> {
    /// Their numbers, the lowest first, each once.
    wanted: Vec<u64>,
    /// How many of the numbers are passed.
    passed: usize,
    /// Those that the table has, the lowest number first.
    entries: Vec<NumberedEntry<'a>>,
}

impl<'a> ChosenEntries<'a> {
    /// The entries of some numbers, of which none is read so far.
    fn wanting(alloc: Global, numbers: Vec<u64>) -> ChosenEntries<'a> {
        let mut wanted = numbers;
        wanted.as_mut_slice().sort_unstable();
        wanted.dedup();
        ChosenEntries {
            wanted,
            passed: 0,
            entries: Vec::new(alloc),
        }
    }

    /// Whether the entry of a number is requested. The numbers of the calls ascend.
    fn wants(&self, number: u64) -> bool {
        self.wanted.get(self.passed) == Some(&number)
    }

    /// Adds an entry that is requested.
    fn push(&mut self, number: u64, entry: NameEntry<'a>) -> Result<(), AllocError> {
        self.passed = self.passed.saturating_add(1);
        self.entries.push(NumberedEntry { number, entry })?;
        Ok(())
    }

    /// Reads the entries of version 5, from number 0 on.
    fn read_formatted(&mut self, entries: Entries<'a>) -> Result<(), AllocError> {
        let mut number = 0u64;
        for entry in entries {
            if self.wants(number) {
                self.push(number, entry.named())?;
            }
            number = number.saturating_add(1);
        }
        Ok(())
    }

    /// Reads the files of versions 2 to 4, from number 1 on.
    fn read_files(&mut self, files: Files<'a>) -> Result<(), AllocError> {
        let mut number = 1u64;
        for entry in files {
            if self.wants(number) {
                self.push(number, entry)?;
            }
            number = number.saturating_add(1);
        }
        Ok(())
    }

    /// Reads the directories of versions 2 to 4, from number 1 on.
    fn read_directories(&mut self, directories: Directories<'a>) -> Result<(), AllocError> {
        let mut number = 1u64;
        for path in directories {
            if self.wants(number) {
                self.push(
                    number,
                    NameEntry {
                        path: Some(path),
                        directory: 0,
                    },
                )?;
            }
            number = number.saturating_add(1);
        }
        Ok(())
    }

    /// The entry of a number, if the table has it.
    fn entry(&self, number: u64) -> Option<NameEntry<'a>> {
        let at = self
            .entries
            .as_slice()
            .binary_search_by_key(&number, |entry| entry.number)
            .ok()?;
        let entry = self.entries.get(at)?;
        Some(entry.entry)
    }
}

/// The files and directories of a unit that some rows name.
#[derive(Drop)]
pub struct ChosenFiles<'a> {
    files: ChosenEntries<'a>,
    directories: ChosenEntries<'a>,
}

impl<'a> ChosenFiles<'a> {
    /// Reads the files of rows, and their directories.
    pub fn read(
        alloc: Global,
        unit: &LineProgram<'a>,
        strings: Strings<'a>,
        rows: &[CoveredAddress],
    ) -> Result<ChosenFiles<'a>, AllocError> {
        let mut files = ChosenEntries::wanting(alloc, file_numbers(alloc, rows)?);
        read_files(&mut files, unit, strings)?;
        let numbers = directory_numbers(alloc, &files)?;
        let mut directories = ChosenEntries::wanting(alloc, numbers);
        read_directories(&mut directories, unit, strings)?;
        Ok(ChosenFiles { files, directories })
    }

    /// The line of a row: no path where the table has no such file.
    pub fn line_of(&self, row: &CoveredAddress) -> FileLine<'a> {
        let file = self.files.entry(row.file).unwrap_or(NameEntry::NOTHING);
        FileLine {
            path: file.path,
            directory: self
                .directories
                .entry(file.directory)
                .and_then(|entry| entry.path),
            line: row.line,
        }
    }
}

/// The numbers of the files of rows.
fn file_numbers(alloc: Global, rows: &[CoveredAddress]) -> Result<Vec<u64>, AllocError> {
    let mut numbers = Vec::with_capacity(alloc, rows.len())?;
    for row in rows {
        numbers.push(row.file)?;
    }
    Ok(numbers)
}

/// The numbers of the directories of files.
fn directory_numbers(alloc: Global, files: &ChosenEntries<'_>) -> Result<Vec<u64>, AllocError> {
    let mut numbers = Vec::with_capacity(alloc, files.entries.len())?;
    for file in &files.entries {
        numbers.push(file.entry.directory)?;
    }
    Ok(numbers)
}

/// Reads the files of a unit that are requested.
fn read_files<'a>(
    chosen: &mut ChosenEntries<'a>,
    unit: &LineProgram<'a>,
    strings: Strings<'a>,
) -> Result<(), AllocError> {
    if unit.version != 5 {
        let directories = Directories { table: unit.tables };
        return chosen.read_files(Files::behind(directories));
    }
    match Entries::read(unit.tables, strings).and_then(|entries| entries.next_list()) {
        Some(files) => chosen.read_formatted(files),
        None => Ok(()),
    }
}

/// Reads the directories of a unit that are requested.
fn read_directories<'a>(
    chosen: &mut ChosenEntries<'a>,
    unit: &LineProgram<'a>,
    strings: Strings<'a>,
) -> Result<(), AllocError> {
    if unit.version != 5 {
        return chosen.read_directories(Directories { table: unit.tables });
    }
    match Entries::read(unit.tables, strings) {
        Some(directories) => chosen.read_formatted(directories),
        None => Ok(()),
    }
}
