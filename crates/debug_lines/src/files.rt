//! The files of a unit by their numbers, for what other sections name by them (DWARF 5, 2.14).

use crate::form::Strings;
use crate::lines::DebugLines;
use crate::reader::Reader;
use crate::source_lines::FileLine;
use crate::unit::LineProgram;

impl<'a> DebugLines<'a> {
    /// The files of the unit at an offset of `.debug_line`, as `DW_AT_stmt_list` gives it.
    pub fn files_of(&self, unit: u64) -> Option<UnitFiles<'a>> {
        let mut section = Reader {
            rest: self.tables.get(unit as usize..)?,
        };
        let length = section.word()?;
        let bytes = section.part(u64::from(length))?;
        Some(UnitFiles {
            unit: LineProgram::of(bytes)?,
            strings: self.strings,
        })
    }
}

/// The files of a unit.
#[derive(Clone, Copy)]
pub struct UnitFiles<'a> {
    unit: LineProgram<'a>,
    strings: Strings<'a>,
}

impl<'a> UnitFiles<'a> {
    /// The bytes of its tables: a file is found in a time that goes with them.
    pub fn size(&self) -> u64 {
        self.unit.tables.rest.len() as u64
    }

    /// A line in the file of a number, as `DW_AT_call_file` and `DW_AT_call_line` give them.
    pub fn line_in(&self, file: u64, line: u32) -> Option<FileLine<'a>> {
        let entry = self.unit.file(file, self.strings)?;
        Some(FileLine {
            path: entry.path,
            directory: self.unit.directory(entry.directory, self.strings),
            line,
        })
    }
}
