//! The source lines of an image.

ghost use Rattle.std.specs.Prelude.{◌≡◌, ◌<◌, false, IfSome};
ghost use Rattle.debug_lines.specs.Texts.{has_control};

use crate::chosen_entries::ChosenFiles;
use crate::form::Strings;
use crate::open_addresses::OpenAddresses;
use crate::reader::Reader;
use crate::row::LineRow;
use crate::source_line::SourceLine;
use crate::source_lines::{FileLine, SourceLines};
use crate::unit::{LineProgram, Units};
use elf_sections::Sections;
use std::alloc::{AllocError, Global};
use std::fmt;

/// The line tables of an image. They are read again for each address, or for each set of addresses,
/// that is asked for.
#[derive(Clone, Copy)]
pub struct DebugLines<'a> {
    pub(crate) tables: &'a [u8],
    pub(crate) strings: Strings<'a>,
}

impl<'a> DebugLines<'a> {
    /// The line tables of a file: `.debug_line`, and `.debug_line_str` and `.debug_str` with their
    /// texts. A section that is not there, is not in the file or is compressed is empty.
    pub fn of(file: &'a [u8]) -> DebugLines<'a> {
        let sections = Sections::of(file);
        DebugLines {
            tables: contents(&sections, b".debug_line\0"),
            strings: Strings {
                lines: contents(&sections, b".debug_line_str\0"),
                info: contents(&sections, b".debug_str\0"),
            },
        }
    }

    /// The source line that the instruction at an address comes from. There is none where no row of
    /// a table covers the address, where the row's line is 0, and where its file has no path that
    /// may be printed: 1 to 4096 bytes of UTF-8 without control characters.
    pub fn line_of(&self, address: u64) -> Option<SourceLine<'a>>
        ensures line { IfSome result (λ line. 0 < line.line) }
        ensures file { IfSome result (λ line. has_control line.file.now ≡ false) }
        ensures path { IfSome result (λ line. has_control line.path.now ≡ false) }
        ensures directory { IfSome result
            (λ line. IfSome line.directory (λ text. has_control text.now ≡ false)) }
    {
        let section = Reader { rest: self.tables };
        for bytes in (Units { section }) {
            if let Some((unit, row)) = covering(bytes, address) {
                return self.source_line(&unit, &row);
            }
        }
        None
    }

    /// The source lines of addresses, by one pass over the tables for all of them: as `line_of`
    /// has them. Each row costs a binary search in the addresses that no row in front of it covers.
    /// `Err` where there is no memory: some 100 bytes an address.
    pub fn lines_of(
        &self,
        alloc: Global,
        addresses: &[u64],
    ) -> Result<SourceLines<'a>, AllocError> {
        let mut lines = SourceLines::new(alloc);
        let mut open = OpenAddresses::of(alloc, addresses)?;
        let section = Reader { rest: self.tables };
        for bytes in (Units { section }) {
            if open.is_empty() {
                break;
            }
            self.add_unit(alloc, bytes, &mut open, &mut lines)?;
        }
        lines.complete();
        Ok(lines)
    }

    /// An address, to be named by its source line.
    pub fn origin(&self, address: u64) -> SourceOrigin<'a> {
        SourceOrigin(self.line_of(address))
    }

    /// The source line that a row is about.
    fn source_line(&self, unit: &LineProgram<'a>, row: &LineRow) -> Option<SourceLine<'a>>
        ensures line { IfSome result (λ line. (line.line ≡ row.now.line) × (0 < line.line)) }
        ensures file { IfSome result (λ line. has_control line.file.now ≡ false) }
        ensures path { IfSome result (λ line. has_control line.path.now ≡ false) }
        ensures directory { IfSome result
            (λ line. IfSome line.directory (λ text. has_control text.now ≡ false)) }
    {
        if row.line == 0 {
            return None;
        }
        let file = unit.file(row.file, self.strings)?;
        let line = FileLine {
            path: file.path,
            directory: unit.directory(file.directory, self.strings),
            line: row.line,
        };
        line.source_line()
    }

    /// Adds the lines of the addresses that a unit's rows cover.
    fn add_unit(
        &self,
        alloc: Global,
        bytes: Reader<'a>,
        open: &mut OpenAddresses,
        lines: &mut SourceLines<'a>,
    ) -> Result<(), AllocError> {
        let Some(unit) = LineProgram::of(bytes) else {
            return Ok(());
        };
        let covered = open.take_covered(alloc, &unit)?;
        if covered.is_empty() {
            return Ok(());
        }
        let files = ChosenFiles::read(alloc, &unit, self.strings, covered.as_slice())?;
        for row in &covered {
            lines.push(row.address, files.line_of(row))?;
        }
        Ok(())
    }
}

/// The unit of some bytes, and its row that covers an address.
fn covering<'a>(bytes: Reader<'a>, address: u64) -> Option<(LineProgram<'a>, LineRow)> {
    let unit = LineProgram::of(bytes)?;
    let row = unit.row_at(address)?;
    Some((unit, row))
}

/// The bytes of a section.
fn contents<'a>(sections: &Sections<'a>, name: &[u8]) -> &'a [u8] {
    match sections.named(name) {
        Some(section) => section.contents().unwrap_or(&[]),
        None => &[],
    }
}

/// Where the code of an address comes from: ` at FILE:LINE`, or nothing where no line has it.
#[derive(Clone, Copy)]
pub struct SourceOrigin<'a>(pub(crate) Option<SourceLine<'a>>);

impl<'a> fmt::Display for SourceOrigin<'a> {
    fn fmt<W: fmt::Write>(&self, f: &mut fmt::Formatter<W>) -> fmt::Result {
        match &self.0 {
            Some(line) => write!(f, " at {line}"),
            None => Ok(()),
        }
    }
}
