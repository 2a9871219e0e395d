//! The source lines of addresses that were looked for together.

ghost use Rattle.std.specs.Prelude.{◌≡◌, ◌<◌, false, IfSome};
ghost use Rattle.debug_lines.specs.Texts.{has_control};

use crate::lines::SourceOrigin;
use crate::source_line::{SourceLine, last_part, text_of};
use std::alloc::{AllocError, Global};

/// A row's line, with the paths as the tables have them.
#[derive(Clone, Copy)]
pub struct FileLine<'a> {
    /// The path of its file, if the table has one.
    pub path: Option<&'a [u8]>,
    /// The directory that the path goes out from, if the table has it.
    pub directory: Option<&'a [u8]>,
    /// The line, or 0 where the instruction comes from none.
    pub line: u32,
}

impl<'a> FileLine<'a> {
    /// The source line. There is none for line 0, and where its file has no path that may be told.
    pub fn source_line(&self) -> Option<SourceLine<'a>>
        ensures line { IfSome result (λ line. (line.line ≡ self.now.line) × (0 < line.line)) }
        ensures file { IfSome result (λ line. has_control line.file.now ≡ false) }
        ensures path { IfSome result (λ line. has_control line.path.now ≡ false) }
        ensures directory { IfSome result
            (λ line. IfSome line.directory (λ text. has_control text.now ≡ false)) }
    {
        if self.line == 0 {
            return None;
        }
        let path = self.path?;
        let text = text_of(path)?;
        Some(SourceLine {
            file: text_of(last_part(path))?,
            path: text,
            directory: self.directory_of(text),
            line: self.line,
        })
    }

    /// The directory that a path goes out from.
    fn directory_of(&self, path: &str) -> Option<&'a str>
        ensures { IfSome result (λ text. has_control text.now ≡ false) }
    {
        if path.starts_with('/') {
            return None;
        }
        text_of(self.directory?)
    }
}

/// An address and its line.
#[derive(Clone, Copy)]
struct AddressLine<'a> {
    address: u64,
    line: FileLine<'a>,
}

/// The source lines of some addresses.
#[derive(Drop)]
pub struct SourceLines<'a> {
    /// The lowest address first, once they are complete.
    lines: Vec<AddressLine<'a>>,
}

impl<'a> SourceLines<'a> {
    /// The lines of no address.
    pub(crate) fn new(alloc: Global) -> SourceLines<'a> {
        SourceLines {
            lines: Vec::new(alloc),
        }
    }

    /// Adds the line of an address that has none so far.
    pub(crate) fn push(&mut self, address: u64, line: FileLine<'a>) -> Result<(), AllocError> {
        self.lines.push(AddressLine { address, line })?;
        Ok(())
    }

    /// Puts them in order, once each is there.
    pub(crate) fn complete(&mut self) {
        self.lines
            .as_mut_slice()
            .sort_unstable_by_key(|line| line.address);
    }

    /// The source line that the instruction at an address comes from, as `DebugLines::line_of` has
    /// it. There is none for an address that was not looked for.
    pub fn line_of(&self, address: u64) -> Option<SourceLine<'a>>
        ensures line { IfSome result (λ line. 0 < line.line) }
        ensures file { IfSome result (λ line. has_control line.file.now ≡ false) }
        ensures path { IfSome result (λ line. has_control line.path.now ≡ false) }
        ensures directory { IfSome result
            (λ line. IfSome line.directory (λ text. has_control text.now ≡ false)) }
    {
        let at = self
            .lines
            .as_slice()
            .binary_search_by_key(&address, |line| line.address)
            .ok()?;
        let found = self.lines.get(at)?;
        found.line.source_line()
    }

    /// An address, to be named by its source line.
    pub fn origin(&self, address: u64) -> SourceOrigin<'a> {
        SourceOrigin(self.line_of(address))
    }
}
