//! The pages that are mapped.

use crate::part::Part::{Hexadecimal, Number, Text};
use crate::part::write_parts;
use common::PAGE_SIZE;
use std::fmt;

/// The use of a range of pages.
#[derive(Clone, Copy)]
pub enum Kind {
    /// An image's segments.
    Image,
    /// The blocks of a size class.
    Class(u8),
    /// A chunk with pages of its own.
    Large,
    /// The stack.
    Stack,
}

impl fmt::Display for Kind {
    fn fmt<W: fmt::Write>(&self, f: &mut fmt::Formatter<W>) -> fmt::Result {
        let name = match self {
            Kind::Image => "image",
            Kind::Class(class) => return write!(f, "class {class}"),
            Kind::Large => "large chunk",
            Kind::Stack => "stack",
        };
        f.write_str(name)
    }
}

/// Mapped pages that follow each other.
#[derive(Clone, Copy)]
pub struct MappedRange {
    /// The address of the first.
    pub start: u64,
    /// Their number.
    pub count: u64,
    /// The use of the pages.
    pub kind: Kind,
}

impl fmt::Display for MappedRange {
    fn fmt<W: fmt::Write>(&self, f: &mut fmt::Formatter<W>) -> fmt::Result {
        let size = self.count.saturating_mul(PAGE_SIZE);
        let end = Hexadecimal(self.start.saturating_add(size));
        let (start, count) = (Hexadecimal(self.start), Number(self.count));
        write_parts(f, &[start, Text(" to "), end, Text(": "), count])?;
        f.write_str(if self.count == 1 {
            " page, "
        } else {
            " pages, "
        })?;
        let kind = self.kind;
        write!(f, "{kind}")
    }
}

/// The ranges of pages side by side.
const COLUMNS: usize = 3;

/// The most ranges of pages that are listed; how many more there are is said below them.
const LISTED: usize = 60;

/// The height of a line of the list.
const LINE: u64 = 16;

/// The width of a column of the list.
const COLUMN: u64 = 440;

/// The list of pages.
#[derive(Clone, Copy)]
pub struct List<'a>(pub &'a [MappedRange]);

impl<'a> List<'a> {
    /// The height in pixels.
    pub fn height(&self) -> u64 {
        let lines = self.0.len().min(LISTED).div_ceil(COLUMNS) as u64;
        let more = u64::from(self.0.len() > LISTED);
        LINE.saturating_mul(lines.saturating_add(more))
    }
}

impl<'a> fmt::Display for List<'a> {
    fn fmt<W: fmt::Write>(&self, f: &mut fmt::Formatter<W>) -> fmt::Result {
        for (index, pages) in self.0.iter().take(LISTED).enumerate() {
            let x = Number(COLUMN * (index % COLUMNS) as u64);
            let y = Number(LINE * (index / COLUMNS) as u64);
            let (start, middle) = (Text("<text x=\""), Text("\" y=\""));
            write_parts(f, &[start, x, middle, y, Text("\">")])?;
            write!(f, "{pages}</text>\n")?;
        }
        let more = self.0.len().saturating_sub(LISTED);
        if more > 0 {
            let y = LINE * (LISTED / COLUMNS) as u64;
            write!(f, "<text y=\"{y}\">and {more} more ranges</text>\n")?;
        }
        Ok(())
    }
}
