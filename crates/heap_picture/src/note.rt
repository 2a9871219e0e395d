//! The note of a chunk.

use crate::cell::CELL_WIDTH;
use crate::layout::PITCH;
use crate::part::Part::{Number, Text};
use crate::part::{Escaped, write_parts};
use std::fmt;

/// The width of a letter of a label.
const LETTER: u64 = 6;

/// The note of granules that follow each other in a row: a label below them and the granule
/// after them, which is a header, and a title that viewers show where one points at them. Where
/// there is no space for the label, only its first word is written. It is written after the row.
#[derive(Clone, Copy)]
pub struct Note<'a> {
    /// The number of the row in the picture, from 0.
    pub row: usize,
    /// The number of the first granule.
    pub start: usize,
    /// The number after the last one's.
    pub end: usize,
    /// The label, any text of one line.
    pub label: &'a str,
    /// The title, any text of one line.
    pub title: &'a str,
    /// Whether they are framed in red, as those that the cause names.
    pub is_cause: bool,
}

impl<'a> Note<'a> {
    /// The width of its granules.
    fn width(&self) -> u64 {
        CELL_WIDTH.saturating_mul(self.end.saturating_sub(self.start) as u64)
    }

    /// The label, or its first word where there is no space for more.
    fn fitting_label(&self) -> &'a str {
        let room = self.width().saturating_add(CELL_WIDTH);
        if LETTER.saturating_mul(self.label.len() as u64) <= room {
            return self.label;
        }
        match self.label.split_once(' ') {
            Some((word, _)) => word,
            None => self.label,
        }
    }
}

impl<'a> fmt::Display for Note<'a> {
    fn fmt<W: fmt::Write>(&self, f: &mut fmt::Formatter<W>) -> fmt::Result {
        let x = Number(CELL_WIDTH.saturating_mul(self.start as u64));
        let y = Number(PITCH.saturating_mul(self.row as u64));
        let (open, space, close) = (Text("<g transform=\"translate("), Text(" "), Text(")\">"));
        write_parts(f, &[open, x, space, y, close])?;
        let class = if self.is_cause { "cause" } else { "note" };
        let title = Escaped(self.title);
        let width = self.width();
        write!(
            f,
            "<rect class=\"{class}\" width=\"{width}\" height=\"18\">"
        )?;
        write!(f, "<title>{title}</title></rect>")?;
        let label = Escaped(self.fitting_label());
        write!(f, "<text class=\"label\" y=\"28\">{label}</text></g>\n")
    }
}
