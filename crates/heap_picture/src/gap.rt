//! The text between two rows that do not follow each other.

use crate::layout::PITCH;
use crate::part::Part::{Hexadecimal, Number, Text};
use crate::part::write_parts;
use std::fmt;

/// The addresses that are left out between two rows, as `{}` writes them instead of a row.
#[derive(Clone, Copy)]
pub struct Gap {
    /// The number in the picture that a row would have there, from 0.
    pub number: usize,
    /// The first address that is left out.
    pub start: u64,
    /// The address after the last one.
    pub end: u64,
}

impl fmt::Display for Gap {
    fn fmt<W: fmt::Write>(&self, f: &mut fmt::Formatter<W>) -> fmt::Result {
        let y = Number(PITCH.saturating_mul(self.number as u64).saturating_add(13));
        let (open, middle) = (Text("<text class=\"ruler\" y=\""), Text("\">"));
        let (start, last) = (
            Hexadecimal(self.start),
            Hexadecimal(self.end.saturating_sub(1)),
        );
        write_parts(f, &[open, y, middle, start, Text(" to "), last])?;
        f.write_str(": not mapped, or the tags go on as above and no chunk begins or ends</text>\n")
    }
}
