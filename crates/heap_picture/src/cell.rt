//! A granule's cell: 16 pixels wide and 18 high.

use crate::part::Part::{Number, Text};
use crate::part::write_parts;
use std::fmt;

/// The width of a cell.
pub const CELL_WIDTH: u64 = 16;

/// A cell in the colour of a tag.
#[derive(Clone, Copy)]
pub struct Cell {
    /// Its left side.
    pub x: u64,
    /// The tag; none where no page is mapped.
    pub tag: Option<u8>,
}

impl fmt::Display for Cell {
    fn fmt<W: fmt::Write>(&self, f: &mut fmt::Formatter<W>) -> fmt::Result {
        let (middle, x, end) = (Text("\" x=\""), Number(self.x), Text("\"/>"));
        match self.tag {
            Some(tag) => {
                let tag = Number(u64::from(tag % 16));
                write_parts(f, &[Text("<use href=\"#t"), tag, middle, x, end])
            }
            None => write_parts(f, &[Text("<use href=\"#u"), middle, x, end]),
        }
    }
}
