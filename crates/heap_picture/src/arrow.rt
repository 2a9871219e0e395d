//! An arrow from a chunk to the access that was refused.

use crate::cell::CELL_WIDTH;
use crate::layout::PITCH;
use crate::part::Part::{Number, Text};
use crate::part::write_parts;
use std::fmt;

/// How far an arrow goes above its rows.
const ABOVE: u64 = 12;

/// A granule of a picture.
#[derive(Clone, Copy)]
pub struct Spot {
    /// The number of its row in the picture, from 0.
    pub row: usize,
    /// Its number in the row, from 0.
    pub granule: usize,
}

impl Spot {
    /// The distance of its middle from the left side.
    fn x(&self) -> u64 {
        CELL_WIDTH
            .saturating_mul(self.granule as u64)
            .saturating_add(CELL_WIDTH / 2)
    }

    /// The distance of its row from the top.
    fn y(&self) -> u64 {
        PITCH.saturating_mul(self.row as u64)
    }

    /// The distance of its upper edge from the top of an arrow, which begins above the rows.
    fn edge(&self) -> u64 {
        self.y().saturating_add(ABOVE - 1)
    }
}

/// An arrow from a granule to another one, as `{}` writes it. It is written after the rows.
#[derive(Clone, Copy)]
pub struct Arrow {
    /// Where it begins.
    pub from: Spot,
    /// Where its head is.
    pub to: Spot,
}

impl fmt::Display for Arrow {
    fn fmt<W: fmt::Write>(&self, f: &mut fmt::Formatter<W>) -> fmt::Result {
        let (from, to) = (&self.from, &self.to);
        let (start, end) = (Number(from.x()), Number(to.x()));
        let (first, last) = (Number(from.edge()), Number(to.edge()));
        let open = Text("<path class=\"arrow\" transform=\"translate(0 -12)\" d=\"M");
        write_parts(f, &[open, start, Text(","), first])?;
        let middle = Number(from.x().saturating_add(to.x()) / 2);
        let above = Number(from.y().min(to.y()));
        write_parts(f, &[Text("Q"), middle, Text(","), above, Text(" ")])?;
        write_parts(f, &[end, Text(","), last, Text("\"/>\n")])
    }
}
