//! The chunks of a row.

use crate::cell::CELL_WIDTH;
use crate::layout::GRANULES;
use crate::part::Part::{Number, Text};
use crate::part::write_parts;
use crate::row::{GranuleOwner, PictureRow};
use std::fmt;

/// How far a frame at a row's end is drawn beyond the row. It is clipped there, and so open: the
/// chunk may go on in another row.
const BEYOND: u64 = 8;

/// Granules of one owner that follow each other.
#[derive(Clone, Copy)]
struct GranuleRun {
    owner: GranuleOwner,
    /// The number of the first.
    start: usize,
    /// The number after the last's.
    end: usize,
}

impl GranuleRun {
    /// The left and right side, in a row that begins at [`BEYOND`].
    fn sides(&self) -> (u64, u64) {
        let left = match self.start {
            0 => 0,
            start => CELL_WIDTH
                .saturating_mul(start as u64)
                .saturating_add(BEYOND),
        };
        let right = match self.end {
            GRANULES => CELL_WIDTH * GRANULES as u64 + 2 * BEYOND,
            end => CELL_WIDTH.saturating_mul(end as u64).saturating_add(BEYOND),
        };
        (left, right)
    }
}

impl fmt::Display for GranuleRun {
    fn fmt<W: fmt::Write>(&self, f: &mut fmt::Formatter<W>) -> fmt::Result {
        let start = match self.owner {
            GranuleOwner::Nothing => return Ok(()),
            GranuleOwner::Live => Text("<rect class=\"live\" y=\"1\" height=\"16\" x=\""),
            GranuleOwner::Freed => Text("<rect class=\"freed\" y=\"1\" height=\"16\" x=\""),
        };
        let (left, right) = self.sides();
        let (left, width) = (Number(left), Number(right.saturating_sub(left)));
        write_parts(f, &[start, left, Text("\" width=\""), width, Text("\"/>")])
    }
}

/// The chunks of a row, each in a frame.
#[derive(Clone, Copy)]
pub struct RowChunks<'a>(pub &'a PictureRow);

impl<'a> fmt::Display for RowChunks<'a> {
    fn fmt<W: fmt::Write>(&self, f: &mut fmt::Formatter<W>) -> fmt::Result {
        let mut run = GranuleRun {
            owner: GranuleOwner::Nothing,
            start: 0,
            end: 0,
        };
        f.write_str("<g transform=\"translate(-8)\" clip-path=\"url(#row)\">")?;
        for (index, granule) in self.0.granules.iter().enumerate() {
            if granule.owner != run.owner {
                write!(f, "{run}")?;
                run = GranuleRun {
                    owner: granule.owner,
                    start: index,
                    end: index,
                };
            }
            run.end = index + 1;
        }
        write!(f, "{run}</g>")
    }
}
