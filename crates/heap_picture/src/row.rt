//! A row of a picture.

ghost use Rattle.std.specs.Prelude.{◌≡◌, ◌↔◌, ◌⊎◌, ◌+◌, ◌*◌, ◌<◌, ◌≤◌, IfSome, None};
ghost use Rattle.common.specs.declared.limits.TheConstants.{GRANULE_SIZE};
ghost use Rattle.heap_picture.specs.declared.layout.TheConstants.{GRANULES};

use crate::cell::{CELL_WIDTH, Cell};
use crate::layout::GRANULES;
use crate::part::Part::{Number, Text};
use crate::part::write_parts;
use common::GRANULE_SIZE;
use std::fmt;

/// Whose a granule is.
#[derive(Clone, Copy)]
pub enum GranuleOwner {
    /// No chunk's: a header, the rest of a block, or a block that was never given out.
    Nothing,
    /// A chunk's that is in use.
    Live,
    /// A chunk's that was freed, and no newer one's.
    Freed,
}

/// A granule of memory.
#[derive(Clone, Copy)]
pub struct PictureGranule {
    /// Its allocation tag, 0 to 15; none where no page is mapped.
    pub tag: Option<u8>,
    /// Whose it is.
    pub owner: GranuleOwner,
}

impl PictureGranule {
    /// Whether it has no tag and is no chunk's.
    fn is_blank(&self) -> bool {
        let is_nothing = matches!(self.owner, GranuleOwner::Nothing);
        is_nothing && self.tag == Some(0)
    }
}

/// [`GRANULES`] granules that follow each other.
#[derive(Clone, Copy)]
pub struct PictureRow {
    /// The address of the first.
    pub address: u64,
    /// The size class of its blocks, if it has blocks.
    pub class: Option<u8>,
    /// The address of the first block of the class.
    pub first: u64,
    /// The bytes of a block; 0 where there are none.
    pub size: u64,
    /// The granules.
    pub granules: [PictureGranule; GRANULES],
}

/// The first granules of a row.
#[derive(Clone, Copy)]
pub struct FirstGranules<'a> {
    /// The row.
    pub row: &'a PictureRow,
    /// How many granules.
    pub shown: usize,
}

impl PictureRow {
    /// Whether a block begins at the granule with the number `index`.
    fn begins_block(&self, index: usize) -> bool {
        let distance = GRANULE_SIZE.saturating_mul(index as u64);
        let address = self.address.saturating_add(distance);
        let behind = address.checked_sub(self.first);
        behind.and_then(|bytes| bytes.checked_rem(self.size)) == Some(0)
    }

    /// How many granules are shown: in a row of blocks those up to two blocks after the last that
    /// has a tag, a chunk or the mark.
    pub(crate) fn shown(&self, marked: Option<usize>) -> usize {
        if self.size == 0 {
            return GRANULES;
        }
        let mut last = marked.unwrap_or(0);
        for (index, granule) in self.granules.iter().enumerate() {
            if !granule.is_blank() {
                last = last.max(index);
            }
        }
        let blocks = (2 * (self.size / GRANULE_SIZE)).saturating_add(last as u64);
        blocks.saturating_add(1).min(GRANULES as u64) as usize
    }

    /// The number of the granule that an address is in, where it is one of the row.
    pub fn index_of(&self, address: u64) -> Option<usize>
        ensures inside { IfSome result (λ i. (i < GRANULES)
            × (self.now.address + GRANULE_SIZE * i ≤ address)
            × (address < self.now.address + GRANULE_SIZE * i + GRANULE_SIZE)) }
        ensures outside { result ≡ None ↔ ((address < self.now.address)
            ⊎ (self.now.address + GRANULE_SIZE * GRANULES ≤ address)) }
    {
        let index = address.checked_sub(self.address)? / GRANULE_SIZE;
        if index < GRANULES as u64 {
            Some(index as usize)
        } else {
            None
        }
    }
}

/// Granules, each in the colour of its tag.
#[derive(Clone, Copy)]
pub struct Cells<'a>(pub FirstGranules<'a>);

impl<'a> fmt::Display for Cells<'a> {
    fn fmt<W: fmt::Write>(&self, f: &mut fmt::Formatter<W>) -> fmt::Result {
        let FirstGranules { row, shown } = self.0;
        for (index, granule) in row.granules.iter().enumerate() {
            if index < shown {
                let cell = Cell {
                    x: CELL_WIDTH * index as u64,
                    tag: granule.tag,
                };
                write!(f, "{cell}")?;
            }
        }
        Ok(())
    }
}

/// A line before each block that begins in granules.
#[derive(Clone, Copy)]
pub struct Boundaries<'a>(pub FirstGranules<'a>);

impl<'a> fmt::Display for Boundaries<'a> {
    fn fmt<W: fmt::Write>(&self, f: &mut fmt::Formatter<W>) -> fmt::Result {
        let FirstGranules { row, shown } = self.0;
        f.write_str("<path class=\"block\" d=\"")?;
        for index in 0..GRANULES {
            if index < shown && row.begins_block(index) {
                let x = Number(CELL_WIDTH * index as u64);
                write_parts(f, &[Text("M"), x, Text(",-2v22")])?;
            }
        }
        f.write_str("\"/>")
    }
}
