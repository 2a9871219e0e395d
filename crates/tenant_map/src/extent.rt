//! The granules of a chunk, as a picture shows them.

use common::GRANULE_SIZE;
use heap_picture::{GRANULES, GranuleOwner, PictureRow};
use run_records::BookChunk;

/// The bytes of a row.
pub const ROW_SIZE: u64 = GRANULES as u64 * GRANULE_SIZE;

/// The granules of a chunk.
#[derive(Clone, Copy)]
pub struct Extent {
    /// The first plain address.
    pub start: u64,
    /// The plain address after the last granule.
    pub end: u64,
    /// Whether the chunk is in use.
    pub live: bool,
    /// The chunk, with the call that freed it.
    pub chunk: BookChunk,
    /// The number of the call that gave its block before.
    pub earlier: Option<u64>,
    /// Whether no newer chunk has its block.
    pub is_newest: bool,
}

impl Extent {
    /// The granules of a row that it holds: the number of the first, and that after the last.
    pub fn in_row(&self, address: u64) -> Option<(usize, usize)> {
        if self.end <= address || address.saturating_add(ROW_SIZE) <= self.start {
            return None;
        }
        let start = self.start.saturating_sub(address) / GRANULE_SIZE;
        let end = self.end.saturating_sub(address).div_ceil(GRANULE_SIZE);
        Some((start as usize, (end as usize).min(GRANULES)))
    }

    /// Whether its first granule is in the row at an address.
    pub fn begins_in_row(&self, address: u64) -> bool {
        address <= self.start && self.start < address.saturating_add(ROW_SIZE)
    }

    /// Whose its granules are.
    fn owner(&self) -> GranuleOwner {
        if self.live {
            GranuleOwner::Live
        } else {
            GranuleOwner::Freed
        }
    }

    /// Whether an address is in one of its granules.
    fn holds(&self, address: u64) -> bool {
        self.start <= address && address < self.end
    }

    /// Whether some of its granules are in a row.
    fn meets(&self, row: &PictureRow) -> bool {
        self.start < row.address.saturating_add(ROW_SIZE) && row.address < self.end
    }

    /// Gives it the granules of a row that it holds.
    fn paint(&self, row: &mut PictureRow) {
        let first = row.address;
        for (index, granule) in row.granules.iter_mut().enumerate() {
            let distance = GRANULE_SIZE.saturating_mul(index as u64);
            if self.holds(first.saturating_add(distance)) {
                granule.owner = self.owner();
            }
        }
    }
}

/// Gives each granule of a row to the last extent that holds it.
pub fn paint_all(row: &mut PictureRow, extents: &[Extent]) {
    for extent in extents {
        if extent.meets(row) {
            extent.paint(row);
        }
    }
}
