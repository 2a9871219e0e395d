//! Which rows a picture has, and what they show.

use crate::extent::{Extent, ROW_SIZE, paint_all};
use crate::pages::MappedPages;
use common::{ADDRESS_END, GRANULE_SIZE, REGION_SIZE, REGIONS_START};
use heap_bounds::{Block, RangeUse};
use heap_picture::{GRANULES, GranuleOwner, PictureGranule, PictureRow, ROWS};
use mte_tags::{FaultKind, Tagged};
use std::alloc::{AllocError, Global};

/// How many rows are shown one after another in which nothing changes.
const PLAIN: u32 = 1;

/// A row that may be shown.
#[derive(Clone, Copy)]
pub struct CandidateRow {
    /// The address of its first granule.
    pub address: u64,
    /// Its number from the first row, where a gap in the addresses counts as a row, and the line
    /// above the mark's row.
    pub number: usize,
}

/// The rows that are shown, by their numbers.
#[derive(Clone, Copy)]
pub struct Window {
    /// The first number.
    pub first: usize,
    /// How many numbers there are, at most [`ROWS`].
    pub count: usize,
}

impl Window {
    /// The rows around an address, or the first ones.
    pub fn around(places: &[CandidateRow], mark: Option<u64>) -> Window {
        let total = match places.last() {
            Some(last) => last.number.saturating_add(1),
            None => 0,
        };
        let middle = match mark {
            Some(addr) => number_of(places, addr),
            None => 0,
        };
        let most = total.saturating_sub(ROWS);
        Window {
            first: middle.saturating_sub(ROWS / 2).min(most),
            count: total.min(ROWS),
        }
    }

    /// How many of the rows are shown.
    pub fn shown(&self, places: &[CandidateRow]) -> usize {
        places
            .iter()
            .filter(|place| self.number(*place).is_some())
            .count()
    }

    /// The number of a row in the picture, if it is shown.
    pub fn number(&self, place: &CandidateRow) -> Option<usize> {
        let number = place.number.checked_sub(self.first)?;
        if number < self.count {
            Some(number)
        } else {
            None
        }
    }
}

/// The number of the row that an address is in.
fn number_of(places: &[CandidateRow], addr: u64) -> usize {
    place_of(places, addr).map_or(0, |place| place.number)
}

/// The row that an address is in.
pub fn place_of(places: &[CandidateRow], addr: u64) -> Option<&CandidateRow> {
    places.iter().find(|place| place.address == row_of(addr))
}

/// The address of the row that an address is in.
fn row_of(addr: u64) -> u64 {
    addr - addr % ROW_SIZE
}

/// The rows of the heap's pages, and of a marked address with its neighbours, but for those that
/// have nothing to show.
pub fn places<M: Tagged>(
    alloc: Global,
    memory: &mut M,
    map: &[MappedPages],
    extents: &[Extent],
    mark: Option<u64>,
) -> Result<Vec<CandidateRow>, AllocError> {
    let mut rows = heap_rows(alloc, memory, map, extents)?;
    if let Some(addr) = mark {
        push_marked(&mut rows, memory, addr)?;
    }
    rows.sort()?;
    rows.dedup();
    number_rows(alloc, rows.as_slice(), mark.map(row_of))
}

/// The rows of the heap's pages.
fn heap_rows<M: Tagged>(
    alloc: Global,
    memory: &mut M,
    map: &[MappedPages],
    extents: &[Extent],
) -> Result<Vec<u64>, AllocError> {
    let edges = edges(alloc, extents)?;
    let mut rows = Vec::new(alloc);
    for pages in map {
        if let RangeUse::Class(_) | RangeUse::Large = pages.range {
            push_rows(&mut rows, memory, pages, edges.as_slice())?;
        }
    }
    Ok(rows)
}

/// For each row of the address space whether a chunk begins or ends there.
fn edges(alloc: Global, extents: &[Extent]) -> Result<Vec<bool>, AllocError> {
    let mut edges = vec![in alloc; false; (ADDRESS_END / ROW_SIZE) as usize]?;
    for extent in extents {
        mark_row(edges.as_mut_slice(), extent.start);
        mark_row(edges.as_mut_slice(), extent.end.saturating_sub(1));
    }
    Ok(edges)
}

/// Marks the row that an address is in.
fn mark_row(rows: &mut [bool], addr: u64) {
    if let Some(row) = rows.get_mut((addr / ROW_SIZE) as usize) {
        *row = true;
    }
}

/// Adds the rows of pages, without those that go on as the rows in front of them and those that
/// have nothing but tag 0.
fn push_rows<M: Tagged>(
    rows: &mut Vec<u64>,
    memory: &mut M,
    pages: &MappedPages,
    edges: &[bool],
) -> Result<(), AllocError> {
    let mut plain = 0u32;
    for index in pages.start / ROW_SIZE..pages.end / ROW_SIZE {
        let address = index.saturating_mul(ROW_SIZE);
        let edge = edges.get(index as usize).copied().unwrap_or(false);
        plain = if edge || !is_plain(memory, address) {
            0
        } else {
            plain.saturating_add(1)
        };
        if edge || plain <= PLAIN && !is_blank(memory, address) {
            rows.push(address)?;
        }
    }
    Ok(())
}

/// Whether all granules of a row have the tag of the granule in front of it.
fn is_plain<M: Tagged>(memory: &mut M, address: u64) -> bool {
    let before = tag_of(memory, address.saturating_sub(GRANULE_SIZE));
    for index in 0..GRANULES as u64 {
        if tag_of(memory, address.saturating_add(index * GRANULE_SIZE)) != before {
            return false;
        }
    }
    true
}

/// Whether all granules of a row have tag 0.
fn is_blank<M: Tagged>(memory: &mut M, address: u64) -> bool {
    for index in 0..GRANULES as u64 {
        if tag_of(memory, address.saturating_add(index * GRANULE_SIZE)) != Some(0) {
            return false;
        }
    }
    true
}

/// Adds the row of an address, and the rows next to it that have tags.
fn push_marked<M: Tagged>(
    rows: &mut Vec<u64>,
    memory: &mut M,
    addr: u64,
) -> Result<(), AllocError> {
    let own = row_of(addr);
    rows.push(own)?;
    push_tagged(rows, memory, own.saturating_sub(ROW_SIZE))?;
    push_tagged(rows, memory, own.saturating_add(ROW_SIZE))
}

/// Adds the row at an address, if its page is mapped and a granule has a tag.
fn push_tagged<M: Tagged>(
    rows: &mut Vec<u64>,
    memory: &mut M,
    address: u64,
) -> Result<(), AllocError> {
    if tag_of(memory, address).is_some() && !is_blank(memory, address) {
        rows.push(address)?;
    }
    Ok(())
}

/// Numbers the rows, and leaves a number out where rows between are left out, and one before the
/// row with the mark, for what is said of that.
fn number_rows(
    alloc: Global,
    rows: &[u64],
    marked: Option<u64>,
) -> Result<Vec<CandidateRow>, AllocError> {
    let mut places = Vec::with_capacity(alloc, rows.len())?;
    let mut number = 0usize;
    let mut next = rows.first().copied().unwrap_or(0);
    for row in rows {
        let address = *row;
        if address != next {
            number = number.saturating_add(1);
        }
        if Some(address) == marked {
            number = number.saturating_add(1);
        }
        places.push(CandidateRow { address, number })?;
        number = number.saturating_add(1);
        next = address.saturating_add(ROW_SIZE);
    }
    Ok(places)
}

/// The allocation tag of the granule that an address is in; none where no page is mapped.
fn tag_of<M: Tagged>(memory: &mut M, addr: u64) -> Option<u8> {
    match memory.load_tag(addr) {
        Ok(tag) => Some(tag),
        Err(fault) if fault.kind == FaultKind::Translation => None,
        Err(_) => Some(0),
    }
}

/// The contents of the row at an address.
pub fn row_at<M: Tagged>(memory: &mut M, extents: &[Extent], address: u64) -> PictureRow {
    let unmapped = PictureGranule {
        tag: None,
        owner: GranuleOwner::Nothing,
    };
    let mut row = PictureRow {
        address,
        class: None,
        first: 0,
        size: 0,
        granules: [unmapped; GRANULES],
    };
    if let Some(Block { class, size, .. }) = Block::of(address) {
        row.class = Some(class);
        row.first = REGIONS_START + u64::from(class) * REGION_SIZE;
        row.size = size;
    }
    load_tags(&mut row, memory);
    paint_all(&mut row, extents);
    row
}

/// Gives each granule of a row its tag.
fn load_tags<M: Tagged>(row: &mut PictureRow, memory: &mut M) {
    let first = row.address;
    for (index, granule) in row.granules.iter_mut().enumerate() {
        let distance = GRANULE_SIZE.saturating_mul(index as u64);
        granule.tag = tag_of(memory, first.saturating_add(distance));
    }
}
