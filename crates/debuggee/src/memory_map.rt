//! The regions of a memory.

use common::PAGE_SIZE;
use mte_flat::Flat;
use mte_tags::Attrs;
use std::alloc::{AllocError, Global};

/// Pages one after another with the same attributes.
#[derive(Clone, Copy)]
pub struct MappedRegion {
    /// The first address.
    pub start: u64,
    /// The address after the last.
    pub end: u64,
    /// The attributes of the pages.
    pub attrs: Attrs,
}

impl MappedRegion {
    /// How many bytes it has.
    pub fn len(&self) -> u64 {
        self.end.saturating_sub(self.start)
    }

    /// Whether its granules have allocation tags.
    pub fn is_tagged(&self) -> bool {
        self.attrs.contains(Attrs::TAGGED)
    }
}

/// The regions of a memory, the lowest first. It takes time for the pages that are mapped.
pub fn regions(alloc: Global, memory: &Flat) -> Result<Vec<MappedRegion>, AllocError> {
    let mut pages = memory.mapped_pages(alloc)?;
    pages.sort_unstable_by_key(|page| page.number);
    let mut all: Vec<MappedRegion> = Vec::new(alloc);
    for page in &pages {
        append(&mut all, page.number.saturating_mul(PAGE_SIZE), page.attrs)?;
    }
    Ok(all)
}

/// Lengthens the last region by a page, or begins one with it.
fn append(all: &mut Vec<MappedRegion>, start: u64, attrs: Attrs) -> Result<(), AllocError> {
    let end = start.saturating_add(PAGE_SIZE);
    if let Some(last) = all.last_mut() {
        if last.end == start && last.attrs == attrs {
            last.end = end;
            return Ok(());
        }
    }
    all.push(MappedRegion { start, end, attrs })?;
    Ok(())
}
