//! The page map.

use crate::attributes::Letters;
use common::PAGE_SIZE;
use heap_bounds::RangeUse;
use mte_flat::Flat;
use mte_tags::{Attrs, Tagged};
use std::alloc::{AllocError, Global};
use std::fmt;

/// Pages one after another in one range, with the same attributes.
#[derive(Clone, Copy)]
pub struct MappedPages {
    /// The first address.
    pub start: u64,
    /// The address after the last.
    pub end: u64,
    /// The attributes of the pages.
    pub attrs: Attrs,
    /// The use of the pages.
    pub range: RangeUse,
}

impl fmt::Display for MappedPages {
    fn fmt<W: fmt::Write>(&self, f: &mut fmt::Formatter<W>) -> fmt::Result {
        let MappedPages { start, range, .. } = self;
        let (last, letters) = (self.end.wrapping_sub(1), Letters(self.attrs));
        write!(f, "{start:#010x} to {last:#010x}  {letters}  {range}")
    }
}

/// All pages of a memory, the lowest first. It takes time for the pages that are mapped.
pub fn page_map(alloc: Global, memory: &Flat) -> Result<Vec<MappedPages>, AllocError> {
    let mut pages = memory.mapped_pages(alloc)?;
    pages.sort_unstable_by_key(|page| page.number);
    let mut map: Vec<MappedPages> = Vec::new(alloc);
    for page in &pages {
        let page = page_of(page.number.saturating_mul(PAGE_SIZE), page.attrs);
        if !extend(map.as_mut_slice(), &page) {
            map.push(page)?;
        }
    }
    Ok(map)
}

/// The page at an address.
fn page_of(start: u64, attrs: Attrs) -> MappedPages {
    MappedPages {
        start,
        end: start.saturating_add(PAGE_SIZE),
        attrs,
        range: RangeUse::of(start),
    }
}

/// Lengthens the last pages by one that follows them and is like them, and returns whether it did.
fn extend(map: &mut [MappedPages], page: &MappedPages) -> bool {
    let Some(last) = map.last_mut() else {
        return false;
    };
    let follows = last.end == page.start && last.attrs == page.attrs && last.range == page.range;
    if follows {
        last.end = page.end;
    }
    follows
}

/// The attributes of a page that is mapped.
pub fn attrs_at<M: Tagged>(memory: &mut M, addr: u64) -> Option<Attrs> {
    if !memory.has_attrs(addr, Attrs::NONE) {
        return None;
    }
    let mut sum = Attrs::NONE;
    for attrs in [Attrs::READ, Attrs::WRITE, Attrs::EXEC, Attrs::TAGGED] {
        if memory.has_attrs(addr, attrs) {
            sum = sum | attrs;
        }
    }
    Some(sum)
}
