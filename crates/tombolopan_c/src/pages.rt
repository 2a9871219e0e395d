//! Which pages a memory has, as a list for the caller.

ghost use Rattle.std.specs.Prelude.{◌≡◌, IfOk, map};
ghost use Rattle.mte_flat.specs.declared.mapped.MappedPage.{MappedPage};
ghost use Rattle.tombolopan_c.specs.Pages.{page_told, IsPageMap};

use mte_flat::{Flat, MappedPage};
use std::alloc::{AllocError, Global};

/// A page that is mapped.
#[repr(C)]
#[derive(Clone, Copy)]
pub struct PageEntry {
    /// The plain address of its first byte divided by 4096.
    pub number: u64,
    /// The sum of READ 1, WRITE 2, EXEC 4 and TAGGED 8.
    pub attrs: u32,
    /// 0.
    pub unused: u32,
}

impl PageEntry {
    fn of(page: &MappedPage) -> PageEntry
        ensures { result ≡ page_told page.now }
    {
        PageEntry {
            number: page.number,
            attrs: u32::from(page.attrs.0),
            unused: 0,
        }
    }
}

/// An entry for each page.
fn told_pages(alloc: Global, pages: &[MappedPage]) -> Result<Vec<PageEntry>, AllocError>
    ensures { IfOk result (λ entries. entries.items ≡ map page_told pages.now) }
{
    let mut entries = Vec::new(alloc);
    for page in pages {
        entries.push(PageEntry::of(page))?;
    }
    Ok(entries)
}

/// The pages of a memory, each once, in no order.
pub fn page_map(alloc: Global, memory: &Flat) -> Result<Vec<PageEntry>, AllocError>
    ensures { IfOk result (λ entries. IsPageMap memory.now entries.items) }
{
    let pages = memory.mapped_pages(alloc)?;
    told_pages(alloc, pages.as_slice())
}
