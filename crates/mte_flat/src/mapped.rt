//! Which pages are mapped.

ghost use Rattle.std.specs.Prelude.{◌≡◌, IfOk, map};
ghost use Rattle.mte_flat.specs.Inner.MappedSlots.{mapped_in};

use crate::slot::Slot;
use mte_tags::Attrs;
use std::alloc::{AllocError, Global};

/// A mapped page.
#[derive(Clone, Copy, PartialEq, Eq)]
pub struct MappedPage {
    /// Its number: its first address divided by 4096.
    pub number: u64,
    /// The attributes of the page.
    pub attrs: Attrs,
}

/// The page in each slot.
pub(crate) fn mapped_slots(alloc: Global, slots: &[Slot]) -> Result<Vec<MappedPage>, AllocError>
    ensures { IfOk result (λ pages. pages.items ≡ map mapped_in slots.now) }
{
    let mut pages = Vec::new(alloc);
    for slot in slots {
        pages.push(MappedPage {
            number: slot.page,
            attrs: slot.attrs,
        })?;
    }
    Ok(pages)
}
