//! The search for a place.

ghost use Rattle.std.specs.Prelude.{◌≡◌, ◌+◌, ◌*◌, ◌<◌, ◌≤◌, nat_le};
ghost use Rattle.scudo_secondary.specs.Mappings.{AreMappings, place_of};

use crate::mappings::Mapping;
use common::{PAGE_SIZE, SECONDARY_END, SECONDARY_START};

/// Whether pages from `start` on and one more lie below `end`.
#[inline]
fn fits_below(start: u64, pages: u64, end: u64) -> bool
    ensures { result ≡ nat_le (start + PAGE_SIZE * pages + PAGE_SIZE) end }
{
    end.saturating_sub(start) / PAGE_SIZE > pages
}

/// The least place for a number of pages.
pub(crate) fn first_gap(mappings: &[Mapping], pages: u64) -> Option<u64>
    requires { AreMappings mappings.now }
    ensures { result ≡ place_of mappings.now pages }
{
    let mut start = SECONDARY_START + PAGE_SIZE;
    for mapping in mappings {
        if fits_below(start, pages, mapping.start) {
            return Some(start);
        }
        start = mapping.start + PAGE_SIZE * mapping.pages + PAGE_SIZE;
    }
    if fits_below(start, pages, SECONDARY_END) {
        Some(start)
    } else {
        None
    }
}
