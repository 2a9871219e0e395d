//! The place of a page.

ghost use Rattle.std.specs.Prelude.{◌≡◌, ◌<◌, ◌^◌, IfSome, IsNone, IsFalse, is_some};
ghost use Rattle.mte_tags.specs.Accesses.{addresses};
ghost use Rattle.mte_tags.specs.Memory.{page_at};
ghost use Rattle.mte_tags.specs.declared.state.TagState.{TagState};
ghost use Rattle.tombolopan_c.specs.MemoryCodes.{all_mapped};
ghost use Rattle.tombolopan_c.specs.LentPages.{IsFirst, HasNone, IsFree, has_room, lent_memory};

use crate::lent_page::LentPage;

/// Plain addresses are below it.
const ADDRESSES: u64 = 1 << 56;

/// The first place of a page.
pub(crate) fn find(pages: &[LentPage], number: u64) -> Option<usize>
    ensures some { IfSome result (λ i. IsFirst pages.now i number) }
    ensures none { IsNone result → HasNone pages.now number }
{
    for (i, page) in pages.iter().enumerate() {
        if page.is_of(number) {
            return Some(i);
        }
    }
    None
}

/// Whether a page has a place.
pub(crate) fn is_mapped(pages: &[LentPage], number: u64) -> bool
    ensures page { (s : TagState)
        → result ≡ is_some (page_at (lent_memory s pages.now) number) }
    ensures none { IsFalse result → HasNone pages.now number }
{
    find(pages, number).is_some()
}

/// The first free place.
pub(crate) fn find_free(pages: &[LentPage]) -> Option<usize>
    ensures some { IfSome result (λ i. IsFree pages.now i) }
    ensures room { is_some result ≡ has_room pages.now }
{
    for (i, page) in pages.iter().enumerate() {
        if page.mapped == 0 {
            return Some(i);
        }
    }
    None
}

/// Whether the pages of `count` bytes from a plain address on are mapped; after the last address
/// comes 0.
pub(crate) fn are_mapped(pages: &[LentPage], at: u64, count: usize) -> bool
    requires { at < 2 ^ 56 }
    ensures { (s : TagState)
        → result ≡ all_mapped (lent_memory s pages.now) (addresses at count) }
{
    let mut place = at;
    // The page that was found last; at first none.
    let mut known = u64::MAX;
    for _ in 0..count {
        let page = place / 4096;
        if page != known {
            if !is_mapped(pages, page) {
                return false;
            }
            known = page;
        }
        place = (place + 1) % ADDRESSES;
    }
    true
}
