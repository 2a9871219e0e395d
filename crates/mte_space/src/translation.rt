//! The translation of a page, by the lookaside buffer and the table.

ghost use Rattle.std.specs.Prelude.{◌≡◌, ◌<◌, ◌*◌, ◌^◌, IsTrue, IsFalse, IfSome, Some, None};
ghost use Rattle.std.specs.FinMap.{get};
ghost use Rattle.mte_translate.specs.Tables.{pages_of, IsSomeTable, IsCached};
ghost use Rattle.mte_translate.specs.Translations.{lookup};
ghost use Rattle.mte_space.specs.Spaces.{NoneEnters};

use mte_frames::FramePool;
use mte_tags::Attrs;
use mte_translate::{Table, Tlb, fill_adds_its_own, lookup_returns_what_stands};

/// The frame and the attributes of a page, if it is mapped. Where no translation is in the
/// lookaside buffer, the table is walked, and the buffer remembers what is mapped there.
#[inline(always)]
pub(crate) fn translate(
    pool: &FramePool,
    table: &Table,
    tlb: &mut Tlb,
    asid: usize,
    page: u64,
) -> Option<(usize, Attrs)>
    requires table { IsSomeTable pool.now table.now }
    requires cached { IsCached (pages_of pool.now table.now.frame) asid tlb.old }
    ensures found { result ≡ get (pages_of pool.now table.now.frame) page }
    ensures filled { IfSome result (λ found. lookup asid page tlb.new ≡ Some found) }
    ensures cached { IsCached (pages_of pool.now table.now.frame) asid tlb.new }
    ensures entries { NoneEnters asid tlb.old tlb.new }
{
    lookup_returns_what_stands();
    if let Some(found) = tlb.quick_lookup(asid, page) {
        return Some(found);
    }
    walk_and_fill(pool, table, tlb, asid, page)
}

/// Slow path: asks all translations of the page's hash, and then the table.
#[inline(never)]
fn walk_and_fill(
    pool: &FramePool,
    table: &Table,
    tlb: &mut Tlb,
    asid: usize,
    page: u64,
) -> Option<(usize, Attrs)>
    requires table { IsSomeTable pool.now table.now }
    requires cached { IsCached (pages_of pool.now table.now.frame) asid tlb.old }
    ensures found { result ≡ get (pages_of pool.now table.now.frame) page }
    ensures filled { IfSome result (λ found. lookup asid page tlb.new ≡ Some found) }
    ensures cached { IsCached (pages_of pool.now table.now.frame) asid tlb.new }
    ensures entries { NoneEnters asid tlb.old tlb.new }
{
    lookup_returns_what_stands();
    if let Some(found) = tlb.lookup(asid, page) {
        return Some(found);
    }
    fill_adds_its_own();
    let (frame, attrs) = table.walk(pool, page)?;
    tlb.add(asid, page, frame, attrs);
    Some((frame, attrs))
}
