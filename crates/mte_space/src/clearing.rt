//! The end of all of a tenant's pages.

ghost use Rattle.std.specs.Prelude.{◌≡◌};
ghost use Rattle.mte_space.specs.Spaces.{IsSpace, KeepsRest};

use crate::mapping::unmap_page;
use mte_frames::{FramePool, Quota};
use mte_translate::Table;

/// Unmaps all pages of a table that maps at most `limit`, and gives their frames back. What a
/// translation lookaside buffer remembers of them is the caller's to forget.
pub fn unmap_all(pool: &mut FramePool, table: &mut Table, quota: &mut Quota, limit: usize)
    requires space { IsSpace pool.old quota.old table.old limit }
    ensures space { IsSpace pool.new quota.new table.new limit }
    ensures none { table.new.len ≡ 0 }
    ensures rest { KeepsRest quota.old pool.old pool.new table.old table.new }
    ensures same { quota.new ≡ quota.old }
{
    while let Some(page) = table.first(pool) {
        unmap_page(pool, table, quota, limit, page);
    }
}
