//! Accesses of a heap to a chunk that one page holds, with one look-up of its page.

ghost use Rattle.std.specs.Prelude.{◌≡◌, ◌+◌, ◌-◌, ◌/◌, ◌%◌, ◌^◌, ◌<◌, ◌≤◌, IfSome, true, false};
ghost use Rattle.std.specs.Prelude.{if◌then◌else◌};
ghost use Rattle.std.specs.Int.{from_le_bytes, w64};
ghost use Rattle.mte_tags.specs.Memory.{page_has, tag_at, with_granules};
ghost use Rattle.mte_tags.specs.Accesses.{read_bytes, with_bytes_at};

use crate::attrs::Attrs;
use crate::page::{copy_out, tag_in_page};
use crate::page_store::PageStore;

/// The granules of a page.
const GRANULES: u64 = 256;

/// The first eight bytes of the granule before an address, as a number, and the tag of the granule
/// at it, where one page with READ and WRITE holds both.
#[inline(always)]
pub(crate) fn read_chunk_in_page<S: PageStore>(store: &mut S, user: u64) -> Option<(u64, u8)>
    requires aligned { user % 16 ≡ 0 }
    requires above { 16 ≤ user }
    requires plain { user < 2 ^ 56 }
    ensures has { IfSome result
        (λ r. page_has (S.memory store.old) ((user - 16) / 4096) 3 ≡ true) }
    ensures word { IfSome result
        (λ r. r.0 ≡ from_le_bytes w64 (read_bytes (S.memory store.old) (user - 16) 8)) }
    ensures tag { IfSome result (λ r. r.1 ≡ tag_at (S.memory store.old) user) }
    ensures small { IfSome result (λ r. r.1 < 16) }
    ensures memory { S.memory store.new ≡ S.memory store.old }
    ensures kept { S.kept store.old store.new }
{
    let start = user - 16;
    if start % 4096 / 16 + 1 == GRANULES {
        return None;
    }
    let place = store.find(start / 4096)?;
    if !store.attrs(place).contains(Attrs::READ | Attrs::WRITE) {
        return None;
    }
    let mut bytes = [0; 8];
    copy_out(store, place, start, &mut bytes);
    Some((u64::from_le_bytes(bytes), tag_in_page(store, place, user)))
}

/// Gives tag 0 to `around` granules from the one before an address on, then a tag and zero bytes to
/// `count` granules from the address on, and replaces the first eight bytes of the one before it,
/// where one page holds all of them, and returns whether it did. `false` changes nothing.
#[inline(always)]
pub(crate) fn write_chunk_in_page<S: PageStore>(
    store: &mut S,
    user: u64,
    around: u64,
    count: u64,
    tag: u8,
    bytes: &[u8; 8],
) -> bool
    requires aligned { user % 16 ≡ 0 }
    requires above { 16 ≤ user }
    requires plain { user < 2 ^ 56 }
    requires tag { tag < 16 }
    ensures memory { S.memory store.new
        ≡ (if result
        then with_bytes_at
        (with_granules
        (with_granules (S.memory store.old) (user - 16) around 0 false)
        user count tag true)
        (user - 16) bytes.now
        else S.memory store.old) }
    ensures kept { S.kept store.old store.new }
{
    let start = user - 16;
    let first = start % 4096 / 16;
    if count == 0 || count >= GRANULES - first || around > GRANULES - first {
        return false;
    }
    let Some(place) = store.find(start / 4096) else {
        return false;
    };
    store.retag(place, first as usize, around as usize, 0, false);
    store.retag(place, first as usize + 1, count as usize, tag, true);
    store.replace_run(place, start, bytes);
    true
}
