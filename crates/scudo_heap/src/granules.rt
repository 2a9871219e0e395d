//! Accesses of the heap to its pages of the tenant's memory. No access of the heap's own compares
//! tags, so none sets the flag of the asynchronous mode.

ghost use Rattle.std.specs.Prelude.{◌≡◌, ◌+◌, ◌-◌, ◌*◌, ◌%◌, ◌^◌, ◌<◌, ◌≤◌, ℕ};
ghost use Rattle.std.specs.Int.{to_le_bytes, w64};
ghost use Rattle.mte_tags.specs.Memory.{attrs_at, tag_at, with_granules};
ghost use Rattle.mte_tags.specs.Accesses.{with_bytes_at};
ghost use Rattle.scudo_header.specs.Headers.{FitsInWord};
ghost use Rattle.scudo_heap.specs.Chunks.{with_header};
ghost use Rattle.scudo_heap.specs.Inner.{IsBehindGranule, IsOpen};

use mte_tags::{Paged, Tagged};
use scudo_header::{Header, pack};

/// Gives granules of the heap's pages a tag, and makes their bytes zero where `zero` is set.
#[inline(never)]
pub(crate) fn set_tags<M: Paged>(memory: &mut M, addr: u64, granules: u64, tag: u8, zero: bool)
    requires aligned { addr % 16 ≡ 0 }
    requires tag { tag < 16 }
    requires open { IsOpen (M.memory memory.old) addr (addr + 16 * granules) }
    ensures memory { M.memory memory.new
        ≡ with_granules (M.memory memory.old) addr granules tag zero }
    ensures attrs { (q : ℕ)
        → attrs_at (M.memory memory.new) q ≡ attrs_at (M.memory memory.old) q }
    ensures kept { M.kept memory.old memory.new }
{
    // The heap's pages lack nothing that it requires.
    let _ = memory.store_tags(addr, granules, tag, zero);
}

/// The tag of a granule of the heap's pages.
#[inline(always)]
pub(crate) fn tag_there<M: Paged>(memory: &mut M, addr: u64) -> u8
    requires open { IsOpen (M.memory memory.old) addr (addr + 1) }
    ensures tag { result ≡ tag_at (M.memory memory.old) addr }
    ensures small { result < 16 }
    ensures memory { M.memory memory.new ≡ M.memory memory.old }
    ensures kept { M.kept memory.old memory.new }
{
    match memory.load_tag(addr) {
        Ok(tag) => tag,
        // The heap's pages lack nothing that it requires.
        Err(_) => 0,
    }
}

/// Writes the word of a chunk's header.
#[inline(always)]
pub(crate) fn put_word<M: Paged>(memory: &mut M, user: u64, word: u64)
    requires above { IsBehindGranule user }
    requires open { IsOpen (M.memory memory.old) (user - 16) user }
    ensures memory { M.memory memory.new
        ≡ with_bytes_at (M.memory memory.old) (user - 16) (to_le_bytes w64 word) }
    ensures kept { M.kept memory.old memory.new }
{
    // The heap's pages lack nothing that it requires.
    let _ = memory.write(user - 16, &word.to_le_bytes(), false);
}

/// Writes the header of a chunk.
#[tactic(auto, unfolding(crate::specs::Chunks::with_header))]
#[inline(always)]
pub(crate) fn put_header<M: Paged>(memory: &mut M, cookie: u32, user: u64, header: &Header)
    requires fields { FitsInWord header.now }
    requires above { IsBehindGranule user }
    requires open { IsOpen (M.memory memory.old) (user - 16) user }
    ensures memory { M.memory memory.new
        ≡ with_header (M.memory memory.old) cookie user header.now }
    ensures kept { M.kept memory.old memory.new }
{
    put_word(memory, user, pack(cookie, user, header));
}
