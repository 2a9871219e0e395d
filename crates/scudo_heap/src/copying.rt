//! The bytes of a chunk go to another one.

ghost use Rattle.std.specs.Prelude.{◌≡◌, ◌+◌, ◌≤◌, length, ℕ};
ghost use Rattle.mte_tags.specs.Memory.{attrs_at};
ghost use Rattle.scudo_heap.specs.Realloc.{after_copy};
ghost use Rattle.scudo_heap.specs.Inner.{AreApart, IsOpen};

use mte_tags::{Paged, Tagged};

/// How many bytes are copied at a time.
const PART: usize = 256;

/// Copies as many bytes of the heap's pages as a buffer holds.
#[tactic(auto, unfolding(crate::specs::Realloc::after_copy))]
fn copy_part<M: Paged>(memory: &mut M, from: u64, to: u64, part: &mut [u8])
    requires source { IsOpen (M.memory memory.old) from (from + length part.old) }
    requires target { IsOpen (M.memory memory.old) to (to + length part.old) }
    ensures memory { M.memory memory.new
        ≡ after_copy (M.memory memory.old) from to (length part.old) }
    ensures kept { M.kept memory.old memory.new }
{
    // The heap's pages can be read.
    let _ = memory.read(from, part, false);
    memory.load_bytes(to, part);
}

/// Copies bytes between two places of the heap's pages that lie apart.
pub(crate) fn copy_bytes<M: Paged>(memory: &mut M, from: u64, to: u64, count: u64)
    requires source { IsOpen (M.memory memory.old) from (from + count) }
    requires target { IsOpen (M.memory memory.old) to (to + count) }
    requires apart { AreApart from to count }
    ensures memory { M.memory memory.new ≡ after_copy (M.memory memory.old) from to count }
    ensures kept { M.kept memory.old memory.new }
{
    let mut part = [0; PART];
    let mut done = 0;
    while done < count {
        let more = (count - done).min(PART as u64);
        copy_part(memory, from + done, to + done, &mut part[..more as usize]);
        done += more;
    }
}
