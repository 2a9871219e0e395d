//! The entries of a table: 8 bytes each, little endian, 512 in a frame.

ghost use Rattle.std.specs.Prelude.{◌≡◌, ℕ, ◌+◌, ◌*◌, ◌<◌, true, false};
ghost use Rattle.std.specs.Prelude.{IfSome, None};
ghost use Rattle.mte_frames.specs.Pool.{IsHeldBy, IsTaken, KeepsOthers};
ghost use Rattle.mte_translate.specs.Tables.{entry_at, is_valid, count_in, leaf_in, attrs_in};
ghost use Rattle.mte_translate.specs.Tables.{HasEntry, frame_in};
ghost use Rattle.mte_translate.specs.TableSteps.{Wrote};

use common::{ADDRESS_END, MAX_FRAMES, PAGE_SIZE};
use mte_frames::FramePool;
use mte_tags::Attrs;

/// A table maps pages below this number.
pub const TABLE_PAGES: u64 = 262_144;

/// The pages of a table in digits.
pub fn table_pages_in_digits()
    ensures { TABLE_PAGES ≡ 262144 }
{}

const _: () = prove!(TABLE_PAGES * PAGE_SIZE == ADDRESS_END);

/// The entries of a frame.
pub(crate) const ENTRIES: u64 = 512;

const _: () = prove!(ENTRIES * ENTRIES == TABLE_PAGES);

/// An entry of the root: bit 0, then ten bits with the number of pages that the leaf maps, then the
/// leaf's frame.
#[derive(Clone, Copy)]
pub(crate) struct RootEntry(pub(crate) u64);

impl RootEntry {
    /// A leaf that maps no page.
    pub(crate) fn new(leaf: usize) -> RootEntry
        requires { leaf < MAX_FRAMES }
        ensures { result.0 ≡ 2048 * leaf + 1 }
    {
        RootEntry(leaf as u64 * 2048 + 1)
    }

    #[inline]
    pub(crate) fn is_valid(self) -> bool
        ensures { result ≡ is_valid self.0 }
    {
        self.0 % 2 == 1
    }

    pub(crate) fn count(self) -> u64
        ensures { result ≡ count_in self.0 }
    {
        self.0 / 2 % 1024
    }

    #[inline]
    pub(crate) fn leaf(self) -> usize
        ensures { result ≡ leaf_in self.0 }
    {
        (self.0 / 2048) as usize
    }
}

/// An entry of a leaf: bit 0, then eight bits with the attributes, then the page's frame.
#[derive(Clone, Copy)]
pub(crate) struct LeafEntry(pub(crate) u64);

impl LeafEntry {
    pub(crate) fn new(frame: usize, attrs: Attrs) -> LeafEntry
        requires { frame < MAX_FRAMES }
        ensures value { result.0 ≡ 512 * frame + 2 * attrs.0 + 1 }
        ensures attrs { attrs.0 < 256 }
    {
        LeafEntry(frame as u64 * 512 + u64::from(attrs.0) * 2 + 1)
    }

    #[inline]
    pub(crate) fn is_valid(self) -> bool
        ensures { result ≡ is_valid self.0 }
    {
        self.0 % 2 == 1
    }

    #[inline]
    pub(crate) fn frame(self) -> usize
        ensures { result ≡ frame_in self.0 }
    {
        (self.0 / 512) as usize
    }

    #[inline]
    pub(crate) fn attrs(self) -> Attrs
        ensures { result ≡ attrs_in self.0 }
    {
        Attrs((self.0 / 2 % 256) as u8)
    }
}

/// The entry `index` of a frame.
#[inline]
pub(crate) fn entry(pool: &FramePool, frame: usize, index: u64) -> u64
    requires { HasEntry pool.now frame index }
    ensures { result ≡ entry_at pool.now frame index }
{
    let from = 8 * index as usize;
    let mut bytes = [0; 8];
    bytes.copy_from_slice(&pool.bytes(frame)[from..from + 8]);
    u64::from_le_bytes(bytes)
}

/// The least valid entry of a frame.
pub(crate) fn first_valid(pool: &FramePool, frame: usize) -> Option<u64>
    requires { IsTaken pool.now frame }
    ensures some { IfSome result
        (λ i. (i < 512) × (is_valid (entry_at pool.now frame i) ≡ true)) }
    ensures least { IfSome result
        (λ i. (j : ℕ) → j < i → is_valid (entry_at pool.now frame j) ≡ false) }
    ensures none { result ≡ None
        → (j : ℕ) → j < 512 → is_valid (entry_at pool.now frame j) ≡ false }
{
    for index in 0..ENTRIES {
        if LeafEntry(entry(pool, frame, index)).is_valid() {
            return Some(index);
        }
    }
    None
}

/// Writes the entry `index` of a frame.
pub(crate) fn set_entry(pool: &mut FramePool, frame: usize, index: u64, entry: u64)
    requires { HasEntry pool.old frame index }
    ensures wrote { Wrote pool.old pool.new frame index entry }
    ensures others { (k : ℕ) → IsHeldBy pool.old frame k → KeepsOthers k pool.old pool.new }
{
    pool.recall();
    let from = 8 * index as usize;
    pool.data_mut(frame)[from..from + 8].copy_from_slice(&entry.to_le_bytes());
}
