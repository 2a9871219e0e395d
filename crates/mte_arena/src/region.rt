//! The one allocation that holds all frames, and the functions that touch it through a raw pointer.
//!
//! Each function here is a line or two and is proved by hand; all else is safe code over them.

ghost use Rattle.std.specs.Prelude.{◌≡◌, ℕ, ◌+◌, ◌*◌, ◌^◌, ◌<◌, ◌≤◌, List, Option, Some, None};
ghost use Rattle.std.specs.Prelude.{length, take, drop, replicate, get_or, slice_set, IfOk, ⊤};
ghost use Rattle.std.specs.Borrow.{sem};
ghost use base.Fml.{ftrue};
ghost use denote.RawPtr.{Ptr};
ghost use Rattle.mte_arena.specs.Blocks.{IsPresent, block_at, zero_block};
ghost use Rattle.mte_arena.specs.Ownership.{region_owned, region_shown, may_free};

use crate::arena::FRAME_BYTES;
use std::alloc::{AllocError, Allocator};
use std::marker::{Model, PhantomData};
use std::slice;

/// The bytes from one frame to the next: 4096 of data, then 128 with two tags each.
pub(crate) const STRIDE: usize = 4224;

/// Where the allocation begins. It owns nothing.
pub(crate) struct RegionStart {
    pointer: *mut u8,
}

impl Clone for RegionStart {
    ghost is_clone = { λ x y. y ≡ x };

    ghost is_infallible = { λ _. ⊤ };

    fn clone(&self) -> Result<RegionStart, AllocError> {
        Ok(*self)
    }
}

impl Copy for RegionStart {}

/// The owner of the frames' memory. It takes no space.
pub(crate) struct Region {
    mark: PhantomData<*const u8>,
    ghost start: { Ptr },
    ghost blocks: { List (Option (List ℕ)) },
}

impl Model for Region {
    ghost also_owns = { λ r. region_owned r.start r.blocks };

    ghost also_shares = { λ r _ κ. region_shown r.start r.blocks κ };
}

/// The right to give the memory of `count` frames back to its allocator. It takes no space.
pub(crate) struct FreeingRight<A: Allocator> {
    mark: PhantomData<*const A>,
    ghost start: { Ptr },
    ghost count: { ℕ },
    ghost alloc: { A },
}

impl<A: Allocator> Model for FreeingRight<A> {
    ghost also_owns = { λ t. may_free (A.dealloc_token t.alloc) t.start t.count };

    ghost also_shares = { λ _ _ _. ftrue };
}

/// Takes memory for `count` frames in one allocation, and writes nothing there.
pub(crate) fn allocate<A: Allocator>(
    alloc: &A,
    count: usize,
) -> Result<(RegionStart, Region, FreeingRight<A>), AllocError>
    requires { count * STRIDE < 2 ^ 63 }
    ensures { IfOk result
        (λ r. (r.1.start ≡ r.0.pointer)
        × (r.1.blocks ≡ replicate count None)
        × (r.2.start ≡ r.0.pointer) × (r.2.count ≡ count) × (r.2.alloc ≡ alloc.now)) }
{
    match alloc.allocate(count * STRIDE, 1) {
        Ok(pointer) => Ok((
            RegionStart { pointer },
            Region { mark: PhantomData },
            FreeingRight { mark: PhantomData },
        )),
        Err(error) => Err(error),
    }
}

/// Gives the memory of all frames back, whether they are present or not.
pub(crate) fn deallocate<A: Allocator>(
    alloc: &A,
    start: RegionStart,
    count: usize,
    region: Region,
    right: FreeingRight<A>,
)
    requires { (region.start ≡ start.pointer)
        × (length region.blocks ≡ count)
        × (right.start ≡ start.pointer) × (right.count ≡ count) × (right.alloc ≡ alloc.now) }
{
    let Region { mark: _ } = region;
    let FreeingRight { mark: _ } = right;
    unsafe {
        alloc.deallocate(start.pointer, count * STRIDE, 1);
    }
}

impl Region {
    ghost use Rattle.mte_arena.specs.RegionLends.{lends_part};

    /// Fills the frame `f` with zeros, whatever was there.
    pub(crate) fn scrub(&mut self, start: RegionStart, f: usize)
        requires { (start.pointer ≡ self.old.start) × (f < length self.old.blocks) }
        ensures { (self.new.start ≡ self.old.start)
            × (self.new.blocks ≡ slice_set self.old.blocks f (Some zero_block)) }
    {
        unsafe { (start.pointer.add(f * STRIDE) as *mut [u8; STRIDE]).write([0; STRIDE]) }
    }

    /// The bytes of the frame `f`, which is present: its data, then its packed tags.
    pub(crate) fn block(&self, start: RegionStart, f: usize) -> &[u8]
        requires { (start.pointer ≡ self.now.start) × IsPresent self.now.blocks f }
        ensures value { get_or self.now.blocks f None ≡ Some result.now }
        ensures len { length result.now ≡ 4224 }
    {
        unsafe { slice::from_raw_parts(start.pointer.add(f * STRIDE), STRIDE) }
    }

    /// The `count` bytes from `from` on of the frame `f`, which is present.
    pub(crate) fn part_mut(
        &mut self,
        start: RegionStart,
        f: usize,
        from: usize,
        count: usize,
    ) -> &mut [u8]
        requires { (start.pointer ≡ self.old.start)
            × IsPresent self.old.blocks f × (from + count ≤ 4224) }
        ensures* writes_back { sem 𝓛 (lends_part self.entry f from count result) }
        ensures value { result.now ≡ take count (drop from (block_at self.old.blocks f)) }
        ensures len { length result.now ≡ count }
    {
        unsafe { slice::from_raw_parts_mut(start.pointer.add(f * STRIDE + from), count) }
    }

    /// The 4096 bytes of data of the frame `f`, which is present.
    pub(crate) fn data_mut(&mut self, start: RegionStart, f: usize) -> &mut [u8; FRAME_BYTES]
        requires { (start.pointer ≡ self.old.start) × IsPresent self.old.blocks f }
        ensures* writes_back { sem 𝓛 (lends_part self.entry f 0 4096 result) }
        ensures value { result.now ≡ take 4096 (block_at self.old.blocks f) }
    {
        unsafe { &mut *(start.pointer.add(f * STRIDE) as *mut [u8; FRAME_BYTES]) }
    }
}
