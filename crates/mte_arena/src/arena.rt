//! The arena: frames that are absent until they are scrubbed.

ghost use Rattle.std.specs.Prelude.{◌≡◌, ◌↔◌, ℕ, ◌+◌, ◌<◌, ◌≤◌, List, Option, Some, None, length};
ghost use Rattle.std.specs.Prelude.{replicate, get_or, slice_set, slice_index, IfOk, IsTrue};
ghost use Rattle.std.specs.Prelude.{IfSome, option_map};
ghost use Rattle.std.specs.Option.{option_copied_mut};
ghost use Rattle.std.specs.Borrow.{sem};
ghost use Rattle.mte_arena.specs.Frames.{Frame, IsLive, AreFrames, frame_at, with_granule_tag};
ghost use Rattle.mte_arena.specs.Frames.{IsTagRun, retagged_run, zero_frame};
ghost use Rattle.mte_arena.specs.Blocks.{frame_of};

use crate::packed::{half_of, set_half, set_run};
use crate::region::{FreeingRight, Region, RegionStart, allocate, deallocate};
use common::{MAX_FRAMES, PAGE_SIZE};
use std::alloc::Global;
use std::marker::Model;

/// The bytes of a frame.
pub const FRAME_BYTES: usize = PAGE_SIZE as usize;

/// The granules of a frame, of 16 bytes each.
pub const FRAME_GRANULES: usize = 256;

/// The bytes of a frame and of its tags, two a byte.
pub const BLOCK_BYTES: usize = 4224;

const TAG_BYTES: usize = 128;

/// Why there is no arena.
#[derive(Clone, Copy, Debug, PartialEq, Eq)]
pub enum ArenaError {
    /// An allocation was refused.
    OutOfMemory,
    /// The number of frames isn't in 1 to 65536.
    BadCount,
}

/// Frames of 4096 bytes with a tag for each granule of 16 bytes, in one allocation that nobody
/// initialised.
///
/// A frame is absent until `scrub` makes it present and zero. An absent frame has no bytes and no
/// tags.
pub struct Arena {
    start: RegionStart,
    region: Region,
    right: FreeingRight<Global>,
    live: Vec<bool>,
    alloc: Global,
}

impl Model for Arena {
    ghost use Rattle.std.specs.Prelude.{List, Option};
    ghost use Rattle.mte_arena.specs.Frames.{Frame};

    ghost Value = { List (Option Frame) };

    ghost use Rattle.mte_arena.specs.Blocks.{frames_of};
    ghost use Rattle.mte_arena.specs.Whole.{IsArena};

    ghost view = { λ a. frames_of a.region.blocks };

    ghost invariant = { IsArena };
}

impl Arena {
    ghost use Rattle.mte_arena.specs.FrameLends.{lends_bytes, lends_bytes_if, lends_block};
    ghost use Rattle.mte_arena.specs.declared.arena.ArenaError.TheVariants.{OutOfMemory, BadCount};
    ghost use Rattle.std.specs.Prelude.{Err, ◌⊎◌};

    /// An arena of `frames` frames, none of them present. The number is tested before any memory is
    /// taken; `OutOfMemory` comes only where an allocation was refused.
    pub fn new(alloc: Global, frames: usize) -> Result<Arena, ArenaError>
        ensures ok { IfOk result (λ a. a ≡ replicate frames None) }
        ensures bad_count { (result ≡ Err BadCount)
            ↔ ((frames ≡ 0) ⊎ (MAX_FRAMES < frames)) }
    {
        if frames == 0 || frames > MAX_FRAMES {
            return Err(ArenaError::BadCount);
        }
        let Ok(live) = Vec::from_elem(alloc, false, frames) else {
            return Err(ArenaError::OutOfMemory);
        };
        match allocate(&alloc, frames) {
            Ok((start, region, right)) => Ok(Arena {
                start,
                region,
                right,
                live,
                alloc,
            }),
            Err(_) => Err(ArenaError::OutOfMemory),
        }
    }

    /// How many frames there are, present or not: at most 65536.
    pub fn frames(&self) -> usize
        ensures count { result ≡ length self.now }
        ensures sized { AreFrames self.now }
        ensures few { length self.now ≤ MAX_FRAMES }
    {
        self.live.len()
    }

    /// Whether the frame `f` is present.
    pub fn is_live(&self, f: usize) -> bool
        requires { f < length self.now }
        ensures { IsTrue result ↔ IsLive self.now f }
    {
        self.live[f]
    }

    /// Makes the frame `f` present, with every byte and every tag zero.
    pub fn scrub(&mut self, f: usize)
        requires { f < length self.old }
        ensures { self.new ≡ slice_set self.old f (Some zero_frame) }
    {
        self.region.scrub(self.start, f);
        self.live[f] = true;
    }

    /// The 4096 bytes of the frame `f`, which is present.
    pub fn bytes(&self, f: usize) -> &[u8]
        requires { IsLive self.now f }
        ensures value { result.now ≡ (frame_at self.now f).bytes }
        ensures len { length result.now ≡ FRAME_BYTES }
    {
        let block = self.region.block(self.start, f);
        &block[..FRAME_BYTES]
    }

    /// The bytes of a frame, to be written. The frame's tags and all other frames stay as they are.
    pub fn data_mut(&mut self, f: usize) -> &mut [u8]
        requires { IsLive self.old f }
        ensures* writes_back { sem 𝓛 (lends_bytes self.entry f result) }
        ensures value { result.now ≡ (frame_at self.old f).bytes }
        ensures len { length result.now ≡ FRAME_BYTES }
    {
        self.region.part_mut(self.start, f, 0, FRAME_BYTES)
    }

    /// The bytes of the frame in `f`, which is present, to be written. If `f` is `None`, nothing is
    /// lent, and all frames stay as they are.
    pub fn data_mut_if(&mut self, f: Option<usize>) -> Option<&mut [u8; FRAME_BYTES]>
        requires { IfSome f (λ g. IsLive self.old g) }
        ensures* writes_back { sem 𝓛 (lends_bytes_if self.entry f result) }
        ensures value { option_copied_mut result
            ≡ option_map (λ g. (frame_at self.old g).bytes) f }
    {
        match f {
            Some(f) => Some(self.region.data_mut(self.start, f)),
            None => None,
        }
    }

    /// Both planes of the frame `f`, which is present, in one loan: its 4096 bytes, and then 128
    /// bytes with two tags each, the even granule's in the low half. All other frames stay as they
    /// are.
    pub fn block_mut(&mut self, f: usize) -> &mut [u8]
        requires { IsLive self.old f }
        ensures* writes_back { sem 𝓛 (lends_block self.entry f result) }
        ensures value { frame_of result.now ≡ frame_at self.old f }
        ensures len { length result.now ≡ BLOCK_BYTES }
    {
        self.region.part_mut(self.start, f, 0, BLOCK_BYTES)
    }

    /// The tag of the granule `g` of the frame `f`, which is present.
    pub fn tag(&self, f: usize, g: usize) -> u8
        requires live { IsLive self.now f }
        requires granule { g < FRAME_GRANULES }
        ensures tag { result ≡ get_or (frame_at self.now f).tags g 0 }
        ensures small { result < 16 }
    {
        let block = self.region.block(self.start, f);
        half_of(block[FRAME_BYTES + g / 2], g)
    }

    /// Sets the tag of the granule `g` of the frame `f`, which is present. The frame's bytes, its
    /// other tags and all other frames stay as they are.
    pub fn set_tag(&mut self, f: usize, g: usize, tag: u8)
        requires live { IsLive self.old f }
        requires run { IsTagRun FRAME_GRANULES g 1 tag }
        ensures { self.new ≡ with_granule_tag self.old f g tag }
    {
        let packed = self.region.part_mut(self.start, f, FRAME_BYTES, TAG_BYTES);
        set_half(packed, g, tag);
    }

    /// Sets the tags of the `count` granules from `first` on of the frame `f`, which is present.
    /// The frame's bytes, its other tags and all other frames stay as they are.
    #[inline(always)]
    pub fn set_tags(&mut self, f: usize, first: usize, count: usize, tag: u8)
        requires live { IsLive self.old f }
        requires run { IsTagRun FRAME_GRANULES first count tag }
        ensures { self.new ≡ retagged_run self.old f first count tag }
    {
        let packed = self.region.part_mut(self.start, f, FRAME_BYTES, TAG_BYTES);
        set_run(packed, first, count, tag);
    }
}

impl Drop for Arena {
    fn drop(self) {
        let Arena {
            start,
            region,
            right,
            live,
            alloc,
        } = self;
        deallocate(&alloc, start, live.len(), region, right);
    }
}
