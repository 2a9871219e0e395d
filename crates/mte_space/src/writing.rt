//! The writes to a page that a frame holds.

ghost use Rattle.std.specs.Prelude.{◌≡◌, ℕ, ◌+◌, ◌*◌, ◌%◌, ◌<◌, ◌≤◌, length};
ghost use Rattle.mte_frames.specs.Pool.{IsHeldBy, IsTaken, IsSound, KeepsOthers};
ghost use Rattle.mte_tags.specs.Runs.{with_bytes_run};
ghost use Rattle.mte_arena.specs.Frames.{AreFrames, frame_at, make_frame};
ghost use Rattle.mte_space.specs.Writes.{with_frame, retagged_frame};

use mte_frames::FramePool;
use mte_tags::copy_in;

/// Replaces a run of the bytes of a frame.
#[inline(always)]
pub(crate) fn write_frame(pool: &mut FramePool, frame: usize, at: u64, bytes: &[u8])
    requires out { IsTaken pool.old frame }
    requires inside { at % 4096 + length bytes.now ≤ 4096 }
    ensures pool { pool.new
        ≡ with_frame pool.old frame
        (make_frame (with_bytes_run (frame_at pool.old.frames frame).bytes (at % 4096) bytes.now)
        (frame_at pool.old.frames frame).tags) }
    ensures sound { IsSound pool.old }
    ensures others { (k : ℕ) → IsHeldBy pool.old frame k → KeepsOthers k pool.old pool.new }
{
    pool.recall();
    copy_in(pool.data_mut(frame), at, bytes);
}

/// Replaces the tags of `count` granules of a frame from granule `first` on, and makes their bytes
/// zero where `zero` is set.
#[inline(always)]
pub(crate) fn retag_frame(
    pool: &mut FramePool,
    frame: usize,
    first: usize,
    count: usize,
    tag: u8,
    zero: bool,
)
    requires out { IsTaken pool.old frame }
    requires inside { first + count ≤ 256 }
    requires tag { tag < 16 }
    ensures pool { pool.new
        ≡ with_frame pool.old frame
        (retagged_frame (frame_at pool.old.frames frame) first count tag zero) }
    ensures sound { IsSound pool.old }
    ensures sized { AreFrames pool.old.frames }
    ensures others { (k : ℕ) → IsHeldBy pool.old frame k → KeepsOthers k pool.old pool.new }
{
    pool.recall();
    pool.set_tags(frame, first, count, tag);
    if zero {
        pool.data_mut(frame)[16 * first..16 * first + 16 * count].fill(0);
    }
}
