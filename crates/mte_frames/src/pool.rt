//! Frames are reserved for quotas, and taken and given back under them.

ghost use Rattle.std.specs.Prelude.{◌≡◌, ◌≢◌, ◌↔◌, ℕ, ◌+◌, ◌-◌, ◌<◌, ◌≤◌, List, Option, Some, None};
ghost use Rattle.std.specs.Prelude.{length, replicate, get_or, slice_set, sum, IfOk, IfErr, IsErr};
ghost use Rattle.std.specs.Prelude.{OnErr, IfSome, IsTrue, vec_capacity, option_map};
ghost use Rattle.std.specs.Option.{option_copied_mut};
ghost use Rattle.std.specs.Borrow.{sem};
ghost use Rattle.mte_arena.specs.Frames.{frame_at, AreFrames, IsTagRun, with_granule_tag};
ghost use Rattle.mte_arena.specs.Frames.{retagged_run};
ghost use Rattle.mte_arena.specs.Frames.{zero_frame};
ghost use Rattle.mte_arena.specs.Blocks.{frame_of};
ghost use Rattle.mte_frames.specs.Pool.{Pool, make_pool, with_bytes_at, with_block_at, frames_left};
ghost use Rattle.mte_frames.specs.Pool.{with_bytes_at_cases};
ghost use Rattle.mte_frames.specs.Pool.{reserved_by, taken_by, HasFrameLeft, IsHeldBy, IsTaken};
ghost use Rattle.mte_frames.specs.Pool.{IsSound, KeepsOthers};

use mte_arena::{Arena, BLOCK_BYTES, FRAME_BYTES, FRAME_GRANULES};
use std::alloc::{AllocError, Global};
use std::marker::Model;

/// More frames were requested than are unreserved.
#[derive(Clone, Copy, Debug, PartialEq, Eq)]
pub struct NoFrames;

/// An allocation was refused. The arena comes back as it was.
#[derive(Drop)]
pub struct OutOfMemory {
    pub arena: Arena,
}

/// The right to take as many frames as were reserved. It can't be cloned; where it is dropped
/// without `release`, its frames stay reserved.
#[derive(Drop)]
pub struct Quota {
    number: usize,
}

impl Model for Quota {
    ghost use Rattle.std.specs.Prelude.{ℕ};

    ghost Value = { ℕ };

    ghost view = { λ q. q.number };
}

/// An arena's frames, each out under one quota or under none. No call changes for how many elements
/// the pool's lists have memory.
pub struct FramePool {
    arena: Arena,
    free: Vec<usize>,
    owners: Vec<Option<usize>>,
    reserved: Vec<usize>,
    taken: Vec<usize>,
    unreserved: usize,
}

impl Drop for FramePool {
    fn drop(self) {
        let FramePool {
            arena: _,
            free: _,
            owners: _,
            reserved: _,
            taken: _,
            unreserved: _,
        } = self;
    }
}

impl Model for FramePool {
    ghost use Rattle.mte_frames.specs.Pool.{Pool};

    ghost Value = { Pool };

    ghost use Rattle.mte_frames.specs.Whole.{IsPool, pool_of};

    ghost view = { pool_of };

    ghost invariant = { IsPool };
}

impl FramePool {
    ghost use Rattle.mte_frames.specs.Lends.{lends_bytes, lends_bytes_if, lends_block};

    /// A pool of the arena's frames, of which none is reserved. Where memory is refused the arena
    /// is handed back as it was.
    pub fn new(alloc: Global, arena: Arena) -> Result<FramePool, OutOfMemory>
        ensures ok { IfOk result
            (λ p. p
            ≡ make_pool p.capacities arena (replicate (length arena) None)
            (replicate (length arena) 0) (replicate (length arena) 0)) }
        ensures err { IfErr result (λ e. e.arena ≡ arena) }
    {
        let frames = arena.frames();
        let Ok(lists) = PoolLists::new(alloc, frames) else {
            return Err(OutOfMemory { arena });
        };
        let PoolLists {
            free,
            owners,
            reserved,
            taken,
        } = lists;
        Ok(FramePool {
            arena,
            free,
            owners,
            reserved,
            taken,
            unreserved: frames,
        })
    }

    /// How many frames there are: at most 65536.
    pub fn frames(&self) -> usize
        ensures count { result ≡ length self.now.frames }
        ensures sized { AreFrames self.now.frames }
        ensures sound { IsSound self.now }
    {
        self.arena.frames()
    }

    /// Does nothing. Its contract recalls what holds of every pool, for a proof of the caller.
    pub fn recall(&self)
        ensures sized { AreFrames self.now.frames }
        ensures sound { IsSound self.now }
    {
        let _ = self.frames();
    }

    /// How many frames no quota has reserved.
    pub fn unreserved(&self) -> usize
        ensures { result ≡ frames_left self.now }
    {
        self.unreserved
    }

    /// How many frames the quota has reserved.
    pub fn reserved(&self, quota: &Quota) -> usize
        ensures { result ≡ reserved_by self.now quota.now }
    {
        match self.reserved.get(quota.number) {
            Some(count) => *count,
            None => 0,
        }
    }

    /// How many frames are out under the quota.
    pub fn taken(&self, quota: &Quota) -> usize
        ensures { result ≡ taken_by self.now quota.now }
    {
        match self.taken.get(quota.number) {
            Some(count) => *count,
            None => 0,
        }
    }

    /// Whether the frame `f` is out under the quota.
    pub fn is_out(&self, quota: &Quota, f: usize) -> bool
        ensures { IsTrue result ↔ IsHeldBy self.now f quota.now }
    {
        match self.owners.get(f) {
            Some(Some(number)) => *number == quota.number,
            _ => false,
        }
    }

    /// Reserves `count` frames for a new quota. It is refused if and only if fewer
    /// are unreserved.
    pub fn reserve(&mut self, count: usize) -> Result<Quota, NoFrames>
        requires { 0 < count }
        ensures refused { IsErr result ↔ (frames_left self.old < count) }
        ensures err { OnErr result (self.new ≡ self.old) }
        ensures number { IfOk result
            (λ q. (q < length self.old.frames)
            × (reserved_by self.old q ≡ 0) × (taken_by self.old q ≡ 0)) }
        ensures pool { IfOk result
            (λ q. self.new
            ≡ make_pool self.old.capacities self.old.frames self.old.owners
            (slice_set self.old.reserved q count) self.old.taken) }
        ensures others { IfOk result (λ q. KeepsOthers q self.old self.new) }
    {
        if count > self.unreserved {
            return Err(NoFrames);
        }
        let Some(number) = unused_number(&self.reserved) else {
            unreachable!()
        };
        self.reserved[number] = count;
        self.unreserved -= count;
        Ok(Quota { number })
    }

    /// Ends a quota under which nothing is out. Its frames are unreserved again.
    pub fn release(&mut self, quota: Quota)
        requires reserved { 0 < reserved_by self.old quota }
        requires nothing_out { taken_by self.old quota ≡ 0 }
        ensures pool { self.new
            ≡ make_pool self.old.capacities self.old.frames self.old.owners
            (slice_set self.old.reserved quota 0) self.old.taken }
        ensures others { KeepsOthers quota self.old self.new }
    {
        let Quota { number } = quota;
        self.unreserved += self.reserved[number];
        self.reserved[number] = 0;
    }

    /// Takes a frame that is out under no quota, and makes its bytes and tags zero. While the quota
    /// has something left there is one. What was out stays out.
    pub fn take(&mut self, quota: &mut Quota) -> usize
        requires { HasFrameLeft self.old quota.old }
        ensures same { quota.new ≡ quota.old }
        ensures vacant { get_or self.old.owners result (Some 0) ≡ None }
        ensures within { result < length self.old.frames }
        ensures pool { self.new
            ≡ make_pool self.old.capacities (slice_set self.old.frames result (Some zero_frame))
            (slice_set self.old.owners result (Some quota.old)) self.old.reserved
            (slice_set self.old.taken quota.old (taken_by self.old quota.old + 1)) }
        ensures out { IsHeldBy self.new result quota.old }
        ensures still_out { (f k : ℕ) → IsHeldBy self.old f k → IsHeldBy self.new f k }
        ensures others { KeepsOthers quota.old self.old self.new }
    {
        let Some(f) = self.free.pop() else {
            unreachable!()
        };
        self.arena.scrub(f);
        self.owners[f] = Some(quota.number);
        self.taken[quota.number] += 1;
        f
    }

    /// Gives back the frame `f`, which is out under the quota. What else was out stays out.
    pub fn give(&mut self, quota: &mut Quota, f: usize)
        requires { IsHeldBy self.old f quota.old }
        ensures same { quota.new ≡ quota.old }
        ensures pool { self.new
            ≡ make_pool self.old.capacities self.old.frames (slice_set self.old.owners f None)
            self.old.reserved
            (slice_set self.old.taken quota.old (taken_by self.old quota.old - 1)) }
        ensures still_out { (g k : ℕ) → g ≢ f → IsHeldBy self.old g k → IsHeldBy self.new g k }
        ensures others { KeepsOthers quota.old self.old self.new }
    {
        self.owners[f] = None;
        self.taken[quota.number] -= 1;
        self.free.push_reserved(f);
    }

    /// The 4096 bytes of the frame `f`, which is out.
    pub fn bytes(&self, f: usize) -> &[u8]
        requires { IsTaken self.now f }
        ensures value { result.now ≡ (frame_at self.now.frames f).bytes }
        ensures len { length result.now ≡ FRAME_BYTES }
    {
        self.arena.bytes(f)
    }

    /// The bytes of a frame, to be written. The frame's tags and all other frames stay as they are.
    pub fn data_mut(&mut self, f: usize) -> &mut [u8]
        requires { IsTaken self.old f }
        ensures* writes_back { sem 𝓛 (lends_bytes self.entry f result) }
        ensures others { (q : ℕ) (ws : List ℕ)
            → IsHeldBy self.old f q → KeepsOthers q self.old (with_bytes_at self.old f ws) }
        ensures value { result.now ≡ (frame_at self.old.frames f).bytes }
        ensures len { length result.now ≡ FRAME_BYTES }
    {
        self.arena.data_mut(f)
    }

    /// The bytes of the frame in `f`, which is out, to be written. If `f` is `None`, nothing is
    /// lent, and the pool stays as it is.
    pub fn data_mut_if(&mut self, f: Option<usize>) -> Option<&mut [u8; FRAME_BYTES]>
        requires { IfSome f (λ g. IsTaken self.old g) }
        ensures* writes_back { sem 𝓛 (lends_bytes_if self.entry f result) }
        ensures others { (q : ℕ) (ws : List ℕ)
            → IfSome f (λ g. IsHeldBy self.old g q)
            → KeepsOthers q self.old (with_bytes_at_cases self.old f ws) }
        ensures value { option_copied_mut result
            ≡ option_map (λ g. (frame_at self.old.frames g).bytes) f }
    {
        self.arena.data_mut_if(f)
    }

    /// Both planes of the frame `f`, which is out, in one loan: its 4096 bytes, and then 128 bytes
    /// with two tags each, the even granule's in the low half. All other frames stay as they are.
    pub fn block_mut(&mut self, f: usize) -> &mut [u8]
        requires { IsTaken self.old f }
        ensures* writes_back { sem 𝓛 (lends_block self.entry f result) }
        ensures others { (q : ℕ) (ws : List ℕ)
            → IsHeldBy self.old f q → KeepsOthers q self.old (with_block_at self.old f ws) }
        ensures value { frame_of result.now ≡ frame_at self.old.frames f }
        ensures len { length result.now ≡ BLOCK_BYTES }
    {
        self.arena.block_mut(f)
    }

    /// The tag of the granule `g` of the frame `f`, which is out.
    pub fn tag(&self, f: usize, g: usize) -> u8
        requires out { IsTaken self.now f }
        requires granule { g < FRAME_GRANULES }
        ensures tag { result ≡ get_or (frame_at self.now.frames f).tags g 0 }
        ensures small { result < 16 }
    {
        self.arena.tag(f, g)
    }

    /// Sets the tag of the granule `g` of the frame `f`, which is out. The frame's bytes, its other
    /// tags and all other frames stay as they are.
    pub fn set_tag(&mut self, f: usize, g: usize, tag: u8)
        requires out { IsTaken self.old f }
        requires run { IsTagRun FRAME_GRANULES g 1 tag }
        ensures pool { self.new
            ≡ make_pool self.old.capacities
            (with_granule_tag self.old.frames f g tag) self.old.owners
            self.old.reserved self.old.taken }
        ensures others { (q : ℕ) → IsHeldBy self.old f q → KeepsOthers q self.old self.new }
    {
        self.arena.set_tag(f, g, tag);
    }

    /// Sets the tags of the `count` granules from `first` on of the frame `f`, which is out. The
    /// frame's bytes, its other tags and all other frames stay as they are.
    #[inline(always)]
    pub fn set_tags(&mut self, f: usize, first: usize, count: usize, tag: u8)
        requires out { IsTaken self.old f }
        requires run { IsTagRun FRAME_GRANULES first count tag }
        ensures pool { self.new
            ≡ make_pool self.old.capacities (retagged_run self.old.frames f first count tag)
            self.old.owners self.old.reserved self.old.taken }
        ensures others { (q : ℕ) → IsHeldBy self.old f q → KeepsOthers q self.old self.new }
    {
        self.arena.set_tags(f, first, count, tag);
    }
}

/// The other quotas are kept: nothing changes them where nothing is done, what one call
/// after another keeps both keep, and a loan of a frame that is out under a quota keeps all others.
/// This holds of every pool, and the call does nothing.
pub fn others_are_kept()
    ensures still { (q : ℕ) (p : Pool) → KeepsOthers q p p }
    ensures on { (q : ℕ) (p n m : Pool)
        → KeepsOthers q p n → KeepsOthers q n m → KeepsOthers q p m }
    ensures lent { (q f : ℕ) (ws : List ℕ) (p : Pool)
        → IsHeldBy p f q
        → KeepsOthers q p (with_bytes_at p f ws) × KeepsOthers q p (with_block_at p f ws) }
{}

/// The fields of a pool besides its arena.
#[derive(Drop)]
struct PoolLists {
    free: Vec<usize>,
    owners: Vec<Option<usize>>,
    reserved: Vec<usize>,
    taken: Vec<usize>,
}

impl PoolLists {
    ghost use Rattle.mte_frames.specs.Whole.{times};
    ghost use Rattle.std.specs.Prelude.{if◌then◌else◌, nat_lt};

    /// All frames free, and nothing reserved.
    fn new(alloc: Global, frames: usize) -> Result<PoolLists, AllocError>
        ensures free { IfOk result
            (λ b. (f : ℕ) → times f b.free.items ≡ (if nat_lt f frames then 1 else 0)) }
        ensures count { IfOk result
            (λ b. (length b.free.items ≡ frames) × (frames ≤ vec_capacity b.free)) }
        ensures others { IfOk result
            (λ b. (b.owners.items ≡ replicate frames None)
            × (b.reserved.items ≡ replicate frames 0) × (b.taken.items ≡ replicate frames 0)) }
    {
        let mut free = Vec::with_capacity(alloc, frames)?;
        for f in 0..frames {
            free.push_reserved(f);
        }
        let owners = Vec::from_elem(alloc, None, frames)?;
        let reserved = Vec::from_elem(alloc, 0, frames)?;
        let taken = Vec::from_elem(alloc, 0, frames)?;
        Ok(PoolLists {
            free,
            owners,
            reserved,
            taken,
        })
    }
}

/// A number that no quota has.
fn unused_number(reserved: &[usize]) -> Option<usize>
    ensures some { IfSome result
        (λ i. (i < length reserved.now) × (get_or reserved.now i 0 ≡ 0)) }
    ensures none { result ≡ None → length reserved.now ≤ sum reserved.now }
{
    for i in 0..reserved.len() {
        if reserved[i] == 0 {
            return Some(i);
        }
    }
    None
}
