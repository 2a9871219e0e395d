//! A pool of the arena's frames, and the quotas that frames are reserved and taken under.
#![tactic(auto)]

mod pool;

pub use pool::{FramePool, NoFrames, OutOfMemory, Quota, others_are_kept};
