//! The memory of all tenants' pages: frames of 4096 bytes with an allocation tag for each granule
//! of 16 bytes (Arm ARM DDI 0487, D9), each absent until it is scrubbed.
#![tactic(auto)]

mod arena;
mod packed;
mod region;

pub use arena::{Arena, ArenaError, BLOCK_BYTES, FRAME_BYTES, FRAME_GRANULES};
