//! The loader's reading of an image: an ELF64 executable for AArch64, checked as a whole before
//! anything is mapped.
//!
//! Source: System V ABI, Object Files (ELF64); the limits on addresses are this project's.
#![tactic(auto)]

mod error;
mod headers;
mod image;
mod laws;
mod loading;
mod planning;

pub use error::ElfError;
pub use image::{Plan, Segment};
pub use laws::loading_keeps_memories_whole;
pub use loading::load;
pub use planning::plan;
