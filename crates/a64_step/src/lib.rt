//! One A64 instruction over any tagged memory, and runs of them (Arm ARM DDI 0487, C6.2).
//!
//! The public modules have what executes the rows of the table, and what these functions share:
//! `a64_run` calls them for the micro-ops of `a64_ops`.
#![tactic(auto)]

pub mod add_subtract;
pub mod addressing;
mod bitfield;
mod branches;
pub mod conditional;
pub mod data_processing;
pub mod execute;
mod laws;
pub mod load_store;
pub mod load_store_pair;
pub mod logical;
pub mod memory_access;
mod memory_tagging;
pub mod move_wide;
mod outcome;
mod pc_rel;
mod steps;

pub use a64_decode::Decoder;
pub use a64_registers::Regs;
pub use laws::{steps_keep_fixed_pages, steps_keep_pages, steps_keep_tag_mode, steps_keep_tags};
pub use outcome::{Outcome, Stop};
pub use steps::{run, step};
