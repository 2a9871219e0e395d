//! The profile of a run: how often each branch was taken, which calls that made, and what the
//! instructions of an image are called. All of it follows from the branches that were taken, since
//! a tenant goes straight on between two of them.
#![tactic(auto)]

mod bounded_lines;
mod branch_counts;
mod call_change;
mod call_tree;
mod code_names;
mod heap_profile;
mod heap_sizes;
mod long_calls;
mod pair_numbers;
mod profile_file;
mod recent_branches;
mod run_events;
mod run_profile;

pub use branch_counts::BranchCounts;
pub use profile_file::ProfileFile;
pub use run_profile::RunProfile;
