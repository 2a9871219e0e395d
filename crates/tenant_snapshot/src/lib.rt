//! A tenant alone that is brought back to a snapshot, with another input, for a fuzzer; and the
//! pointer by which a program in C keeps it between calls, which is null or owns it.
#![tactic(auto)]

mod compared_edges;
mod comparison;
mod comparison_kinds;
mod edge_map;
mod exact_watch;
mod fuzz_handle;
mod loose_box;
mod run_watch;
mod tenant;

pub use a64_run::{Edges, NoEdges};
pub use compared_edges::{ComparedEdges, Comparisons};
pub use comparison::ComparisonEntry;
pub use comparison_kinds::comparisons_in_digits;
pub use edge_map::{CountedEdges, EdgeMap, MAP_MAX, MAP_MIN};
pub use exact_watch::{ExactFinding, ExactWatch};
pub use fuzz_handle::FuzzHandle;
pub use run_watch::RunWatch;
pub use tenant::SnapshotTenant;
