//! A plain tagged memory, which keeps its pages in one list.
#![tactic(auto)]

mod finder;
mod flat;
mod mapped;
mod pages;
mod slot;
mod slots;
mod snapshot;

pub use flat::Flat;
pub use mapped::MappedPage;
pub use snapshot::SnapshotMemory;
