//! Where the pointers of a tenant come from: beside its registers and its memory this keeps of
//! which chunk each value is a pointer, judges accesses, frees and arguments of calls by it, and
//! finds the chunks that nothing reaches.
#![tactic(auto)]

mod access_rules;
mod arguments;
mod chunk_table;
mod heap_calls;
mod judgement;
mod quick;
mod reach;
mod register_rules;
mod requests;
mod shadow;

pub use arguments::{ArgumentFault, ArgumentFaultKind, CopiedRange};
pub use chunk_table::{ChunkSource, TracedChunk};
pub use heap_calls::ChunkChange;
pub use judgement::{Misuse, MisuseKind};
pub use reach::{LostChunk, Reach, ReachTable, RootRange};
pub use shadow::{Pointed, Shadow};
