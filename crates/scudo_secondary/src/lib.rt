//! Where the chunks lie that have pages of their own (Scudo, `secondary.h`): their places in a
//! range of addresses, each with a page on both sides that is never mapped.
#![tactic(auto)]

mod gaps;
mod mappings;
mod maps;

pub use mappings::Mapping;
pub use maps::Secondary;
