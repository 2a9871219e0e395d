//! Tagged memory as FEAT_MTE2 has it: allocation tags, their choice and their generator, what a
//! memory of tagged granules means, and its accesses, made of what is done within one page.
#![tactic(auto)]

mod access;
mod attrs;
mod by_page;
mod chunk;
mod fault;
mod generator;
mod laws;
mod page;
mod page_store;
mod size;
mod state;
mod tagged;
mod tags;
mod within_page;

pub use access::Access;
pub use attrs::Attrs;
pub use by_page::replace_bytes;
pub use fault::{FaultKind, MemFault};
pub use generator::Rgsr;
pub use laws::{flag_stays_in_sync, mode_stays, no_tag_check_in_async, pages_after_calls};
pub use page::copy_in;
pub use page_store::PageStore;
pub use state::{TagMode, TagState};
pub use tagged::{ChunkAccess, NoPagesLeft, Paged, Tagged};
pub use tags::{choose_non_excluded, tag_of, with_tag};
