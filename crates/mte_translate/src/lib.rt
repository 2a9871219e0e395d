//! Address translation (Arm ARM DDI 0487, D8): page tables of two levels in frames, and the
//! translation lookaside buffer, which remembers the frame and the attributes of some pages of each
//! address space.
#![tactic(auto)]

mod chains;
mod entries;
mod laws;
mod standing;
mod table;
mod table_laws;
mod tlb;
mod translation;
mod tree;

pub use entries::{TABLE_PAGES, table_pages_in_digits};
pub use laws::{fill_adds_its_own, forget_drops_its_own, lookup_returns_what_stands};
pub use table::Table;
pub use table_laws::{
    cached_translations_stay, frames_of_tables, leaves_are_used, pages_are_walks, tables_stay,
};
pub use tlb::Tlb;
pub use translation::{TLB_ENTRIES, Translation, tlb_entries_in_digits};
