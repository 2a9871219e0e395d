//! The entries of `.debug_info` (DWARF 5 and DWARF 4, 7.5), and of them the inlined calls at an
//! image's addresses (2.17 and 3.3.8). What reading may cost is bounded.
#![tactic(auto)]

mod abbreviation;
mod abbreviations;
mod budget;
mod calls;
mod entry;
mod files;
mod info;
mod origin;
mod ranges;
mod scope;
mod search;
mod sections;
mod unit;
mod value;

pub use abbreviation::Abbreviation;
pub use abbreviations::Abbreviations;
pub use budget::Budget;
pub use calls::{CallsAt, DEEPEST, InlinedCall, InlinedCalls};
pub use entry::Entry;
pub use info::DebugInfo;
pub use ranges::{AddressRange, Ranges};
pub use scope::Scope;
pub use sections::DebugSections;
pub use unit::{CompilationUnit, UnitBytes};
pub use value::{AttributeValue, number};
