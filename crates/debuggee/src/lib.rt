//! A tenant that a debugger drives: it attempts instructions one at a time or a slice at a time, is
//! where the definition has it after them, and says which accesses met a watchpoint. It is written
//! as an ELF core file (System V ABI, "Core files" as Linux writes them for AArch64), with its
//! registers, the signal of its end, its memory and its allocation tags; and a debugger finds the
//! regions of its memory.
#![tactic(auto)]

mod core_file;
mod core_notes;
mod cuts;
mod memory_map;
mod signal;
mod tenant;
mod watched;

pub use core_file::{CoreSubject, write_core};
pub use core_notes::flags_word;
pub use cuts::Cuts;
pub use memory_map::{MappedRegion, regions};
pub use signal::{Signal, tag_control};
pub use tenant::Debuggee;
pub use watched::{Hit, WatchedAccess, Watchpoint};
