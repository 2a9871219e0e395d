//! The source lines of an image's addresses, by `.debug_line` (DWARF 5 and DWARF 4, 6.2).
#![tactic(auto)]

mod chosen_entries;
mod encoding;
mod files;
mod fixed_tables;
mod form;
mod formatted_tables;
mod leb128;
mod lines;
mod open_addresses;
mod operation;
mod reader;
mod registers;
mod row;
mod source_line;
mod source_lines;
mod tables;
mod unit;

pub use files::UnitFiles;
pub use lines::{DebugLines, SourceOrigin};
pub use reader::Reader;
pub use source_line::SourceLine;
pub use source_lines::{FileLine, SourceLines};
