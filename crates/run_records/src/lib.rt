//! Records of a run: the book of a tenant's heap calls, with the chunks that they made and
//! freed; the last instructions, with what each changed and requested; calls, returns and numbers.
#![tactic(auto)]

mod book;
mod draws;
mod instruction;
mod loaded;
mod moment;
mod owner;
mod service;
mod statistics;
mod statistics_table;
mod stored;
mod turns;
mod words;
mod written;

pub use book::{Book, BookChunk, BookEntry, ChunkQuery};
pub use instruction::{Instruction, SVC};
pub use moment::{Moment, Nzcv, TraceLine};
pub use owner::ChunkOwner;
pub use service::Service;
pub use statistics::Statistics;
pub use statistics_table::{Object, StatisticsTable};
pub use turns::{Turn, push_turns, tell_turns};
pub use words::{Bytes, Count, EntryText};
