//! Readers and writers, and what becomes of a whole file and of a whole text.
#![tactic(auto)]

mod error;
mod reading;
mod writing;

pub use error::StreamError;
pub use reading::{FILE_LIMIT, ReadFault, Source, file_limit_in_digits, read_whole};
pub use writing::{Sink, WriteFault, write_all};
