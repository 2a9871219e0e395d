//! Sessions: a script and its files in, the report out. The program of a session is between its
//! command line and the system: it reads the script and the files, runs the session, and says how
//! it ended.
#![tactic(auto)]

mod calls;
mod ending;
mod files;
mod headline;
mod invocation;
mod program;
mod reading;
mod refusals;
mod report;
mod running;
mod session;
mod status;
mod streams;
mod text;
mod words;

pub use ending::{Ending, finish};
pub use files::{admission_of, file_of};
pub use headline::{Session, run_both};
pub use invocation::{Invocation, conclude};
pub use mte_script::{Event, ScriptError, ScriptFault, parse_script};
pub use mte_streams::{ReadFault, Sink, Source, StreamError, WriteFault, read_whole, write_all};
pub use program::Program;
pub use reading::{Files, read_files};
pub use refusals::write_refusal;
pub use report::write_report;
pub use running::run_program;
pub use session::{SessionError, run_session, run_session_with_blocks};
pub use streams::{StreamSink, StreamSource};
pub use words::{EarlyEnd, collect_names, collect_words, print_answer, read_words};
