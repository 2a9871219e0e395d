//! Runs what a command line of `mte_run` requests: a tenant alone, or one of a session, and says
//! why it ended, or lets GDB debug it.
#![tactic(auto)]

mod account;
mod core_dump;
mod debugging;
mod ended_run;
mod files;
mod first_finding;
mod limits;
mod lost;
mod map;
mod profile;
mod refused;
mod replay;
mod request;
mod running;
mod session_course;
mod session_replay;
mod spare_bytes;
mod telling;
mod title;
mod unadmitted;

pub use account::RunAccount;
pub use debugging::debug_program;
pub use ended_run::EndedRun;
pub use files::{read_files, read_suppressions};
pub use limits::{failure_of, reserved_pages};
pub use lost::lost_chunks;
pub use replay::{Replayed, decide, replay_tenant};
pub use request::{Image, Run, RunRequest};
pub use running::{run_alone, run_replay};
pub use session_replay::SessionReplay;
pub use title::MapTitle;
