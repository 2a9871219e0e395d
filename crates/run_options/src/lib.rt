//! The command line of `mte_run`.
#![tactic(auto)]

mod command_line;
mod fault;
mod file_names;
mod option_rows;
mod table;
mod values;

pub use command_line::{parse, read_command_line};
pub use mte_session::EarlyEnd;
