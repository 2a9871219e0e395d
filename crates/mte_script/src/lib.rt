//! Scripts: one event per line.
#![tactic(auto)]

mod error;
mod event;
mod grammar;
mod parsing;
mod text;

pub use error::{ScriptError, ScriptFault};
pub use event::Event;
pub use parsing::parse_script;
