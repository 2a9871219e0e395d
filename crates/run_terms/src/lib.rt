//! The request for `mte_run`, and the texts that it writes where there is no tenant.
#![tactic(auto)]

mod failure;
mod form;
mod kind_words;
mod kinds;
mod options;
mod suppressions;
mod word;
mod wrong;

pub use failure::{Failure, FileFault, report};
pub use kind_words::{CHECK_FAULT, CHECK_HELP, CheckKind, CheckKinds};
pub use options::{Exactness, Options, OutputOptions, Replay, RunLength, RunOptions, Traced};
pub use suppressions::Suppressions;
