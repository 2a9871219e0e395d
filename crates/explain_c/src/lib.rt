//! Why a tenant ended, and how much work it did, for programs in C: exports over memory that the
//! caller lends, which keep nothing between calls.
#![tactic(auto)]

mod answer;
mod codes;
mod explain_call;
mod explaining;
mod form;
mod service_bytes;
mod words;
mod work_call;

pub use explain_call::{ExplainEnd, LentQuestion, tb_explain};
pub use work_call::{WorkEnd, WorkTerms, tb_work};
