//! The likeliest cause of a tenant's end, the accesses that go beyond the bytes of its chunks, and
//! the store after a jump to no code.
#![tactic(auto)]

mod argument_text;
mod cause;
mod cause_words;
mod checker;
mod evidence;
mod exact;
mod families;
mod findings;
mod jump;
mod quick_check;
mod stack_words;
mod terms;
mod violation;

pub use cause::{Cause, FoundCause};
pub use cause_words::{CauseKind, EndWords, abort_words, end_words, fault_words};
pub use checker::Checker;
pub use evidence::Evidence;
pub use exact::{Exact, Finding, ForbiddenAccess};
pub use families::{breakpoint_words, family_of, is_undefined};
pub use findings::{CountedFinding, Findings, MOST_FINDINGS};
pub use jump::{LastStore, StoreWatch, TargetLoad, branch_in};
pub use terms::{CheckTerms, is_hidden};
pub use violation::Violation;
