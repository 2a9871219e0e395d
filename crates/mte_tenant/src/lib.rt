//! A tenant: its machine, its slices, what it is admitted with, and the tenant alone on a memory of
//! its own.
#![tactic(auto)]

mod admission;
mod alone;
mod lone;
mod machine;
mod noted;
mod noted_slice;
mod refusal;

pub use admission::{
    Admission, AdmitError, LedgerFacts, MAX_LIVE, NotLive, accept, accepted_means, charge,
    is_bad_reservation, live_limit_in_digits,
};
pub use alone::{Watch, admit_alone, attempt, slice_watched};
pub use lone::{Lone, run_alone};
pub use machine::{fill, halt, settle, slice, slice_with_blocks, slice_with_edges, start_parts};
pub use mte_svc::{Output, Record, Status, TenantParts};
pub use noted::{AccessUse, MOST_UNSEEN, NotedAccess, Notes, NotesAccesses};
pub use noted_slice::slice_noted;
pub use refusal::{Refusal, Refused};
pub use tenant_terms::Terms;
