//! The services that a tenant requests by SVC, and the parts of its machine that they use.
#![tactic(auto)]

mod calls;
mod heap_services;
mod input;
mod laws;
mod output;
mod parts;
mod record;
mod services;

pub use calls::{AnsweredCall, HeapCalls, KEPT_CALLS, heap_call, kept_calls_in_digits};
pub use input::Input;
pub use laws::services_keep_fixed_pages;
pub use output::Output;
pub use parts::TenantParts;
pub use record::{Record, Status};
pub use services::{
    CALLOC, EXIT, FREE, MALLOC, MEMALIGN, PAGES_LEFT, READ, REALLOC, STEPS_LEFT, SvcEnd,
    USABLE_SIZE, WRITE, YIELD, services_in_digits, svc,
};
