//! The host: admissions, slices and stops of tenants over frames that all share.
#![tactic(auto)]

mod host;
mod index;
mod isolation;
mod memory;
mod tenant;
mod tenant_calls;
mod turns;

pub use host::Host;
pub use isolation::{
    behaviours_are_alone, behaviours_are_isolated, flag_is_clear, ledger_follows, numbers_stay,
    slices_are_bounded, tenants_are_alone, tenants_are_isolated,
};
pub use mte_arena::ArenaError;
pub use mte_svc::{Output, Record, Status, TenantParts};
pub use mte_tenant::{
    Admission, AdmitError, MAX_LIVE, NotLive, Refusal, Refused, Terms, live_limit_in_digits,
};
pub use tenant::Tenant;
