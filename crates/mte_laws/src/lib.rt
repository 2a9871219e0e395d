//! Laws of a heap and its tags for a careful tenant, and of a session in parts. A careful tenant
//! stores no tags itself, leaves the headers of its heap unwritten and makes careful calls. Its
//! chunks are live, zero and usable when they are made, keep their bytes, are guarded by their
//! tags, are freed once, and are then out of reach.
#![tactic(auto)]

mod call_laws;
mod free_laws;
mod laws;
mod session_laws;
mod tag_laws;
mod tenant_laws;

pub use call_laws::{
    freed_chunks_are_zero, grown_granules_are_zero, mallocs_are_answered,
    refused_calls_change_nothing,
};
pub use free_laws::{
    changed_headers_are_refused, double_frees_abort, freed_headers_stay, large_double_frees_abort,
    stale_calls_are_served,
};
pub use laws::{
    answers_are_pointers, chunks_may_be_used, freed_chunks_stay_freed, lifetimes_are_guarded,
    new_chunks_are_live, new_chunks_are_zero, odd_distances_differ, other_chunks_stay,
    reallocations_free, reallocations_keep_bytes, tenants_take_turns,
};
pub use session_laws::{
    accepted_alone, decisions_need_no_steps, lines_may_be_left_out, report_in_parts,
};
pub use tag_laws::{
    allowed_tags_are_drawn, careful_runs_are_sound, chunks_are_apart, chunks_are_guarded,
    chunks_are_tagged, freed_chunks_are_refused, freed_pages_are_refused, freed_tags_differ,
    large_chunks_are_guarded, neighbours_differ, new_tags_differ, other_tags_are_refused,
    reused_tags_differ,
};
pub use tenant_laws::{
    answers_of_tenants_are_pointers, careful_tenants_are_sound, chunks_of_tenants_are_guarded,
    chunks_of_tenants_may_be_used, freed_chunks_of_tenants_are_refused,
    freed_pages_of_tenants_are_refused, reused_tags_of_tenants_differ, services_are_calls,
};
