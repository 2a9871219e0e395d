//! The laws, which have no code: a call brings what they say to its caller.

use a64_decode::{words_are_unique, words_mean};
use a64_run::known_words_stay;
use a64_step::{steps_keep_fixed_pages, steps_keep_tag_mode, steps_keep_tags};
use common::{limits_in_digits, ranges_in_digits};
use mte_elf::loading_keeps_memories_whole;
use mte_frames::others_are_kept;
use mte_laws::{
    accepted_alone, allowed_tags_are_drawn, careful_runs_are_sound, careful_tenants_are_sound,
    changed_headers_are_refused, chunks_are_apart, chunks_are_guarded, chunks_are_tagged,
    chunks_may_be_used, chunks_of_tenants_are_guarded, chunks_of_tenants_may_be_used,
    decisions_need_no_steps, double_frees_abort, freed_chunks_are_refused, freed_chunks_are_zero,
    freed_chunks_of_tenants_are_refused, freed_chunks_stay_freed, freed_headers_stay,
    freed_pages_are_refused, freed_pages_of_tenants_are_refused, freed_tags_differ,
    grown_granules_are_zero, large_chunks_are_guarded, large_double_frees_abort,
    lifetimes_are_guarded, lines_may_be_left_out, mallocs_are_answered, neighbours_differ,
    new_chunks_are_live, new_chunks_are_zero, new_tags_differ, odd_distances_differ,
    other_chunks_stay, other_tags_are_refused, reallocations_free, reallocations_keep_bytes,
    refused_calls_change_nothing, report_in_parts, reused_tags_differ,
    reused_tags_of_tenants_differ, services_are_calls, stale_calls_are_served, tenants_take_turns,
};
use mte_sched::{
    behaviours_are_alone, behaviours_are_isolated, flag_is_clear, ledger_follows,
    live_limit_in_digits, slices_are_bounded, tenants_are_alone, tenants_are_isolated,
};
use mte_space::{other_tenants_stay, pages_of_a_space, written_frames_are_pages};
use mte_streams::file_limit_in_digits;
use mte_svc::{kept_calls_in_digits, services_in_digits};
use mte_tags::{flag_stays_in_sync, mode_stays, no_tag_check_in_async, pages_after_calls};
use mte_translate::{
    cached_translations_stay, frames_of_tables, leaves_are_used, pages_are_walks, tables_stay,
};
use scudo_heap::{
    accesses_keep_the_condition, calls_keep_other_pages, calls_keep_the_condition,
    condition_of_calls, settings_in_digits,
};
use tombolopan::steps_without_access_keep_memory;

#[test]
fn laws_of_steps() {
    words_mean();
    words_are_unique();
    steps_keep_tags();
    steps_keep_tag_mode();
    steps_keep_fixed_pages();
    steps_without_access_keep_memory();
    known_words_stay();
}

#[test]
fn laws_of_memories() {
    flag_stays_in_sync();
    no_tag_check_in_async();
    mode_stays();
    pages_after_calls();
    others_are_kept();
    pages_are_walks();
    frames_of_tables();
    leaves_are_used();
    cached_translations_stay();
    tables_stay();
    written_frames_are_pages();
    pages_of_a_space();
    other_tenants_stay();
    loading_keeps_memories_whole();
}

#[test]
fn laws_of_calls() {
    condition_of_calls();
    calls_keep_the_condition();
    accesses_keep_the_condition();
    calls_keep_other_pages();
}

#[test]
fn laws_of_careful_runs() {
    careful_runs_are_sound();
    freed_chunks_are_refused();
    freed_pages_are_refused();
    new_tags_differ();
    reused_tags_differ();
    chunks_are_tagged();
    neighbours_differ();
    chunks_are_apart();
    chunks_are_guarded();
    other_tags_are_refused();
    freed_tags_differ();
    large_chunks_are_guarded();
    allowed_tags_are_drawn();
}

#[test]
fn laws_of_careful_tenants() {
    careful_tenants_are_sound();
    freed_chunks_of_tenants_are_refused();
    freed_pages_of_tenants_are_refused();
    chunks_of_tenants_are_guarded();
    reused_tags_of_tenants_differ();
    services_are_calls();
}

#[test]
fn laws_of_a_heap() {
    new_chunks_are_live();
    new_chunks_are_zero();
    chunks_may_be_used();
    chunks_of_tenants_may_be_used();
    other_chunks_stay();
    double_frees_abort();
    freed_headers_stay();
    large_double_frees_abort();
    changed_headers_are_refused();
    stale_calls_are_served();
    reallocations_keep_bytes();
    reallocations_free();
    mallocs_are_answered();
    refused_calls_change_nothing();
    freed_chunks_are_zero();
    grown_granules_are_zero();
    odd_distances_differ();
    tenants_take_turns();
    freed_chunks_stay_freed();
    lifetimes_are_guarded();
}

#[test]
fn laws_of_a_host() {
    ledger_follows();
    tenants_are_alone();
    tenants_are_isolated();
    behaviours_are_alone::<u64, bool>();
    behaviours_are_isolated::<u64, bool>();
    flag_is_clear();
    slices_are_bounded();
    decisions_need_no_steps();
    accepted_alone();
    report_in_parts();
    lines_may_be_left_out();
}

/// The numbers that are fixed, in digits.
#[test]
fn limits_of_a_session() {
    limits_in_digits();
    ranges_in_digits();
    file_limit_in_digits();
    settings_in_digits();
    services_in_digits();
    kept_calls_in_digits();
    live_limit_in_digits();
}
