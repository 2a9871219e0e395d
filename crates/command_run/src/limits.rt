//! What a run leaves of its reservation, and why it could not be watched to its end.

use mte_flat::Flat;
use mte_tags::Paged;
use run_terms::{Failure, Options};
use shadow_memory::Full;
use std::alloc::{AllocError, Global};

/// The reservation in pages, those that are mapped and those that are left, where it is written.
pub fn reserved_pages(
    alloc: Global,
    options: &Options,
    memory: &mut Flat,
) -> Result<u64, AllocError> {
    if !options.output.statistics {
        return Ok(0);
    }
    let mapped = memory.mapped_pages(alloc)?.len();
    Ok(memory.pages_left().saturating_add(mapped) as u64)
}

/// The failure to note more of the tenant's pointers.
pub fn failure_of<'a>(full: Full) -> Failure<'a> {
    match full {
        Full::OutOfMemory => Failure::Memory,
        Full::Chunks => Failure::Check("it keeps 655,360 chunks"),
        Full::Pages => Failure::Check("it keeps what 8,192 pages have"),
    }
}
