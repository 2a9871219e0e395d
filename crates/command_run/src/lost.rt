//! The chunks that nothing reaches at a tenant's end.

use a64_bits::plain;
use common::{IMAGE_END, PAGE_SIZE, STACK_END, STACK_START};
use mte_flat::Flat;
use mte_svc::TenantParts;
use mte_tags::Attrs;
use mte_tenant::Status;
use pointer_provenance::{LostChunk, ReachTable, RootRange};
use std::alloc::{AllocError, Global};
use tenant_run::Observer;

/// The chunks that a tenant which exited has lost, where its pointers were watched.
pub fn lost_chunks(
    alloc: Global,
    parts: &TenantParts,
    observer: &Observer<'_>,
    memory: &mut Flat,
) -> Result<Vec<LostChunk>, AllocError> {
    let Some(checker) = observer.checker() else {
        return Ok(Vec::new(alloc));
    };
    let is_exit = matches!(parts.history.status, Status::Exited(_));
    if !is_exit || observer.finding().is_some() || !checker.kinds().leaks {
        return Ok(Vec::new(alloc));
    }
    let shadow = checker.shadow();
    let mut roots = image_ranges(alloc, memory)?;
    checker.enter_stack_words(first_stack(parts.regs.sp), &mut roots)?;
    if let Some(range) = shadow.stack_words(parts.regs.sp) {
        checker.enter_stack_words(range, &mut roots)?;
    }
    let table = ReachTable::of(alloc, shadow, &parts.regs, roots.as_slice(), memory)?;
    table.lost(alloc, shadow)
}

/// The writable pages of the image, whose words are the tenant's own variables.
fn image_ranges(alloc: Global, memory: &Flat) -> Result<Vec<RootRange>, AllocError> {
    let mut roots = Vec::new(alloc);
    let pages = memory.mapped_pages(alloc)?;
    for page in &pages {
        let start = page.number.saturating_mul(PAGE_SIZE);
        let end = start.saturating_add(PAGE_SIZE);
        if page.attrs.contains(Attrs::WRITE) && end <= IMAGE_END {
            roots.push(RootRange { start, end })?;
        }
    }
    Ok(roots)
}

/// The stack that the tenant started with: from SP on, where that is in it, else all of it.
fn first_stack(sp: u64) -> RootRange {
    let addr = plain(sp);
    let is_in_stack = STACK_START <= addr && addr <= STACK_END;
    RootRange {
        start: if is_in_stack { addr } else { STACK_START },
        end: STACK_END,
    }
}
