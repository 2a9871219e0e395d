//! An image becomes pages and bytes of a memory.

ghost use Rattle.std.specs.Prelude.{◌≡◌, ℕ, ◌+◌, ◌-◌, ◌*◌, ◌≤◌, ◌<◌, length, None, sum_by, true};
ghost use Rattle.mte_tags.specs.Memory.{page_at, pages_left, IsFree};
ghost use Rattle.mte_tags.specs.Accesses.{IsPageAttrs};
ghost use Rattle.mte_elf.specs.Headers.{segments_of};
ghost use Rattle.mte_elf.specs.Images.{refusal_of, pages_of, is_in_range, first_page, page_count};
ghost use Rattle.mte_elf.specs.Loading.{attrs_of, file_part, with_segment, with_segments};
ghost use Rattle.mte_elf.specs.Pages.{image_page, page_or};

use crate::image::{Plan, Segment};
use crate::planning::{last_page_touched, pages_touched};
use common::PAGE_SIZE;
use mte_tags::{Attrs, Paged};

/// Maps the pages of an image and loads its bytes. `plan` is the file's plan, the pages below
/// 0x10000000 aren't mapped, and as many pages are left as the plan has.
pub fn load<M: Paged>(plan: &Plan, file: &[u8], memory: &mut M)
    requires image { refusal_of file.now ≡ None }
    requires plan { plan.now.segments.items ≡ segments_of file.now }
    requires free { (page : ℕ)
        → page < 65536 → page_at (M.Tagged.memory memory.old) page ≡ None }
    requires room { pages_of file.now ≤ pages_left (M.Tagged.memory memory.old) }
    ensures memory { M.Tagged.memory memory.new
        ≡ with_segments file.now (M.Tagged.memory memory.old) (segments_of file.now) }
    ensures pages { (page : ℕ)
        → page_at (M.Tagged.memory memory.new) page
        ≡ page_or (image_page file.now (segments_of file.now) page)
        (page_at (M.Tagged.memory memory.old) page) }
    ensures left { pages_left (M.Tagged.memory memory.new)
        ≡ pages_left (M.Tagged.memory memory.old) - pages_of file.now }
    ensures above { (page : ℕ)
        → 65536 ≤ page
        → page_at (M.Tagged.memory memory.old) page
        ≡ None → page_at (M.Tagged.memory memory.new) page ≡ None }
    ensures kept { M.Tagged.kept memory.old memory.new }
{
    for segment in &plan.segments {
        load_segment(segment, file, memory);
    }
}

/// Maps and loads one segment.
#[tactic(auto, unfolding(crate::specs::Loading::with_segment))]
fn load_segment<M: Paged>(segment: &Segment, file: &[u8], memory: &mut M)
    requires range { is_in_range (length file.now) segment.now ≡ true }
    requires some { 0 < segment.now.memsz }
    requires free { IsFree (M.Tagged.memory memory.old) (first_page segment.now)
        (page_count segment.now) }
    requires room { page_count segment.now ≤ pages_left (M.Tagged.memory memory.old) }
    ensures memory { M.Tagged.memory memory.new
        ≡ with_segment file.now (M.Tagged.memory memory.old) segment.now }
    ensures kept { M.Tagged.kept memory.old memory.new }
{
    let first = segment.vaddr / PAGE_SIZE;
    let count = pages_touched(segment) as usize;
    match memory.map_pages(first, count, page_attrs(segment.flags)) {
        Ok(()) => memory.load_bytes(segment.vaddr, segment_bytes(segment, file)),
        Err(_) => unreachable!(),
    }
}

/// A segment's bytes that are in the file.
fn segment_bytes<'a>(segment: &Segment, file: &'a [u8]) -> &'a [u8]
    requires { is_in_range (length file.now) segment.now ≡ true }
    ensures bytes { result.now ≡ file_part file.now segment.now }
    ensures count { length result.now ≡ segment.now.filesz }
{
    if segment.filesz == 0 {
        return &[];
    }
    let from = segment.offset as usize;
    &file[from..from + segment.filesz as usize]
}

/// The attributes of a segment's pages: READ for read or write, EXEC for execute, WRITE and TAGGED
/// for write.
fn page_attrs(flags: u32) -> Attrs
    ensures value { result ≡ attrs_of flags }
    ensures valid { IsPageAttrs result }
{
    match flags % 8 {
        0 => Attrs::NONE,
        1 => Attrs::EXEC,
        4 => Attrs::READ,
        5 => Attrs::TEXT,
        2 | 6 => Attrs::DATA,
        _ => Attrs::ALL,
    }
}
