//! The loader's plan for an image.

ghost use Rattle.std.specs.Prelude.{◌≡◌, ℕ, ◌+◌, ◌-◌, ◌*◌, ◌/◌, ◌^◌, ◌≤◌, ◌<◌, length, IfOk};
ghost use Rattle.std.specs.Prelude.{IfErr, Err, Some, None, sum_by, true};
ghost use Rattle.std.specs.List.{list_any, list_all};
ghost use Rattle.common.specs.Obstacles.{IfRefused};
ghost use Rattle.mte_elf.specs.Headers.{HasFileHeader, entry_of, segments_of};
ghost use Rattle.mte_elf.specs.Images.{refusal_of, pages_of, has_table, is_in_range};
ghost use Rattle.mte_elf.specs.Images.{header_refusal};
ghost use Rattle.mte_elf.specs.Images.{any_share_page, share_page, is_entry, page_count};
ghost use Rattle.mte_elf.specs.Images.{first_page, last_page};

use crate::error::ElfError;
use crate::headers::{
    entry, file_type, has_interpreter, header_count, header_size, machine, program_headers,
    segments, table_offset,
};
use crate::image::{Plan, Segment};
use common::{IMAGE_END, IMAGE_START, Obstacle, PAGE_SIZE};
use std::alloc::Global;

/// The bytes of a page.
const PAGE: u128 = PAGE_SIZE as u128;

/// The bytes of a file header (Elf64_Ehdr).
const FILE_HEADER: usize = 64;

/// The identification of a little-endian ELF64 file of version 1.
const IDENTIFICATION: [u8; 7] = [0x7F, b'E', b'L', b'F', 2, 1, 1];

/// EM_AARCH64.
const AARCH64: u16 = 183;

/// ET_EXEC.
const EXECUTABLE: u16 = 2;

/// Reads an image as a whole, before anything of it is mapped.
///
/// The refusal is the first of [`ElfError`]'s tests that the file fails. Only `OutOfMemory`, where
/// an allocation was refused, can come instead of another answer, and not instead of a refusal by
/// the file's headers, whose tests need no memory.
#[tactic(auto, unfolding(crate::specs::Images::refusal_of))]
pub fn plan(alloc: Global, file: &[u8]) -> Result<Plan, Obstacle<ElfError>>
    ensures image { IfOk result (λ p. refusal_of file.now ≡ None) }
    ensures entry { IfOk result (λ p. p.entry ≡ entry_of file.now) }
    ensures pages { IfOk result (λ p. p.pages ≡ pages_of file.now) }
    ensures segments { IfOk result (λ p. p.segments.items ≡ segments_of file.now) }
    ensures refused { IfErr result (λ o. IfRefused o (λ e. refusal_of file.now ≡ Some e)) }
    ensures memory { (result ≡ Err Obstacle.OutOfMemory) → header_refusal file.now ≡ None }
{
    if file.len() < FILE_HEADER {
        return Err(Obstacle::Refused(ElfError::Short));
    }
    if !file.starts_with(&IDENTIFICATION) {
        return Err(Obstacle::Refused(ElfError::NotElf64));
    }
    if machine(file) != AARCH64 {
        return Err(Obstacle::Refused(ElfError::NotAarch64));
    }
    if file_type(file) != EXECUTABLE {
        return Err(Obstacle::Refused(ElfError::NotExec));
    }
    if !holds_table(file) {
        return Err(Obstacle::Refused(ElfError::BadHeaders));
    }
    if has_interpreter(file) {
        return Err(Obstacle::Refused(ElfError::Interpreter));
    }
    let headers = program_headers(alloc, file)?;
    let segments = segments(alloc, headers.as_slice())?;
    if !all_lie_in_range(segments.as_slice(), file.len() as u64) {
        return Err(Obstacle::Refused(ElfError::SegmentRange));
    }
    if shares_page(segments.as_slice()) {
        return Err(Obstacle::Refused(ElfError::Overlap));
    }
    let entry = entry(file);
    if !any_holds_entry(segments.as_slice(), entry) {
        return Err(Obstacle::Refused(ElfError::NoEntry));
    }
    let pages = count_pages(segments.as_slice());
    Ok(Plan {
        entry,
        pages,
        segments,
    })
}

/// Whether the file has a table of 1 to 64 program headers of 56 bytes.
fn holds_table(file: &[u8]) -> bool
    requires { HasFileHeader file.now }
    ensures { result ≡ has_table file.now }
{
    let count = u64::from(header_count(file));
    let size = file.len() as u64;
    let table = 56 * count;
    header_size(file) == 56
        && count > 0
        && count <= 64
        && table <= size
        && table_offset(file) <= size - table
}

/// Whether each segment is in range.
fn all_lie_in_range(segments: &[Segment], size: u64) -> bool
    ensures { result ≡ list_all (is_in_range size) segments.now }
{
    segments.iter().all(|segment| lies_in_range(segment, size))
}

/// Whether an entry is an address of some executable segment.
fn any_holds_entry(segments: &[Segment], entry: u64) -> bool
    ensures { result ≡ list_any (is_entry entry) segments.now }
{
    segments.iter().any(|segment| holds_entry(segment, entry))
}

/// Whether a segment's file part is in it and in a file of `size` bytes, and its addresses in the
/// range for images.
fn lies_in_range(segment: &Segment, size: u64) -> bool
    ensures { result ≡ is_in_range size segment.now }
{
    let in_file = segment.filesz == 0
        || (segment.filesz <= size && segment.offset <= size - segment.filesz);
    segment.filesz <= segment.memsz
        && in_file
        && segment.vaddr >= IMAGE_START
        && segment.memsz <= IMAGE_END
        && segment.vaddr <= IMAGE_END - segment.memsz
}

/// The last page that a segment touches.
pub fn last_page_touched(segment: &Segment) -> u64
    ensures page { result ≡ last_page segment.now }
    ensures below { result < 2 ^ 54 }
{
    let end = u128::from(segment.vaddr) + u128::from(segment.memsz);
    (end.saturating_sub(1) / PAGE) as u64
}

/// Whether two segments touch one page.
fn touches(one: &Segment, other: &Segment) -> bool
    ensures { result ≡ share_page one.now other.now }
{
    let one_first = one.vaddr / PAGE_SIZE;
    let other_first = other.vaddr / PAGE_SIZE;
    one_first <= last_page_touched(other) && other_first <= last_page_touched(one)
}

/// Whether a segment touches a page of one of the others.
fn touches_any(segment: &Segment, others: &[Segment]) -> bool
    ensures { result ≡ list_any (share_page segment.now) others.now }
{
    others.iter().any(|other| touches(segment, other))
}

/// Whether some two segments touch one page.
fn shares_page(segments: &[Segment]) -> bool
    ensures { result ≡ any_share_page segments.now }
{
    for (i, segment) in segments.iter().enumerate() {
        if touches_any(segment, &segments[i + 1..]) {
            return true;
        }
    }
    false
}

/// Whether an entry is an address of an executable segment.
fn holds_entry(segment: &Segment, entry: u64) -> bool
    ensures { result ≡ is_entry entry segment.now }
{
    segment.flags % 2 == 1 && segment.vaddr <= entry && entry - segment.vaddr < segment.memsz
}

/// How many pages a segment touches.
pub fn pages_touched(segment: &Segment) -> u64
    ensures { result ≡ page_count segment.now }
{
    (last_page_touched(segment) + 1).saturating_sub(segment.vaddr / PAGE_SIZE)
}

/// How many pages the segments touch.
fn count_pages(segments: &[Segment]) -> u64
    requires { sum_by page_count segments.now < 2 ^ 64 }
    ensures { result ≡ sum_by page_count segments.now }
{
    segments.iter().map(pages_touched).sum()
}
