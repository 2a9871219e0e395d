//! The six checks of a pointer (Scudo, `combined.h`).

ghost use Rattle.std.specs.Prelude.{◌≡◌, ◌+◌, ◌-◌, ◌*◌, ◌%◌, ◌<◌, ◌≤◌, ◌^◌, ◌/◌};
ghost use Rattle.std.specs.Prelude.{IfOk, IfErr, IfSome, Err, true};
ghost use Rattle.std.specs.Int.{from_le_bytes, w64};
ghost use Rattle.mte_tags.specs.Accesses.{read_bytes};
ghost use Rattle.mte_tags.specs.Memory.{page_has, tag_at};
ghost use Rattle.scudo_header.specs.Headers.{FitsInWord, unpacked_header};
ghost use Rattle.scudo_secondary.specs.Mappings.{mapping_of};
ghost use Rattle.scudo_heap.specs.Chunks.{end_of, block_end};
ghost use Rattle.scudo_heap.specs.Checks.{is_allocated, is_place, place_of_header, size_found};
ghost use Rattle.scudo_heap.specs.Checks.{check_pointer};
ghost use Rattle.scudo_heap.specs.Checks.{check_block, check_mapping, check_chunk, check_header};
ghost use Rattle.scudo_heap.specs.Heaps.{HeapState};
ghost use Rattle.scudo_heap.specs.Inner.{HasEnd, IsBehindGranule, IsGiven, IsOpen, IsPlainAddress};
ghost use Rattle.scudo_heap.specs.Inner.{IsUser};
ghost use Rattle.scudo_heap.specs.Inner.Parts.{heap_in};

use crate::abort::HeapAbort;
use crate::chunk::{Found, Place};
use crate::parts::HeapParts;
use crate::stacks::Stacks;
use mte_tags::{Attrs, ChunkAccess, Paged, Tagged};
use scudo_header::{CLASSES, Header, State, size_of_class, unpack};
use scudo_secondary::{Mapping, Secondary};

/// Whether a chunk in a state is handed out.
#[inline(always)]
fn is_handed_out(state: State) -> bool
    ensures { result ≡ is_allocated state }
{
    match state {
        State::Allocated => true,
        State::Available | State::Quarantined | State::Reserved => false,
    }
}

/// Whether a chunk of a size, some bytes at least, is in a carved block of a size class.
#[inline(always)]
fn lies_in_block(stacks: &Stacks, place: Place) -> bool
    requires { IsGiven place }
    ensures { result ≡ is_place stacks.now place }
{
    if place.class > CLASSES || !stacks.is_block(place.class, place.block) || place.size == 0 {
        return false;
    }
    let end = place.user + (place.size + 15) / 16 * 16;
    end <= place.block + size_of_class(place.class)
}

/// The chunk that a header of a size class gives.
#[inline(always)]
fn in_block(stacks: &Stacks, place: Place, header: &Header) -> Result<Found, HeapAbort>
    requires { IsGiven place }
    ensures found { result ≡ check_block stacks.now place header.now }
    ensures end { IfOk result HasEnd }
{
    if !lies_in_block(stacks, place) {
        return Err(HeapAbort::NotABlock);
    }
    if stacks.is_free(place.class, place.block) {
        return Err(HeapAbort::AlreadyFree);
    }
    Ok(Found::InBlock(place, *header))
}

/// The chunk of a mapping that is there.
#[inline(always)]
fn in_pages(maps: &Secondary, user: u64, header: &Header) -> Result<Found, HeapAbort>
    ensures found { result ≡ check_mapping header.now (mapping_of maps.now.mappings user) }
    ensures end { IfOk result HasEnd }
{
    let Some(mapping) = maps.find(user) else {
        return Err(HeapAbort::NotABlock);
    };
    let bytes = mapping.end() - mapping.user;
    if header.offset != 0 || u64::from(header.size_or_unused_bytes) > bytes {
        return Err(HeapAbort::NotABlock);
    }
    Ok(Found::InPages(mapping, *header))
}

/// The chunk that a header describes, which says that it is handed out.
#[tactic(auto, unfolding(crate::specs::Checks::check_chunk))]
#[inline(always)]
fn by_header(
    stacks: &Stacks,
    maps: &Secondary,
    user: u64,
    header: &Header,
) -> Result<Found, HeapAbort>
    requires user { user < 2 ^ 56 }
    requires size { FitsInWord header.now }
    ensures found { result ≡ check_chunk stacks.now maps.now.mappings user header.now }
    ensures end { IfOk result HasEnd }
{
    if header.class_id == 0 {
        return in_pages(maps, user, header);
    }
    let before = 16 + 16 * u64::from(header.offset);
    if user < before {
        return Err(HeapAbort::NotABlock);
    }
    let place = Place {
        class: header.class_id,
        block: user - before,
        user,
        size: u64::from(header.size_or_unused_bytes),
    };
    in_block(stacks, place, header)
}

/// The tag of a granule, or 0 where no page has it.
fn tag_or_zero<M: Paged>(memory: &mut M, user: u64) -> u8
    ensures tag { IsOpen (M.memory memory.old) user (user + 1)
        → result ≡ tag_at (M.memory memory.old) user }
    ensures small { result < 16 }
    ensures memory { M.memory memory.new ≡ M.memory memory.old }
    ensures kept { M.kept memory.old memory.new }
{
    match memory.load_tag(user) {
        Ok(tag) => tag,
        Err(_) => 0,
    }
}

/// The word in the granule before a user address, which is in a page with READ and WRITE.
fn header_word<M: Paged>(memory: &mut M, user: u64) -> u64
    requires user { IsUser user }
    requires above { IsBehindGranule user }
    requires mapped { page_has (M.memory memory.old) ((user - 16) / 4096) 3 ≡ true }
    ensures word { result ≡ from_le_bytes w64 (read_bytes (M.memory memory.old) (user - 16) 8) }
    ensures memory { M.memory memory.new ≡ M.memory memory.old }
    ensures kept { M.kept memory.old memory.new }
{
    let mut bytes = [0; 8];
    // The page can be read.
    let _ = memory.read(user - 16, &mut bytes, false);
    u64::from_le_bytes(bytes)
}

/// Slow path of `read_header`: the chunk begins another page, no page is mapped there, or the
/// address is not one of a chunk.
#[cold]
#[inline(never)]
fn read_header_apart<M: Paged>(memory: &mut M, user: u64) -> Result<(u64, u8), HeapAbort>
    requires { IsPlainAddress user }
    ensures abort { (h : HeapState) → IfErr result
        (λ abort. Err abort ≡ check_pointer (M.memory memory.old) h user) }
    ensures word { (h : HeapState) → IfOk result
        (λ read. check_header h user (unpacked_header h.cookie user read.0)
        ≡ check_pointer (M.memory memory.old) h user) }
    ensures tag { IsOpen (M.memory memory.old) user (user + 1)
        → IfOk result (λ read. read.1 ≡ tag_at (M.memory memory.old) user) }
    ensures small { IfOk result (λ read. read.1 < 16) }
    ensures memory { M.memory memory.new ≡ M.memory memory.old }
    ensures kept { M.kept memory.old memory.new }
{
    if user % 16 != 0 {
        return Err(HeapAbort::Misaligned);
    }
    if user < 16 {
        return Err(HeapAbort::Unmapped);
    }
    if !memory.has_attrs(user - 16, Attrs::READ | Attrs::WRITE) {
        return Err(HeapAbort::Unmapped);
    }
    let word = header_word(memory, user);
    Ok((word, tag_or_zero(memory, user)))
}

/// The answer of `read_header_apart`, copied field by field: so the result of the fast path stays
/// in registers.
#[inline(always)]
fn by_parts<M: Paged>(memory: &mut M, user: u64) -> Result<(u64, u8), HeapAbort>
    requires { IsPlainAddress user }
    ensures abort { (h : HeapState) → IfErr result
        (λ abort. Err abort ≡ check_pointer (M.memory memory.old) h user) }
    ensures word { (h : HeapState) → IfOk result
        (λ read. check_header h user (unpacked_header h.cookie user read.0)
        ≡ check_pointer (M.memory memory.old) h user) }
    ensures tag { IsOpen (M.memory memory.old) user (user + 1)
        → IfOk result (λ read. read.1 ≡ tag_at (M.memory memory.old) user) }
    ensures small { IfOk result (λ read. read.1 < 16) }
    ensures memory { M.memory memory.new ≡ M.memory memory.old }
    ensures kept { M.kept memory.old memory.new }
{
    match read_header_apart(memory, user) {
        Err(abort) => Err(abort),
        Ok((word, tag)) => Ok((word, tag)),
    }
}

/// The word of the header before a plain address and the tag of the granule at it, or which of the
/// first two checks fails.
#[inline(always)]
pub(crate) fn read_header<M: Paged>(memory: &mut M, user: u64) -> Result<(u64, u8), HeapAbort>
    requires { IsPlainAddress user }
    ensures abort { (h : HeapState) → IfErr result
        (λ abort. Err abort ≡ check_pointer (M.memory memory.old) h user) }
    ensures word { (h : HeapState) → IfOk result
        (λ read. check_header h user (unpacked_header h.cookie user read.0)
        ≡ check_pointer (M.memory memory.old) h user) }
    ensures tag { IsOpen (M.memory memory.old) user (user + 1)
        → IfOk result (λ read. read.1 ≡ tag_at (M.memory memory.old) user) }
    ensures small { IfOk result (λ read. read.1 < 16) }
    ensures memory { M.memory memory.new ≡ M.memory memory.old }
    ensures kept { M.kept memory.old memory.new }
{
    if user % 16 != 0 || user < 16 {
        return by_parts(memory, user);
    }
    match memory.read_chunk(user) {
        Some((word, tag)) => Ok((word, tag)),
        None => by_parts(memory, user),
    }
}

/// The chunk that the checks of a header's word find, or the first check that fails.
#[inline(always)]
pub(crate) fn check_word(parts: &HeapParts, user: u64, word: u64) -> Result<Found, HeapAbort>
    requires { IsPlainAddress user }
    ensures answer { result
        ≡ check_header (heap_in parts.now) user (unpacked_header parts.now.cookie user word) }
    ensures end { IfOk result HasEnd }
{
    let Some(header) = unpack(parts.cookie, user, word) else {
        return Err(HeapAbort::HeaderCorrupt);
    };
    if !is_handed_out(header.state) {
        return Err(HeapAbort::InvalidState);
    }
    by_header(&parts.stacks, &parts.maps, user, &header)
}

/// The chunk that the checks of a plain address find, or the first check that fails.
#[inline(always)]
pub(crate) fn find_chunk<M: Paged>(
    parts: &HeapParts,
    memory: &mut M,
    user: u64,
) -> Result<Found, HeapAbort>
    requires { IsPlainAddress user }
    ensures answer { result
        ≡ check_pointer (M.memory memory.old) (heap_in parts.now) user }
    ensures end { IfOk result HasEnd }
    ensures memory { M.memory memory.new ≡ M.memory memory.old }
    ensures kept { M.kept memory.old memory.new }
{
    match read_header(memory, user) {
        Err(abort) => Err(abort),
        Ok((word, _)) => check_word(parts, user, word),
    }
}
