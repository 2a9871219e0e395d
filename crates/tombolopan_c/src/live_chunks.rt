//! The export that reports which chunks are live after heap calls.

ghost use Rattle.std.specs.Prelude.{◌≡◌, ◌≤◌, ◌<◌, ◌+◌, ◌⊎◌, ℕ, length, IfOk, OnOk};
ghost use Rattle.std.specs.BTreeMap.{values};
ghost use Rattle.tombolopan_c.specs.LentBuffers.{filled};
ghost use Rattle.tombolopan_c.specs.LiveChunks.{ended_by, made_by, size_asked, after_call};
ghost use Rattle.tombolopan_c.specs.LiveChunks.{live_after, live_chunks};
ghost use Rattle.tombolopan_c.specs.declared.codes.TheConstants.{OK, NO_ROOM, OUT_OF_MEMORY};

use crate::codes::{CALLOC, FREE, MALLOC, MEMALIGN, NO_ROOM, OK, OUT_OF_MEMORY, REALLOC};
use crate::lent_bytes::copy_to;
use crate::lent_heap::LentHeapCall;
use crate::lent_step::HeapStep;
use a64_bits::plain;
use std::alloc::{AllocError, Global};
use std::collections::BTreeMap;

/// A chunk that is live.
#[repr(C)]
#[derive(Clone, Copy)]
pub struct LiveChunk {
    /// Its plain address.
    pub address: u64,
    /// How many bytes were asked for; of none 1.
    pub size: u64,
    /// The number of the call that made it, from 1 on.
    pub call: u64,
    /// The tag of its pointer.
    pub tag: u32,
    /// 0.
    pub unused: u32,
}

/// The address of the chunk that a call has ended.
fn ended(call: &LentHeapCall) -> Option<u64>
    ensures { result ≡ ended_by call.now }
{
    let is_resize = call.op == REALLOC && (call.answer != 0 || call.second == 0);
    if call.code == OK && (call.op == FREE || is_resize) {
        Some(plain(call.first))
    } else {
        None
    }
}

/// How many bytes a call asks for.
fn asked(call: &LentHeapCall) -> u64
    ensures { result ≡ size_asked call.now }
{
    match call.op {
        MALLOC => call.first,
        CALLOC => call.first.wrapping_mul(call.second),
        _ => call.second,
    }
}

/// The chunk that a call has made.
fn made(number: u64, call: &LentHeapCall) -> Option<LiveChunk>
    ensures { result ≡ made_by number call.now }
{
    let is_maker = matches!(call.op, MALLOC | CALLOC | REALLOC | MEMALIGN);
    if call.code != OK || call.answer == 0 || !is_maker {
        return None;
    }
    let size = asked(call);
    Some(LiveChunk {
        address: plain(call.answer),
        size: if size == 0 { 1 } else { size },
        call: number,
        tag: (call.answer / (1 << 56) % 16) as u32,
        unused: 0,
    })
}

/// Enters what a call does to the live chunks.
fn note(
    live: &mut BTreeMap<u64, LiveChunk>,
    number: u64,
    call: &LentHeapCall,
) -> Result<(), AllocError>
    ensures { OnOk result (live.new.entries ≡ after_call live.old.entries number call.now) }
{
    if let Some(address) = ended(call) {
        live.remove(&address);
    }
    if let Some(chunk) = made(number, call) {
        live.insert(chunk.address, chunk)?;
    }
    Ok(())
}

/// The live chunks after the calls of a list.
fn live_behind(alloc: Global, steps: &[HeapStep]) -> Result<BTreeMap<u64, LiveChunk>, AllocError>
    ensures { IfOk result (λ live. live.entries ≡ live_after steps.now (length steps.now)) }
{
    let mut live = BTreeMap::new(alloc);
    for i in 0..steps.len() {
        if let Some(call) = steps[i].resolved(steps) {
            note(&mut live, i as u64 + 1, &call)?;
        }
    }
    Ok(live)
}

/// A list of live chunks.
fn told(alloc: Global, live: &BTreeMap<u64, LiveChunk>) -> Result<Vec<LiveChunk>, AllocError>
    ensures { IfOk result (λ chunks. chunks.items ≡ values live.now) }
{
    let mut chunks = Vec::new(alloc);
    for chunk in live.values() {
        chunks.push(*chunk)?;
    }
    Ok(chunks)
}

/// All live chunks after the calls of a list, by ascending addresses.
fn all_live(alloc: Global, steps: &[HeapStep]) -> Result<Vec<LiveChunk>, AllocError>
    ensures { IfOk result (λ chunks. chunks.items ≡ live_chunks steps.now) }
{
    let live = live_behind(alloc, steps)?;
    told(alloc, &live)
}

/// Copies as many of the chunks that are live after the calls of a list as the array holds, by
/// ascending addresses, by the answers that `tb_heap_replay` has entered. OK where it holds all;
/// NO_ROOM where it does not: `live` says how many there are. OUT_OF_MEMORY, with `live` 0, leaves
/// the array as it was.
#[unsafe(no_mangle)]
pub extern "C" fn tb_heap_live(
    alloc: Global,
    steps: &[HeapStep],
    chunks: &mut [LiveChunk],
    live: &mut u64,
) -> u32
    ensures codes { (result ≡ OK) ⊎ (result ≡ NO_ROOM) ⊎ (result ≡ OUT_OF_MEMORY) }
    ensures chunks { (result ≡ OK) ⊎ (result ≡ NO_ROOM)
        → chunks.new ≡ filled (live_chunks steps.now) chunks.old }
    ensures count { (result ≡ OK) ⊎ (result ≡ NO_ROOM) → live.new ≡ length (live_chunks steps.now) }
    ensures room { result ≡ OK → live.new ≤ length chunks.old }
    ensures short { result ≡ NO_ROOM → length chunks.old < live.new }
    ensures kept { result ≡ OUT_OF_MEMORY → (chunks.new ≡ chunks.old) × (live.new ≡ 0) }
{
    *live = 0;
    let Ok(found) = all_live(alloc, steps) else {
        return OUT_OF_MEMORY;
    };
    *live = found.len() as u64;
    if copy_to(found.as_slice(), chunks) {
        OK
    } else {
        NO_ROOM
    }
}
