//! The bytes that a tenant may access in its heap: those of its live chunks, to the byte.

ghost use Rattle.std.specs.Prelude.{◌≡◌, ◌≤◌, ◌↔◌, [], None, true, false, IsTrue, IfOk};
ghost use Rattle.heap_bounds.specs.Extents.{IsByteOf, IsGranuleOf};

use crate::blocks::{Block, RangeUse};
use crate::calls::{Allocation, freed_by, made_by};
use a64_bits::plain;
use common::copy_list;
use mte_svc::AnsweredCall;
use std::alloc::{AllocError, Global};
use std::collections::BTreeMap;
use std::marker::Model;

/// An access that a chunk's bounds forbid.
#[derive(Clone, Copy, Debug)]
pub enum Trespass {
    /// It goes past the size of a live chunk, in the chunk's last granule.
    PastSize,
    /// It touches a chunk that was freed.
    Freed,
    /// It touches bytes of the heap that are no chunk's.
    NoChunk,
}

/// A chunk by its plain addresses.
#[derive(Clone, Copy)]
struct ChunkBytes {
    start: u64,
    /// The address after its last byte.
    end: u64,
    live: bool,
}

impl ChunkBytes {
    ghost use Rattle.std.specs.Prelude.{Some};
    ghost use Rattle.heap_bounds.specs.declared.bounds.Trespass.TheVariants.{NoChunk, Freed};
    ghost use Rattle.heap_bounds.specs.declared.bounds.Trespass.TheVariants.{PastSize};

    /// The extent of a chunk that was made. A chunk of 0 bytes has one.
    fn of(made: &Allocation) -> ChunkBytes {
        let start = plain(made.pointer);
        ChunkBytes {
            start,
            end: start.saturating_add(made.size.max(1)),
            live: true,
        }
    }

    /// Whether a byte is in one of its granules.
    fn covers(&self, addr: u64) -> bool
        ensures { IsTrue result ↔ IsGranuleOf self.now addr }
    {
        self.start <= addr && addr / 16 * 16 < self.end
    }

    /// The fault of an access to a byte, where it is wrong.
    fn trespass(&self, addr: u64) -> Option<Trespass>
        ensures none { (result ≡ None) ↔ ((self.now.live ≡ true) × IsByteOf self.now addr) }
        ensures no_chunk { (result ≡ Some NoChunk) ↔ (IsGranuleOf self.now addr → ⊥) }
        ensures freed { (result ≡ Some Freed)
            ↔ ((self.now.live ≡ false) × IsGranuleOf self.now addr) }
        ensures past_size { (result ≡ Some PastSize)
            ↔ ((self.now.live ≡ true) × (IsGranuleOf self.now addr) × (self.now.end ≤ addr)) }
    {
        if !self.covers(addr) {
            Some(Trespass::NoChunk)
        } else if !self.live {
            Some(Trespass::Freed)
        } else if addr >= self.end {
            Some(Trespass::PastSize)
        } else {
            None
        }
    }
}

/// The chunks of a tenant: of each block of a size class the newest one, and the live ones that
/// have pages of their own.
#[derive(Drop)]
pub struct Bounds {
    blocks: BTreeMap<u64, ChunkBytes>,
    large: Vec<ChunkBytes>,
}

impl Model for Bounds {
    ghost use Rattle.heap_bounds.specs.KeptChunks.{KeptChunks, coded_chunks, chunks_of};

    ghost Value = { KeptChunks };

    ghost coded = { coded_chunks };

    ghost view = { chunks_of };
}

impl Bounds {
    ghost use Rattle.std.specs.Prelude.{Contains, ◌<◌, IfSome};
    ghost use Rattle.heap_bounds.specs.LiveBytes.{all_chunks, HasLive};

    /// The bounds of a tenant without chunks.
    pub fn new(alloc: Global) -> Bounds
        ensures { result ≡ record { blocks = []; large = [] } }
    {
        Bounds {
            blocks: BTreeMap::new(alloc),
            large: Vec::new(alloc),
        }
    }

    /// A copy of them. It is refused only where its memory is.
    pub fn copy(&self, alloc: Global) -> Result<Bounds, AllocError>
        ensures { IfOk result (λ copy. copy ≡ self.now) }
    {
        let blocks = self.blocks.clone()?;
        let large = copy_list(alloc, &self.large)?;
        Ok(Bounds { blocks, large })
    }

    /// Enters what a heap call did.
    pub fn note(&mut self, call: &AnsweredCall) -> Result<(), AllocError> {
        if let Some(start) = freed_by(call) {
            self.free(start);
        }
        match made_by(call) {
            Some(made) => self.make(&ChunkBytes::of(&made)),
            None => Ok(()),
        }
    }

    /// Enters that the chunk at an address was freed.
    fn free(&mut self, start: u64) {
        match Block::of(start) {
            Some(block) => self.free_block(&block),
            None => self.large.retain(|extent| extent.start != start),
        }
    }

    /// Enters that the chunk of a block was freed.
    fn free_block(&mut self, block: &Block) {
        if let Some(extent) = self.blocks.get_mut(&block.start) {
            extent.live = false;
        }
    }

    /// Enters that a chunk was made.
    fn make(&mut self, extent: &ChunkBytes) -> Result<(), AllocError> {
        match Block::of(extent.start) {
            Some(block) => {
                self.blocks.insert(block.start, *extent)?;
            }
            None => self.large.push(*extent)?,
        }
        Ok(())
    }

    /// The first byte of an access to the heap that it may not touch, by its plain address, and
    /// what it does there.
    pub fn check(&self, addr: u64, bytes: u64) -> Option<(u64, Trespass)> {
        let first = plain(addr);
        if bytes == 0 {
            return None;
        }
        if let Some(trespass) = self.check_byte(first) {
            return Some((first, trespass));
        }
        let end = self.end_of(first)?;
        if bytes <= end.saturating_sub(first) {
            return None;
        }
        Some((end, self.check_byte(end).unwrap_or(Trespass::NoChunk)))
    }

    /// The bytes of the live chunk that has the byte at a plain address: the first, and the one
    /// after the last.
    pub fn live_at(&self, addr: u64) -> Option<(u64, u64)>
        ensures { IfSome result (λ bytes. (bytes.0 ≤ addr) × (addr < bytes.1)
            × HasLive self.now bytes.0 bytes.1) }
    {
        let extent = self.extent_at(addr)?;
        if extent.live && extent.start <= addr && addr < extent.end {
            Some((extent.start, extent.end))
        } else {
            None
        }
    }

    /// The fault of an access to the byte at a plain address, where it is wrong.
    fn check_byte(&self, addr: u64) -> Option<Trespass> {
        match RangeUse::of(addr) {
            RangeUse::Class(_) | RangeUse::Large => match self.extent_at(addr) {
                Some(extent) => extent.trespass(addr),
                None => Some(Trespass::NoChunk),
            },
            _ => None,
        }
    }

    /// The end of the chunk that holds a byte; none outside the heap.
    fn end_of(&self, addr: u64) -> Option<u64> {
        let extent = self.extent_at(addr)?;
        Some(extent.end)
    }

    /// The chunk whose block or pages an address is in.
    fn extent_at(&self, addr: u64) -> Option<ChunkBytes>
        ensures { IfSome result (λ extent. Contains (all_chunks self.now) extent) }
    {
        match Block::of(addr) {
            Some(block) => self.blocks.get(&block.start).copied(),
            None => self.large_at(addr),
        }
    }

    /// The first chunk with pages of its own whose granules an address is in.
    fn large_at(&self, addr: u64) -> Option<ChunkBytes>
        ensures { IfSome result (λ extent. Contains self.now.large extent) }
    {
        for extent in &self.large {
            if extent.covers(addr) {
                return Some(*extent);
            }
        }
        None
    }
}
