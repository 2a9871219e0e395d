//! The chunks that pointers point into.

use a64_bits::plain;
use shadow_memory::{HeapFunction, PointerOrigin};
use std::alloc::{AllocError, Global};

/// What made a chunk.
#[derive(Clone, Copy, PartialEq, Eq)]
pub enum ChunkSource {
    /// The heap call with a number, from 1.
    Call(u64),
    /// The program, of memory that it hands out itself, by the instruction at an address.
    Program(u64),
    /// The program, by the instruction at an address, which forbids all accesses.
    Forbidden(u64),
}

/// A chunk, live or freed.
#[derive(Clone, Copy, PartialEq, Eq)]
pub struct TracedChunk {
    /// What made it.
    pub source: ChunkSource,
    /// The pointer that the call returned, or that the program handed out.
    pub pointer: u64,
    /// The bytes that were asked for.
    pub size: u32,
    /// Where the pointer pointed of which the program made it: to a chunk of a call, or nothing
    /// is known of it.
    pub(crate) outer: PointerOrigin,
    /// Whether it was not freed.
    pub is_live: bool,
    /// For which function it was made, where that is known.
    pub maker: Option<HeapFunction>,
}

impl TracedChunk {
    /// The number of the heap call that made it, if one did.
    pub fn call(&self) -> Option<u64> {
        match self.source {
            ChunkSource::Call(number) => Some(number),
            ChunkSource::Program(_) | ChunkSource::Forbidden(_) => None,
        }
    }

    /// Whether the program made it.
    pub(crate) fn is_own(&self) -> bool {
        self.call().is_none()
    }

    /// Whether the program forbids all accesses to it.
    pub(crate) fn is_forbidden(&self) -> bool {
        matches!(self.source, ChunkSource::Forbidden(_))
    }

    /// The same, freed: by what the program says at an address, or with the chunk that it is in.
    pub(crate) fn freed_by(self, request: Option<u64>) -> TracedChunk {
        let source = match request {
            Some(pc) if self.is_live => ChunkSource::Forbidden(pc),
            _ => self.source,
        };
        TracedChunk {
            source,
            is_live: false,
            ..self
        }
    }

    /// Whether it has one of some bytes from a plain address on.
    pub(crate) fn overlaps(&self, addr: u64, bytes: u64) -> bool {
        addr < self.end() && self.start() < addr.saturating_add(bytes)
    }

    /// Its first plain address.
    pub fn start(&self) -> u64 {
        plain(self.pointer)
    }

    /// The plain address after its last byte. A chunk of 0 bytes has one.
    pub fn end(&self) -> u64 {
        self.start().saturating_add(u64::from(self.size.max(1)))
    }

    /// Whether bytes from a plain address on are all its own.
    pub fn holds(&self, addr: u64, bytes: u64) -> bool {
        self.begins_in(addr) && addr.saturating_add(bytes) <= self.end()
    }

    /// Whether the byte at a plain address is its own.
    pub fn begins_in(&self, addr: u64) -> bool {
        self.start() <= addr && addr < self.end()
    }
}

/// The most chunks that are kept: as many as 16 MiB of pages have blocks, and a quarter more that
/// were freed. A chunk takes 40 bytes.
const MOST_CHUNKS: usize = 655_360;

/// How many chunks there are before those are looked for that nothing points into.
const FIRST_LIMIT: usize = 65_536;

/// The chunks, live and freed, but those freed ones that nothing points into any more.
#[derive(Drop)]
pub struct ChunkTable {
    chunks: Vec<TracedChunk>,
    /// The indices of chunks that were given up.
    unused: Vec<usize>,
    /// How many chunks there may be before some are given up.
    limit: usize,
}

impl ChunkTable {
    /// No chunks.
    pub fn new(alloc: Global) -> ChunkTable {
        ChunkTable {
            chunks: Vec::new(alloc),
            unused: Vec::new(alloc),
            limit: FIRST_LIMIT,
        }
    }

    /// The chunk at an index.
    pub fn get(&self, index: usize) -> Option<&TracedChunk> {
        self.chunks.get(index)
    }

    /// How many indices there are.
    pub fn len(&self) -> usize {
        self.chunks.len()
    }

    /// Whether some have to be given up before another is entered.
    pub fn is_full(&self) -> bool {
        self.unused.is_empty() && self.chunks.len() >= self.limit
    }

    /// Enters a chunk, and returns its index.
    pub fn enter(&mut self, chunk: TracedChunk) -> Result<usize, AllocError> {
        if let Some(index) = self.unused.pop() {
            if let Some(place) = self.chunks.get_mut(index) {
                *place = chunk;
                return Ok(index);
            }
        }
        let index = self.chunks.len();
        self.chunks.push(chunk)?;
        Ok(index)
    }

    /// Enters that a chunk was freed.
    pub fn free(&mut self, index: usize) {
        if let Some(chunk) = self.chunks.get_mut(index) {
            chunk.is_live = false;
        }
    }

    /// Enters another chunk instead of the one at an index.
    pub fn replace(&mut self, index: usize, chunk: TracedChunk) {
        if let Some(place) = self.chunks.get_mut(index) {
            *place = chunk;
        }
    }

    /// Marks the chunks of calls of which the program made one that is live or marked.
    pub(crate) fn mark_outer(&self, marks: &mut [bool]) {
        for (index, chunk) in self.chunks.iter().enumerate() {
            if chunk.is_live || marks.get(index) == Some(&true) {
                if let Some(place) = chunk.outer.chunk().and_then(|outer| marks.get_mut(outer)) {
                    *place = true;
                }
            }
        }
    }

    /// Gives up the freed chunks that are not marked, and allows for more where few are. Whether
    /// another can be entered.
    pub fn give_up(&mut self, marks: &[bool]) -> Result<bool, AllocError> {
        for (index, chunk) in self.chunks.iter().enumerate() {
            if !chunk.is_live && marks.get(index) != Some(&true) {
                self.unused.push(index)?;
            }
        }
        if self.unused.len() < self.limit / 4 {
            self.limit = self.limit.saturating_mul(2).min(MOST_CHUNKS);
        }
        Ok(!self.is_full())
    }
}
