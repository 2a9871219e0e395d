//! The book of a tenant's heap calls.

ghost use Rattle.std.specs.Prelude.{◌≡◌, ◌≢◌, [], drop, option_map, IfOk, IfSome, None};
ghost use Rattle.a64_bits.specs.Addresses.{plain};
ghost use Rattle.heap_bounds.specs.Chunks.{returned_chunk, ended_chunk};
ghost use Rattle.run_records.specs.Ends.{new_chunk, with_ending};
ghost use Rattle.run_records.specs.Books.{seen_by, entries_of, room_of, newest_call, IsEntered};

use a64_bits::plain;
use circular_buffer::HeapCircularBuffer;
use heap_bounds::{Allocation, Block, freed_by, made_by};
use mte_backtrace::Callers;
use mte_svc::{AnsweredCall, TenantParts};
use mte_tags::{Tagged, tag_of};
use scudo_heap::HeapCall;
use std::alloc::{AllocError, Global};
use std::collections::BTreeMap;

/// How many heap calls are kept.
pub const KEPT: usize = 65_536;

/// A heap call that was answered.
#[derive(Clone, Copy)]
pub struct BookEntry {
    /// Its number among the heap calls, from 1.
    pub number: u64,
    /// The step that made it, from 1.
    pub step: u64,
    /// The address of its SVC.
    pub pc: u64,
    /// The call.
    pub call: AnsweredCall,
    /// The tag of the generator after it: of a chunk of a block that it freed the granules' tag.
    pub drawn: u8,
    /// The calls that led to it.
    pub callers: Callers,
}

/// A chunk that a heap call returned.
#[derive(Clone, Copy)]
pub struct BookChunk {
    /// The pointer that was returned.
    pub pointer: u64,
    /// The bytes that were asked for.
    pub size: u64,
    /// The call that made it.
    pub made: BookEntry,
    /// The call that freed it.
    pub freed: Option<BookEntry>,
}

/// The last heap calls of a tenant, the oldest first.
#[derive(Drop)]
pub struct Book {
    entries: HeapCircularBuffer<BookEntry>,
    seen: u64,
}

/// Which chunk is looked for, by plain addresses.
#[derive(Clone, Copy)]
pub enum ChunkQuery {
    /// One whose bytes an address is among.
    Holding(u64),
    /// The same, and its pointer has a tag.
    Tagged(u64, u8),
    /// One of whose granules an address is in.
    InGranules(u64),
    /// One that begins at an address.
    At(u64),
    /// One in a block that begins at an address.
    InBlock(u64),
}

impl ChunkQuery {
    /// Whether a chunk is one of these.
    fn is(&self, chunk: &BookChunk) -> bool {
        match self {
            ChunkQuery::Holding(addr) => chunk.distance(*addr) == 0,
            ChunkQuery::Tagged(addr, tag) => chunk.distance(*addr) == 0 && chunk.tag() == *tag,
            ChunkQuery::InGranules(addr) => chunk.start() <= *addr && *addr < chunk.granules_end(),
            ChunkQuery::At(start) => chunk.start() == *start,
            ChunkQuery::InBlock(start) => chunk.is_in_block(*start),
        }
    }
}

impl BookEntry {
    /// The chunk that the call returned, as it was then.
    pub fn made(&self) -> Option<BookChunk>
        ensures { result ≡ option_map (new_chunk self.now) (returned_chunk self.now.call) }
    {
        let Allocation { pointer, size } = made_by(&self.call)?;
        Some(BookChunk {
            pointer,
            size,
            made: *self,
            freed: None,
        })
    }

    /// Whether the call asked for a chunk and returned none.
    fn is_refused(&self) -> bool {
        let AnsweredCall { call, answer } = self.call;
        let asks = match call {
            HeapCall::Malloc { .. } | HeapCall::Calloc { .. } | HeapCall::Memalign { .. } => true,
            HeapCall::Realloc { size, .. } => size != 0,
            HeapCall::Free { .. } | HeapCall::UsableSize { .. } => false,
        };
        asks && answer == 0
    }

    /// The plain address of the chunk that the call freed, or gave another size.
    pub fn ended(&self) -> Option<u64>
        ensures { result ≡ ended_chunk self.now.call }
    {
        freed_by(&self.call)
    }
}

impl BookChunk {
    /// Its first plain address.
    pub fn start(&self) -> u64
        ensures { result ≡ plain self.now.pointer }
    {
        plain(self.pointer)
    }

    /// The plain address after its last byte. A chunk of 0 bytes has one.
    pub fn end(&self) -> u64 {
        self.start().saturating_add(self.size.max(1))
    }

    /// The end of its last granule.
    pub fn granules_end(&self) -> u64 {
        self.end().saturating_add(15) / 16 * 16
    }

    /// Where the block of the chunk at a plain address begins; of one with pages of its own, the
    /// address.
    pub fn block_of(start: u64) -> u64 {
        Block::of(start).map_or(start, |block| block.start)
    }

    /// Whether it is in the block of a size class that begins at an address.
    fn is_in_block(&self, start: u64) -> bool {
        BookChunk::block_of(self.start()) == start
    }

    /// The tag of its pointer.
    pub fn tag(&self) -> u8 {
        tag_of(self.pointer)
    }

    /// How many bytes are between it and an address: 0 where the address is one of its own.
    pub fn distance(&self, addr: u64) -> u64 {
        let (start, end) = (self.start(), self.end());
        if addr < start {
            start - addr
        } else if addr < end {
            0
        } else {
            (addr - end).saturating_add(1)
        }
    }
}

impl Book {
    /// An empty book.
    pub fn new(alloc: Global) -> Result<Book, AllocError>
        ensures seen { IfOk result (λ book. seen_by book ≡ 0) }
        ensures entries { IfOk result (λ book. entries_of book ≡ []) }
        ensures room { IfOk result (λ book. room_of book ≡ KEPT) }
    {
        let entries = HeapCircularBuffer::with_capacity(alloc, KEPT)?;
        Ok(Book { entries, seen: 0 })
    }

    /// Enters the heap call that the last step made, if it made one, with at most eight return
    /// addresses, which are read from the tenant's memory. Returns that call.
    #[tactic(auto, using(crate::proofs::CallLemmas::newest_is_last))]
    pub fn note<M: Tagged>(&mut self, parts: &TenantParts, memory: &mut M) -> Option<AnsweredCall>
        ensures memory { M.memory memory.new ≡ M.memory memory.old }
        ensures kept { M.kept memory.old memory.new }
        ensures none { parts.now.history.calls.count ≡ seen_by self.old → result ≡ None }
        ensures call { parts.now.history.calls.count ≢ seen_by self.old
            → result ≡ newest_call parts.now.history.calls }
        ensures seen { seen_by self.new ≡ parts.now.history.calls.count }
        ensures entered { IfSome result (IsEntered parts.now self.old self.new) }
        ensures others { result ≡ None → entries_of self.new ≡ entries_of self.old }
        ensures room { room_of self.new ≡ room_of self.old }
    {
        let calls = &parts.history.calls;
        if calls.count() == self.seen {
            return None;
        }
        self.seen = calls.count();
        let call = calls.get(calls.kept().saturating_sub(1))?;
        let callers = Callers::of(memory, &parts.regs);
        self.entries.push_back(BookEntry {
            number: self.seen,
            step: parts.history.steps,
            pc: parts.regs.pc.wrapping_sub(4),
            call,
            drawn: parts.regs.rgsr.tag,
            callers,
        });
        Some(call)
    }

    /// Whether calls were made that are no longer kept.
    pub fn is_short(&self) -> bool {
        self.seen > self.entries.len() as u64
    }

    /// The newest chunk that is the wanted one, with the call that freed it.
    pub fn newest(&self, wanted: &ChunkQuery) -> Option<BookChunk> {
        let mut found = None;
        for (i, entry) in self.entries.iter().enumerate() {
            if let Some(chunk) = entry.made() {
                if wanted.is(&chunk) {
                    found = Some((i, chunk));
                }
            }
        }
        let (i, chunk) = found?;
        Some(self.with_end(i.saturating_add(1), chunk))
    }

    /// The chunk, of those with a tag, that is nearest to an address; of several the newest.
    pub fn nearest(&self, addr: u64, tag: u8) -> Option<BookChunk> {
        let mut found: Option<(usize, BookChunk)> = None;
        for (i, entry) in self.entries.iter().enumerate() {
            if let Some(chunk) = entry.made() {
                let nearer = match &found {
                    Some((_, best)) => chunk.distance(addr) <= best.distance(addr),
                    None => true,
                };
                if chunk.tag() == tag && nearer {
                    found = Some((i, chunk));
                }
            }
        }
        let (i, chunk) = found?;
        Some(self.with_end(i.saturating_add(1), chunk))
    }

    /// The newest call that asked for a chunk and returned none.
    pub fn newest_refused(&self) -> Option<BookEntry> {
        let mut found = None;
        for entry in self.entries.iter() {
            if entry.is_refused() {
                found = Some(*entry);
            }
        }
        found
    }

    /// A chunk with the call that freed it, of those from an index on.
    fn with_end(&self, later: usize, chunk: BookChunk) -> BookChunk
        ensures { result ≡ with_ending (drop later self.now.entries.items) chunk }
    {
        let start = chunk.start();
        // so many fit in a usize, so that the next place does
        let _count = self.entries.len();
        let mut next = later;
        while let Some(entry) = self.entries.get(next) {
            if entry.ended() == Some(start) {
                return BookChunk {
                    freed: Some(*entry),
                    ..chunk
                };
            }
            next += 1;
        }
        BookChunk {
            freed: None,
            ..chunk
        }
    }

    /// The chunks that are live, by their addresses.
    pub fn live(&self, alloc: Global) -> Result<Vec<BookChunk>, AllocError> {
        let mut live: BTreeMap<u64, BookChunk> = BTreeMap::new(alloc);
        for entry in self.entries.iter() {
            if let Some(start) = entry.ended() {
                live.remove(&start);
            }
            if let Some(chunk) = entry.made() {
                live.insert(chunk.start(), chunk)?;
            }
        }
        live.values().copied().collect(alloc)
    }

    /// The calls that are kept, the oldest first.
    pub fn entries(&self) -> &HeapCircularBuffer<BookEntry> {
        &self.entries
    }
}
