//! The effect of services on chunks and pointers.

use crate::chunk_table::{ChunkSource, TracedChunk};
use crate::quick::NearChunks;
use crate::shadow::Shadow;
use a64_bits::plain;
use a64_registers::Regs;
use shadow_memory::{AccessedBytes, Full, PointerOrigin, Provenance, ReturnedChunk};

/// The effect of an answered heap call on chunks.
#[derive(Clone, Copy, PartialEq, Eq)]
pub struct ChunkChange {
    /// The call's number, from 1.
    pub number: u64,
    /// The pointer that it returned, and the bytes that were asked for, where it made a chunk.
    pub made: Option<(u64, u64)>,
    /// The plain address of the chunk that it freed, or gave another size.
    pub freed: Option<u64>,
}

impl Shadow {
    /// Notes a service that completed and is no heap call: the bytes that it wrote are no
    /// pointer's, and neither is its result.
    pub fn note_service(&mut self, bytes: Option<AccessedBytes>, after: &Regs) {
        if let Some(bytes) = bytes {
            if bytes.is_write {
                self.memory.clear(plain(bytes.addr), bytes.count);
            }
        }
        self.set(0, Provenance::NONE, after);
    }

    /// Notes a heap call that was answered.
    pub fn note_call(&mut self, change: &ChunkChange, after: &Regs) -> Result<(), Full> {
        self.near = NearChunks::new();
        let old = match change.freed {
            Some(start) => self.live_at(start),
            None => None,
        };
        let made = match change.made {
            Some((pointer, size)) => {
                let chunk = TracedChunk {
                    source: ChunkSource::Call(change.number),
                    pointer,
                    size: u32::try_from(size).unwrap_or(u32::MAX),
                    outer: PointerOrigin::UNKNOWN,
                    is_live: true,
                    maker: None,
                };
                self.note_made(chunk, old)?
            }
            None => PointerOrigin::UNKNOWN,
        };
        if let Some((index, chunk)) = old {
            if made.chunk() != Some(index) {
                self.chunks.free(index);
                self.free_own(chunk.start(), chunk.end(), None);
            }
        }
        self.set(0, Provenance::whole(made), after);
        if self.memory.is_short {
            return Err(Full::Pages);
        }
        Ok(())
    }

    /// Notes that a function of C or C++ returned a pointer: it is the one that made the chunk, if
    /// the chunk has no other and the size that it was asked for.
    pub fn note_maker(&mut self, returned: &ReturnedChunk) {
        let Some((index, chunk)) = self.live_at(plain(returned.pointer)) else {
            return;
        };
        let size = u64::from(chunk.size);
        let is_whole = returned.size.is_none_or(|asked| asked.max(1) == size);
        if chunk.maker.is_none() && chunk.pointer == returned.pointer && is_whole {
            let maker = Some(returned.function);
            self.chunks.replace(index, TracedChunk { maker, ..chunk });
        }
    }

    /// The live chunk that begins at a plain address.
    pub fn live_chunk(&self, start: u64) -> Option<TracedChunk> {
        let (_, chunk) = self.live_at(start)?;
        Some(chunk)
    }

    /// The live chunk of a call that begins at a plain address, with its index.
    fn live_at(&self, start: u64) -> Option<(usize, TracedChunk)> {
        let index = self.outer(self.memory.owner(start)).chunk()?;
        match self.chunks.get(index) {
            Some(chunk) if chunk.is_live && chunk.start() == start => Some((index, *chunk)),
            _ => None,
        }
    }

    /// Enters a chunk that a call returned, instead of an old one where it gave that another size.
    /// Where the old one stays where it is, the pointers into it are those of the new one.
    fn note_made(
        &mut self,
        chunk: TracedChunk,
        old: Option<(usize, TracedChunk)>,
    ) -> Result<PointerOrigin, Full> {
        match old {
            Some((index, old)) if old.start() == chunk.start() => {
                self.chunks.replace(index, chunk);
                let origin = PointerOrigin::of_chunk(index);
                self.memory.set_owner(old.end(), chunk.end(), origin)?;
                Ok(origin)
            }
            _ => self.note_new(chunk, old),
        }
    }

    /// Makes a place in the table of chunks.
    pub(crate) fn make_place(&mut self) -> Result<(), Full> {
        if self.chunks.is_full() && !self.give_up_chunks()? {
            return Err(Full::Chunks);
        }
        Ok(())
    }

    /// Enters a new chunk, with the pointers that were copied into it from an old one.
    pub(crate) fn note_new(
        &mut self,
        chunk: TracedChunk,
        old: Option<(usize, TracedChunk)>,
    ) -> Result<PointerOrigin, Full> {
        self.make_place()?;
        let origin = PointerOrigin::of_chunk(self.chunks.enter(chunk)?);
        self.memory.set_owner(chunk.start(), chunk.end(), origin)?;
        self.memory.clear(chunk.start(), u64::from(chunk.size));
        if let Some((_, old)) = old {
            let bytes = old.size.min(chunk.size);
            self.memory
                .copy(old.start(), chunk.start(), u64::from(bytes))?;
        }
        Ok(origin)
    }
}
