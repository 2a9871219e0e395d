//! The effect of what the program says of memory that it hands out itself.

use crate::chunk_table::{ChunkSource, TracedChunk};
use crate::judgement::{Misuse, MisuseKind};
use crate::quick::NearChunks;
use crate::shadow::Shadow;
use a64_bits::plain;
use a64_registers::Regs;
use common::GRANULE_SIZE;
use shadow_memory::{AccessedBytes, ClientRequest, Full, PointerOrigin, Provenance, RequestKind};

/// How many bytes of an access are looked at: a service that failed may have asked for any number.
const MOST_BYTES: u64 = 1_048_576;

impl Shadow {
    /// How many bytes the live chunk has that the program made at a plain address.
    pub fn own_bytes_at(&self, start: u64) -> u64 {
        match self.own_at(start) {
            Some((_, chunk)) => u64::from(chunk.size),
            None => 0,
        }
    }

    /// Notes what the program says. The pointer in x0 is one to the chunk that it makes.
    pub fn note_request(&mut self, request: &ClientRequest, after: &Regs) -> Result<(), Full> {
        self.has_own = true;
        self.near = NearChunks::new();
        match request.kind {
            RequestKind::Chunk => {
                let made = self.note_own(request)?;
                self.set(0, Provenance::whole(made), after);
            }
            RequestKind::NoAccess => self.forbid(request)?,
            RequestKind::Defined => self.allow(request)?,
        }
        if self.memory.is_short {
            return Err(Full::Pages);
        }
        Ok(())
    }

    /// Enters a chunk that the program made. A live one that it made there has another size now.
    fn note_own(&mut self, request: &ClientRequest) -> Result<PointerOrigin, Full> {
        let chunk = self.requested(request, ChunkSource::Program(request.pc));
        match self.own_at(chunk.start()) {
            Some((index, _)) => {
                let origin = PointerOrigin::of_chunk(index);
                self.chunks.replace(index, chunk);
                self.memory.set_owner(chunk.start(), chunk.end(), origin)?;
                Ok(origin)
            }
            None => self.note_new(chunk, None),
        }
    }

    /// Forbids all accesses to a range: the chunks in it are freed that the program made.
    fn forbid(&mut self, request: &ClientRequest) -> Result<(), Full> {
        self.free_own(request.start(), request.end(), Some(request.pc));
        let chunk = TracedChunk {
            is_live: false,
            ..self.requested(request, ChunkSource::Forbidden(request.pc))
        };
        self.make_place()?;
        let origin = PointerOrigin::of_chunk(self.chunks.enter(chunk)?);
        self.memory.set_owner(chunk.start(), chunk.end(), origin)?;
        Ok(())
    }

    /// Allows accesses to the granules of a range that were forbidden.
    fn allow(&mut self, request: &ClientRequest) -> Result<(), Full> {
        for granule in request.start() / GRANULE_SIZE..request.end().div_ceil(GRANULE_SIZE) {
            let addr = granule.wrapping_mul(GRANULE_SIZE);
            let Some(chunk) = self.chunk(self.memory.owner(addr)).copied() else {
                continue;
            };
            if chunk.is_own() && !chunk.is_live {
                let end = addr.saturating_add(1);
                self.memory.set_owner(addr, end, chunk.outer)?;
            }
        }
        Ok(())
    }

    /// Frees the chunks that the program made from one plain address to another: by the
    /// instruction at an address, or with the chunk of a call that they are in.
    pub(crate) fn free_own(&mut self, start: u64, end: u64, by: Option<u64>) {
        if !self.has_own {
            return;
        }
        for granule in start / GRANULE_SIZE..end.div_ceil(GRANULE_SIZE) {
            let owner = self.memory.owner(granule.wrapping_mul(GRANULE_SIZE));
            match (owner.chunk(), self.chunk(owner).copied()) {
                (Some(index), Some(chunk)) if chunk.is_own() && start <= chunk.start() => {
                    self.chunks.replace(index, chunk.freed_by(by));
                }
                _ => {}
            }
        }
    }

    /// The misuse by an access to bytes that the program forbids.
    pub(crate) fn judge_forbidden(&self, access: AccessedBytes) -> Option<Misuse> {
        let addr = plain(access.addr);
        let end = addr.saturating_add(access.count.min(MOST_BYTES));
        for granule in addr / GRANULE_SIZE..end.div_ceil(GRANULE_SIZE) {
            let owner = self.memory.owner(granule.wrapping_mul(GRANULE_SIZE));
            if let Some(chunk) = self.chunk(owner) {
                if chunk.is_forbidden() && chunk.overlaps(addr, access.count) {
                    return Some(Misuse {
                        kind: MisuseKind::Forbidden,
                        addr: addr.max(chunk.start()),
                        access,
                        chunk: Some(*chunk),
                        is_by_address: false,
                        function: None,
                    });
                }
            }
        }
        None
    }

    /// The chunk of a call that the program made an origin's chunk of; any other origin itself.
    pub(crate) fn outer(&self, origin: PointerOrigin) -> PointerOrigin {
        match self.chunk(origin) {
            Some(chunk) if chunk.is_own() => chunk.outer,
            _ => origin,
        }
    }

    /// The live chunk that the program made at a plain address, with its index.
    fn own_at(&self, start: u64) -> Option<(usize, TracedChunk)> {
        let owner = self.memory.owner(start);
        match self.chunk(owner) {
            Some(chunk) if chunk.is_own() && chunk.is_live && chunk.start() == start => {
                Some((owner.chunk()?, *chunk))
            }
            _ => None,
        }
    }

    /// The chunk that the program asks for.
    fn requested(&self, request: &ClientRequest, source: ChunkSource) -> TracedChunk {
        TracedChunk {
            source,
            pointer: request.pointer,
            size: u32::try_from(request.size).unwrap_or(u32::MAX),
            outer: self.outer(self.memory.owner(request.start())),
            is_live: true,
            maker: None,
        }
    }
}
