//! The chunks of a tenant in the order in which they were made.

use crate::extent::Extent;
use run_records::{Book, BookChunk, BookEntry};
use std::alloc::{AllocError, Global};
use std::collections::BTreeMap;

/// The chunks that were made so far, the oldest first.
#[derive(Drop)]
struct History {
    /// Their granules.
    extents: Vec<Extent>,
    /// The index of the newest chunk of each block, by where the block begins.
    newest: BTreeMap<u64, usize>,
}

impl History {
    /// No chunks.
    fn new(alloc: Global) -> History {
        History {
            extents: Vec::new(alloc),
            newest: BTreeMap::new(alloc),
        }
    }

    /// Enters that a chunk was made.
    fn make(&mut self, chunk: &BookChunk) -> Result<(), AllocError> {
        let index = self.extents.len();
        let before = self
            .newest
            .insert(BookChunk::block_of(chunk.start()), index)?;
        let earlier = self.outdate(before);
        self.extents.push(Extent {
            start: chunk.start(),
            end: chunk.granules_end(),
            live: true,
            chunk: *chunk,
            earlier,
            is_newest: true,
        })?;
        Ok(())
    }

    /// Enters that the chunk with an index is no longer the newest of its block; the number of the
    /// call that made it.
    fn outdate(&mut self, index: Option<usize>) -> Option<u64> {
        let extent = self.extents.get_mut(index?)?;
        extent.is_newest = false;
        Some(extent.chunk.made.number)
    }

    /// Enters that a call freed the chunk at a plain address.
    fn end(&mut self, start: u64, entry: &BookEntry) {
        let block = BookChunk::block_of(start);
        let Some(index) = self.newest.get(&block).copied() else {
            return;
        };
        if let Some(extent) = self.extents.get_mut(index) {
            extent.live = false;
            extent.chunk.freed = Some(*entry);
        }
    }
}

/// The granules of each chunk of a book, the oldest first.
pub fn extents(alloc: Global, book: &Book) -> Result<Vec<Extent>, AllocError> {
    let mut history = History::new(alloc);
    for entry in book.entries().iter() {
        if let Some(start) = entry.ended() {
            history.end(start, entry);
        }
        if let Some(chunk) = entry.made() {
            history.make(&chunk)?;
        }
    }
    Ok(history.extents)
}
