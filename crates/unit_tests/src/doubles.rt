//! A writer in memory, and a reader that fails where a test wants it.

ghost use Rattle.std.specs.Prelude.{Some, None};
ghost use Rattle.mte_streams.specs.Reading.{unknown_reads};

use mte_session::{Sink, Source, StreamError};
use std::alloc::Global;

/// Takes all bytes into memory.
#[derive(Drop)]
pub struct MemorySink {
    /// The bytes that writes took.
    pub held: Vec<u8>,
}

impl MemorySink {
    pub fn new(alloc: Global) -> MemorySink {
        MemorySink {
            held: Vec::new(alloc),
        }
    }
}

impl Sink for MemorySink {
    ghost log = { λ s. record { taken = Some s.held.items; calls = None; failures = None } };

    fn write(&mut self, bytes: &[u8]) -> Result<usize, StreamError> {
        match self.held.extend_from_slice(bytes) {
            Ok(()) => Ok(bytes.len()),
            Err(_) => Err(StreamError),
        }
    }
}

/// Gives `left` bytes, at most `most` of them in a read; the read with number `fails_at` fails.
#[derive(Drop)]
pub struct ScriptedSource {
    left: usize,
    most: usize,
    reads: u64,
    /// The number of the read that fails, from 1; 0 for none.
    pub fails_at: u64,
}

impl ScriptedSource {
    /// A source of which no read fails.
    pub fn new(left: usize, most: usize) -> ScriptedSource {
        ScriptedSource {
            left,
            most,
            reads: 0,
            fails_at: 0,
        }
    }
}

impl Source for ScriptedSource {
    ghost log = { λ _. unknown_reads };

    fn read(&mut self, buffer: &mut [u8]) -> Result<usize, StreamError> {
        self.reads = self.reads.saturating_add(1);
        if self.reads == self.fails_at {
            return Err(StreamError);
        }
        let count = buffer.len().min(self.most).min(self.left);
        self.left -= count;
        Ok(count)
    }
}
