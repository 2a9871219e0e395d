//! The heap of a run, by the calls that its chunks were made in.

use crate::heap_sizes::HeapSizes;
use a64_bits::plain;
use heap_bounds::{Allocation, freed_by, made_by};
use mte_svc::{AnsweredCall, HeapCalls};
use std::alloc::{AllocError, Global};
use std::collections::BTreeMap;

/// A live chunk: the node of the calls that it was made in, its size, and the steps before it.
#[derive(Clone, Copy)]
struct MadeChunk {
    node: usize,
    bytes: u64,
    step: u64,
}

/// The chunks that were made in the calls of a node.
#[derive(Clone, Copy)]
pub struct HeapSums {
    /// How many were made.
    pub made: u64,
    /// The bytes of those.
    pub made_bytes: u64,
    /// How many were freed.
    pub freed: u64,
    /// For how many steps those were live, in all.
    pub lived: u64,
    /// How many are live.
    pub live: u64,
    /// The bytes of those.
    pub live_bytes: u64,
    /// The bytes of those that were live at the peak, if one of them changed since.
    peak_bytes: u64,
    /// The number of the last change of one of them.
    changed: u64,
}

/// No chunks.
const NOTHING: HeapSums = HeapSums {
    made: 0,
    made_bytes: 0,
    freed: 0,
    lived: 0,
    live: 0,
    live_bytes: 0,
    peak_bytes: 0,
    changed: 0,
};

/// The heap of a run. The peak is the first time of its largest size.
#[derive(Drop)]
pub struct HeapProfile {
    chunks: BTreeMap<u64, MadeChunk>,
    nodes: Vec<HeapSums>,
    /// How large it was.
    pub sizes: HeapSizes,
    /// How many calls there were.
    calls: u64,
    /// How many changes there were.
    changes: u64,
    /// The number of the change that made the peak.
    peak_change: u64,
    /// Whether a chunk found no room.
    pub is_short: bool,
}

impl HeapProfile {
    /// A heap without chunks.
    pub fn new(alloc: Global) -> HeapProfile {
        HeapProfile {
            chunks: BTreeMap::new(alloc),
            nodes: Vec::new(alloc),
            sizes: HeapSizes::new(alloc),
            calls: 0,
            changes: 0,
            peak_change: 0,
            is_short: false,
        }
    }

    /// The sums of the nodes, by their numbers; of those after the last no chunk was made.
    pub fn nodes(&self) -> &[HeapSums] {
        self.nodes.as_slice()
    }

    /// The bytes of a node's chunks that were live at the peak.
    pub fn at_peak(&self, sums: &HeapSums) -> u64 {
        if sums.changed <= self.peak_change {
            sums.live_bytes
        } else {
            sums.peak_bytes
        }
    }

    /// Notes the last heap call, if it is a new one, which was made in the calls of a node.
    pub fn note_last(&mut self, calls: &HeapCalls, node: usize, step: u64) {
        if calls.count() == self.calls {
            return;
        }
        self.calls = calls.count();
        if let Some(call) = calls.get(calls.kept().saturating_sub(1)) {
            self.note(&call, node, step);
        }
    }

    /// Notes a heap call.
    fn note(&mut self, call: &AnsweredCall, node: usize, step: u64) {
        if let Some(start) = freed_by(call) {
            self.free(start, step);
        }
        if let Some(made) = made_by(call) {
            if self.make(&made, node, step).is_err() {
                self.is_short = true;
            }
        }
        self.sizes.note(step);
    }

    /// Notes that a chunk was made.
    fn make(&mut self, made: &Allocation, node: usize, step: u64) -> Result<(), AllocError> {
        let bytes = made.size;
        for _ in self.nodes.len()..node.saturating_add(1) {
            self.nodes.push(NOTHING)?;
        }
        let start = plain(made.pointer);
        self.chunks.insert(start, MadeChunk { node, bytes, step })?;
        if let Some(sums) = self.change(node) {
            sums.made = sums.made.wrapping_add(1);
            sums.made_bytes = sums.made_bytes.wrapping_add(bytes);
            sums.live = sums.live.wrapping_add(1);
            sums.live_bytes = sums.live_bytes.wrapping_add(bytes);
        }
        if self.sizes.grow(bytes, step) {
            self.peak_change = self.changes;
        }
        Ok(())
    }

    /// Notes that the chunk at an address was freed, if it is one.
    fn free(&mut self, start: u64, step: u64) {
        let Some(chunk) = self.chunks.remove(&start) else {
            return;
        };
        if let Some(sums) = self.change(chunk.node) {
            sums.freed = sums.freed.wrapping_add(1);
            sums.lived = sums.lived.wrapping_add(step.wrapping_sub(chunk.step));
            sums.live = sums.live.wrapping_sub(1);
            sums.live_bytes = sums.live_bytes.wrapping_sub(chunk.bytes);
        }
        self.sizes.shrink(chunk.bytes);
    }

    /// The sums of a node that change: what they are at the peak is kept.
    fn change(&mut self, node: usize) -> Option<&mut HeapSums> {
        self.changes = self.changes.wrapping_add(1);
        let sums = self.nodes.get_mut(node)?;
        if sums.changed <= self.peak_change {
            sums.peak_bytes = sums.live_bytes;
        }
        sums.changed = self.changes;
        Some(sums)
    }
}
