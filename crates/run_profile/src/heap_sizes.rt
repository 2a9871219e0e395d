//! How large the heap of a run was.

use std::alloc::Global;

/// How many sizes are kept at most.
const MOST_SIZES: usize = 4_096;

/// The bytes of the live chunks after some steps.
#[derive(Clone, Copy)]
pub struct HeapSize {
    /// The steps.
    pub step: u64,
    /// The bytes.
    pub bytes: u64,
}

/// The sizes of the heap after some of its calls: of as many as can be kept, the next one comes so
/// many steps after the last one.
#[derive(Drop)]
pub struct HeapSizes {
    sizes: Vec<HeapSize>,
    /// The fewest steps between two that are kept.
    pace: u64,
    /// The bytes of the live chunks.
    live: u64,
    /// The largest size, the first time.
    pub peak: HeapSize,
}

impl HeapSizes {
    /// A heap without chunks.
    pub fn new(alloc: Global) -> HeapSizes {
        HeapSizes {
            sizes: Vec::new(alloc),
            pace: 1,
            live: 0,
            peak: HeapSize { step: 0, bytes: 0 },
        }
    }

    /// Those that are kept, the first one first.
    pub fn sizes(&self) -> &[HeapSize] {
        self.sizes.as_slice()
    }

    /// A chunk was made. Whether the heap is larger than ever.
    pub fn grow(&mut self, bytes: u64, step: u64) -> bool {
        self.live = self.live.wrapping_add(bytes);
        if self.live <= self.peak.bytes {
            return false;
        }
        self.peak = HeapSize {
            step,
            bytes: self.live,
        };
        true
    }

    /// A chunk was freed.
    pub fn shrink(&mut self, bytes: u64) {
        self.live = self.live.wrapping_sub(bytes);
    }

    /// Keeps the size after some steps, unless the last one is too near. Where there is no room,
    /// each second one is left out, and none comes in between from now on.
    pub fn note(&mut self, step: u64) {
        let next = match self.sizes.last() {
            Some(last) => last.step.saturating_add(self.pace),
            None => 0,
        };
        if step < next {
            return;
        }
        if self.sizes.len() >= MOST_SIZES {
            self.thin_out();
        }
        let bytes = self.live;
        let _ = self.sizes.push(HeapSize { step, bytes });
    }

    /// Leaves each second size out.
    fn thin_out(&mut self) {
        let half = self.sizes.len() / 2;
        for at in 0..half {
            if let Some(size) = self.sizes.get(at.saturating_mul(2)).copied() {
                if let Some(kept) = self.sizes.get_mut(at) {
                    *kept = size;
                }
            }
        }
        self.sizes.truncate(half);
        self.pace = self.pace.saturating_mul(2);
    }
}
