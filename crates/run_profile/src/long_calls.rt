//! The longest calls of a run.

use std::alloc::Global;

/// How many are kept.
const MOST_CALLS: usize = 65_536;

/// A call, from its first step to its last one.
#[derive(Clone, Copy)]
pub struct LongCall {
    /// Its place in the tree of calls.
    pub node: usize,
    /// The steps before it.
    pub first: u64,
    /// The steps up to its end.
    pub last: u64,
}

impl LongCall {
    /// Its steps, those of the calls in it among them.
    fn steps(&self) -> u64 {
        self.last.saturating_sub(self.first)
    }
}

/// The calls of some steps or more: as many steps as it takes that all of them can be kept.
#[derive(Drop)]
pub struct LongCalls {
    calls: Vec<LongCall>,
    least: u64,
    /// Whether one could not be kept.
    pub is_short: bool,
}

impl LongCalls {
    /// No calls.
    pub fn new(alloc: Global) -> LongCalls {
        LongCalls {
            calls: Vec::new(alloc),
            least: 1,
            is_short: false,
        }
    }

    /// The fewest steps of those that are kept.
    pub fn least(&self) -> u64 {
        self.least
    }

    /// Those that are kept, in the order of their ends.
    pub fn calls(&self) -> &[LongCall] {
        self.calls.as_slice()
    }

    /// Keeps a call that has ended, if it is long enough.
    pub fn note(&mut self, call: LongCall) {
        if call.steps() < self.least {
            return;
        }
        if self.calls.len() >= MOST_CALLS {
            self.least = self.least.saturating_mul(2);
            let least = self.least;
            self.calls.retain(|call| call.steps() >= least);
        }
        if self.calls.push(call).is_err() {
            self.is_short = true;
        }
    }
}
