//! The calls of a run, by the calls that they were made in.

use crate::long_calls::{LongCall, LongCalls};
use crate::pair_numbers::{NumberPair, PairNumbers};
use std::alloc::{AllocError, Global};

/// How many calls may be open. Those in the last one count as its own.
const DEEPEST: usize = 65_536;

/// How many of the last calls a return is looked for in.
const REACH: usize = 4_096;

/// What was made before the first call: its pair is none of a call.
const ROOT: NumberPair = NumberPair {
    first: u64::MAX,
    second: u64::MAX,
};

/// The number of no branch.
const NONE: usize = usize::MAX;

/// Calls of one function from one place, in the same calls.
#[derive(Clone, Copy)]
pub struct CallNode {
    /// How many there were.
    pub calls: u64,
    /// Their steps, without those of the calls in them.
    pub steps: u64,
    /// The branch of the last call in them, and its node; `NONE` for no call.
    last_edge: usize,
    last: usize,
}

/// A node without calls.
const NEW: CallNode = CallNode {
    calls: 0,
    steps: 0,
    last_edge: NONE,
    last: 0,
};

/// A call that has not returned.
#[derive(Clone, Copy)]
struct OpenCall {
    node: usize,
    /// Where it returns to.
    back: u64,
    /// Its function's first instruction.
    entry: u64,
    /// The steps before it.
    first: u64,
}

/// The calls of a run. Those that have the same branch in the same calls share a node.
pub struct CallTree {
    /// For each node but the first the number of the one that it is in, and that of its branch.
    numbers: PairNumbers,
    nodes: Vec<CallNode>,
    open: Vec<OpenCall>,
    /// The steps that nodes have.
    charged: u64,
    /// The longest calls.
    pub long: LongCalls,
    /// Whether a call found no room.
    pub is_short: bool,
}

impl Drop for CallTree {
    fn drop(self) {
        let CallTree {
            numbers: _,
            nodes: _,
            open: _,
            charged: _,
            long: _,
            is_short: _,
        } = self;
    }
}

impl CallTree {
    /// No calls: the first node has what is made in none.
    pub fn new(alloc: Global) -> Result<CallTree, AllocError> {
        let mut tree = CallTree {
            numbers: PairNumbers::new(alloc)?,
            nodes: Vec::new(alloc),
            open: Vec::new(alloc),
            charged: 0,
            long: LongCalls::new(alloc),
            is_short: false,
        };
        tree.is_short = tree.enter(ROOT).is_none();
        Ok(tree)
    }

    /// The nodes, and for each its pair.
    pub fn nodes(&self) -> (&[CallNode], &[NumberPair]) {
        (self.nodes.as_slice(), self.numbers.pairs())
    }

    /// A call by the branch with a number, after some steps.
    pub fn call(&mut self, edge: usize, entry: u64, back: u64, steps: u64) {
        self.charge(steps);
        let pushed = match self.count_call(edge) {
            Some(node) if self.open.len() < DEEPEST => {
                let call = OpenCall {
                    node,
                    back,
                    entry,
                    first: steps,
                };
                self.open.push(call).is_ok()
            }
            _ => false,
        };
        self.is_short = self.is_short || !pushed;
    }

    /// The last call becomes another one.
    pub fn replace(&mut self, edge: usize, entry: u64, steps: u64) {
        let back = self.back();
        let left = self.open.len().saturating_sub(1);
        self.close(left, steps);
        self.call(edge, entry, back, steps);
    }

    /// A return to an instruction: the last calls are closed up to the one that returns there.
    /// False if none does.
    pub fn leave(&mut self, to: u64, steps: u64) -> bool {
        if self.open.last().is_some_and(|call| call.back == to) {
            self.close_last(steps);
            return true;
        }
        let reach = self.reach();
        let last = self.open.as_slice().get(reach..).unwrap_or(&[]);
        let Some(at) = last.iter().rposition(|call| call.back == to) else {
            return false;
        };
        self.close(reach.saturating_add(at), steps);
        true
    }

    /// A return into the function that begins at an address: the calls that were made in it are
    /// closed, if it was called.
    pub fn leave_for(&mut self, function: u64, steps: u64) {
        let reach = self.reach();
        let last = self.open.as_slice().get(reach..).unwrap_or(&[]);
        if let Some(at) = last.iter().rposition(|call| call.entry == function) {
            self.close(reach.saturating_add(at).saturating_add(1), steps);
        }
    }

    /// How many calls are open before those that a return is looked for in.
    fn reach(&self) -> usize {
        self.open.len().saturating_sub(REACH)
    }

    /// Ends the run, and with it all calls.
    pub fn finish(&mut self, steps: u64) {
        self.close(0, steps);
    }

    /// The node of the last call.
    pub fn node(&self) -> usize {
        self.open.last().map_or(0, |call| call.node)
    }

    /// Where the last call returns to.
    fn back(&self) -> u64 {
        self.open.last().map_or(0, |call| call.back)
    }

    /// Counts a call by a branch in the last call, and gives its node.
    fn count_call(&mut self, edge: usize) -> Option<usize> {
        let outer = self.node();
        let known = *self.nodes.get(outer)?;
        if known.last_edge == edge {
            let node = self.nodes.get_mut(known.last)?;
            node.calls = node.calls.wrapping_add(1);
            return Some(known.last);
        }
        let number = self.enter(NumberPair {
            first: outer as u64,
            second: edge as u64,
        })?;
        let node = self.nodes.get_mut(outer)?;
        node.last_edge = edge;
        node.last = number;
        Some(number)
    }

    /// Counts a call of the node with a pair.
    fn enter(&mut self, pair: NumberPair) -> Option<usize> {
        let number = self.numbers.enter(pair)?;
        if number >= self.nodes.len() {
            self.nodes.push(NEW).ok()?;
        }
        let node = self.nodes.get_mut(number)?;
        node.calls = node.calls.wrapping_add(1);
        Some(number)
    }

    /// Gives the node of the last call the steps since the last one that was given some.
    fn charge(&mut self, steps: u64) {
        let node = self.node();
        if let Some(node) = self.nodes.get_mut(node) {
            node.steps = node.steps.wrapping_add(steps.wrapping_sub(self.charged));
        }
        self.charged = steps;
    }

    /// Closes the last call, if there is one.
    fn close_last(&mut self, steps: u64) {
        self.charge(steps);
        if let Some(call) = self.open.pop() {
            self.long.note(LongCall {
                node: call.node,
                first: call.first,
                last: steps,
            });
        }
    }

    /// Closes the last calls, so that some are left.
    fn close(&mut self, left: usize, steps: u64) {
        self.charge(steps);
        let closed = self.open.as_slice().get(left..).unwrap_or(&[]);
        for call in closed.iter().rev() {
            self.long.note(LongCall {
                node: call.node,
                first: call.first,
                last: steps,
            });
        }
        self.open.truncate(left);
    }
}
