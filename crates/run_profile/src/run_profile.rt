//! What is counted while a tenant runs.

use crate::call_change::CallChange;
use crate::call_tree::CallTree;
use crate::heap_profile::HeapProfile;
use crate::pair_numbers::{NumberPair, PairNumbers};
use crate::recent_branches::{RecentBranch, RecentBranches};
use crate::run_events::RunEvents;
use mte_backtrace::Names;
use mte_svc::TenantParts;
use std::alloc::{AllocError, Global};

/// A branch that was taken.
#[derive(Clone, Copy)]
pub struct TakenBranch {
    /// How often, but for the times that are counted with the recent ones.
    pub count: u64,
    change: CallChange,
}

/// The branches that a tenant takes, and the calls that they make, with the steps between them.
pub struct RunProfile<'a> {
    pub(crate) image: &'a [u8],
    /// The names of its addresses.
    pub(crate) names: Names<'a>,
    /// For each branch its own address and that of the next instruction.
    numbers: PairNumbers,
    branches: Vec<TakenBranch>,
    recent: RecentBranches,
    /// The calls.
    pub(crate) tree: CallTree,
    /// The chunks.
    pub(crate) heap: HeapProfile,
    /// The slices, the services and the end.
    pub(crate) events: RunEvents,
    /// The first instruction of the run, once it has begun.
    pub(crate) first: Option<u64>,
    /// The first instruction since the last branch.
    pub(crate) start: u64,
    /// The bytes of the instructions before it, each as often as it was attempted.
    bytes: u64,
    /// Whether a branch found no room.
    is_short: bool,
}

impl<'a> Drop for RunProfile<'a> {
    fn drop(self) {
        let RunProfile {
            image: _,
            names: _,
            numbers: _,
            branches: _,
            recent: _,
            tree: _,
            heap: _,
            events: _,
            first: _,
            start: _,
            bytes: _,
            is_short: _,
        } = self;
    }
}

impl<'a> RunProfile<'a> {
    /// Nothing of a tenant of an image.
    pub fn new(alloc: Global, image: &'a [u8]) -> Result<RunProfile<'a>, AllocError> {
        Ok(RunProfile {
            image,
            names: Names::of(alloc, image)?,
            numbers: PairNumbers::new(alloc)?,
            branches: Vec::new(alloc),
            recent: RecentBranches::new(alloc)?,
            tree: CallTree::new(alloc)?,
            heap: HeapProfile::new(alloc),
            events: RunEvents::new(alloc),
            first: None,
            start: 0,
            bytes: 0,
            is_short: false,
        })
    }

    /// Begins a slice of a tenant that has not ended, and the run, unless it has begun.
    pub fn begin_slice(&mut self, parts: &TenantParts) {
        let first = parts.regs.pc;
        if self.first.is_none() {
            self.first = Some(first);
            self.start = first;
        }
        if parts.is_running() {
            self.events.begin_slice(parts.history.steps);
        }
    }

    /// Whether the run has begun.
    pub fn has_begun(&self) -> bool {
        self.first.is_some()
    }

    /// The steps before the first instruction since the last branch.
    pub(crate) fn steps(&self) -> u64 {
        self.bytes / 4
    }

    /// Ends the run after all of its steps.
    pub fn finish(&mut self, steps: u64) {
        self.tree.finish(steps);
        for recent in self.recent.branches() {
            if let Some(branch) = self.branches.get_mut(recent.number) {
                branch.count = branch.count.wrapping_add(recent.count);
            }
        }
        self.recent.clear();
    }

    /// Whether something found no room, so that counts are missing.
    pub fn is_short(&self) -> bool {
        self.is_short || self.tree.is_short || self.tree.long.is_short || self.heap.is_short
    }

    /// The branches, and for each its pair of addresses.
    pub(crate) fn branches(&self) -> (&[TakenBranch], &[NumberPair]) {
        (self.branches.as_slice(), self.numbers.pairs())
    }

    /// A branch of a word was taken.
    #[inline(never)]
    pub fn take(&mut self, from: u64, word: u32, to: u64) {
        let run = from.wrapping_sub(self.start).wrapping_add(4);
        self.bytes = self.bytes.wrapping_add(run);
        self.start = to;
        let pair = NumberPair {
            first: from,
            second: to,
        };
        if !self.recent.count_stay(pair) {
            self.take_change(pair, word);
        }
    }

    /// Notes the service or the end of an attempt after which there is no next instruction, and its
    /// heap call, if it made one.
    pub fn note_attempt(&mut self, parts: &TenantParts) {
        self.events.note_attempt(parts);
        let (calls, steps) = (&parts.history.calls, parts.history.steps);
        self.heap.note_last(calls, self.tree.node(), steps);
    }

    /// Counts a branch that is no recent one, or that makes or ends a call.
    #[inline(never)]
    fn take_change(&mut self, pair: NumberPair, word: u32) {
        let branch = match self.recent.count(pair) {
            Some(branch) => branch,
            None => match self.enter(pair, word) {
                Some(branch) => branch,
                None => {
                    self.is_short = true;
                    return;
                }
            },
        };
        let number = branch.number;
        match branch.change {
            CallChange::Stay => {}
            CallChange::Call => {
                let back = pair.first.wrapping_add(4);
                self.tree.call(number, pair.second, back, self.bytes / 4);
            }
            CallChange::Tail => self.tree.replace(number, pair.second, self.bytes / 4),
            CallChange::Return => self.leave(pair.second),
        }
    }

    /// Enters a branch with the recent ones, with one time that it was taken.
    fn enter(&mut self, pair: NumberPair, word: u32) -> Option<RecentBranch> {
        let number = self.numbers.enter(pair)?;
        if number >= self.branches.len() {
            let symbols = &self.names.symbols;
            let (from, to) = (symbols.place(pair.first), symbols.place(pair.second));
            let change = CallChange::of(word, &from, &to);
            self.branches.push(TakenBranch { count: 0, change }).ok()?;
        }
        let branch = RecentBranch {
            pair,
            count: 1,
            number,
            change: self.branches.get(number)?.change,
        };
        let old = self.recent.replace(branch);
        let counted = self.branches.get_mut(old.number)?;
        counted.count = counted.count.wrapping_add(old.count);
        Some(branch)
    }

    /// Closes calls for a return to an instruction.
    fn leave(&mut self, to: u64) {
        let steps = self.bytes / 4;
        if !self.tree.leave(to, steps) {
            let function = to.wrapping_sub(self.names.symbols.place(to).offset());
            self.tree.leave_for(function, steps);
        }
    }
}
