//! The branches that were taken last, each with a count that the profile does not have yet.

use crate::call_change::CallChange;
use crate::pair_numbers::NumberPair;
use std::alloc::{AllocError, Global};

/// How many are kept.
const COUNT: usize = 4_096;

/// A branch, and how often it was taken since it was entered.
#[derive(Clone, Copy)]
pub struct RecentBranch {
    /// Its own address and that of the next instruction.
    pub pair: NumberPair,
    /// How often it was taken.
    pub count: u64,
    /// Its number.
    pub number: usize,
    /// What it does to the calls.
    pub change: CallChange,
}

/// No branch: an instruction has another address.
const NONE: RecentBranch = RecentBranch {
    pair: NumberPair {
        first: u64::MAX,
        second: u64::MAX,
    },
    count: 0,
    number: 0,
    change: CallChange::Stay,
};

/// The branches that were taken last, one for each hash.
#[derive(Drop)]
pub struct RecentBranches {
    branches: Vec<RecentBranch>,
}

impl RecentBranches {
    /// No branches.
    pub fn new(alloc: Global) -> Result<RecentBranches, AllocError> {
        Ok(RecentBranches {
            branches: vec![in alloc; NONE; COUNT]?,
        })
    }

    /// Counts a branch that is kept and leaves the calls, and says whether it is such a one.
    #[inline(always)]
    pub fn count_stay(&mut self, pair: NumberPair) -> bool {
        match self.branches.get_mut(place(pair)) {
            Some(branch) if branch.pair == pair && branch.change == CallChange::Stay => {
                branch.count = branch.count.wrapping_add(1);
                true
            }
            _ => false,
        }
    }

    /// Counts a branch that is kept, and gives it.
    pub fn count(&mut self, pair: NumberPair) -> Option<RecentBranch> {
        let branch = self.branches.get_mut(place(pair))?;
        if branch.pair != pair {
            return None;
        }
        branch.count = branch.count.wrapping_add(1);
        Some(*branch)
    }

    /// Keeps a branch, and gives the one that was in its place.
    pub fn replace(&mut self, branch: RecentBranch) -> RecentBranch {
        match self.branches.get_mut(place(branch.pair)) {
            Some(kept) => {
                let old = *kept;
                *kept = branch;
                old
            }
            None => branch,
        }
    }

    /// All that are kept.
    pub fn branches(&self) -> &[RecentBranch] {
        self.branches.as_slice()
    }

    /// Keeps none.
    pub fn clear(&mut self) {
        self.branches.as_mut_slice().fill(NONE);
    }
}

/// The place of a branch.
#[inline(always)]
fn place(pair: NumberPair) -> usize {
    let mixed = pair.first ^ pair.second.rotate_left(13);
    (mixed.wrapping_mul(0x9E37_79B9_7F4A_7C15) >> 52) as usize % COUNT
}
