//! The counts of a run while instructions are run.

use crate::run_profile::RunProfile;
use a64_run::Edges;

/// Counts the branches that are taken, where they are requested.
#[derive(Drop)]
pub struct BranchCounts<'a> {
    profile: Option<RunProfile<'a>>,
}

impl<'a> BranchCounts<'a> {
    /// Counts for a profile.
    pub fn new(profile: Option<RunProfile<'a>>) -> BranchCounts<'a> {
        BranchCounts { profile }
    }

    /// The profile.
    pub fn profile(self) -> Option<RunProfile<'a>> {
        self.profile
    }
}

impl<'a> Edges for BranchCounts<'a> {
    #[inline(always)]
    fn counts_taken(&self) -> bool {
        self.profile.is_some()
    }

    #[inline(always)]
    fn taken(&mut self, from: u64, word: u32, to: u64) {
        if let Some(profile) = &mut self.profile {
            profile.take(from, word, to);
        }
    }
}
