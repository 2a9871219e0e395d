//! The terms of a tenant's admission.
#![tactic(auto)]

use mte_tags::TagMode;

/// On what terms a tenant is admitted, whatever its image and its input.
#[derive(Clone, Copy, Debug, PartialEq, Eq)]
pub struct Terms {
    /// Seeds its tag generator (RGSR_EL1.SEED is bits 15:0, RGSR_EL1.TAG bits 19:16) and its heap's
    /// cookie (bits 63:32).
    pub seed: u64,
    /// Its reservation; 1 to `MAX_PAGES` pages are accepted.
    pub pages: u32,
    /// How many bytes it may write; at most `MAX_OUTPUT` are accepted.
    pub room: u32,
    /// The mode of tag checks.
    pub mode: TagMode,
}
