//! The effect of a tag that differs on its access.

/// The outcome of a checked access whose address tag is not the allocation tag (Arm ARM DDI 0487,
/// SCTLR_EL1.TCF0).
#[derive(Clone, Copy, PartialEq, Eq, Debug)]
pub enum TagMode {
    /// It fails (TCF0 is 0b01).
    Sync,
    /// It completes, and sets a flag (TCF0 is 0b10).
    Async,
}

/// The mode of a memory, and its flag (Arm ARM DDI 0487, TFSRE0_EL1.TF0).
#[derive(Clone, Copy, PartialEq, Eq, Debug)]
pub struct TagState {
    pub mode: TagMode,
    /// Whether a tag differed. It stays set.
    pub pending: bool,
}
