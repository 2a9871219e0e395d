//! The parts of a heap, which its private calls share.

use crate::stacks::Stacks;
use scudo_secondary::Secondary;

/// The parts of a heap.
#[derive(Drop)]
pub(crate) struct HeapParts {
    /// The number from which the checksums of the headers start.
    pub(crate) cookie: u32,
    /// The free blocks of the size classes.
    pub(crate) stacks: Stacks,
    /// The mappings of larger chunks.
    pub(crate) maps: Secondary,
}
