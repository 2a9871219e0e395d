//! The blocks of functions: where their variables are.

use debug_info::{AddressRange, Budget, Ranges};
use std::alloc::{AllocError, Global};

/// The most ranges of blocks that are kept.
const MOST: usize = 262_144;

/// A block of a function, an inlined call, or a function as a whole: some ranges of addresses. It
/// is less than those in it.
#[derive(Clone, Copy, PartialEq, Eq, PartialOrd, Ord)]
pub struct LexicalBlock {
    /// The number of its first range, and how many there are.
    first: usize,
    count: usize,
}

/// The ranges of all blocks.
#[derive(Drop)]
pub struct BlockTable {
    ranges: Vec<AddressRange>,
}

impl BlockTable {
    /// That of no block.
    pub fn new(alloc: Global) -> BlockTable {
        BlockTable {
            ranges: Vec::new(alloc),
        }
    }

    /// Enters a block by its ranges: none where it has none, or there is no room for all of them.
    pub fn enter(
        &mut self,
        mut ranges: Ranges<'_>,
        budget: &mut Budget,
    ) -> Result<Option<LexicalBlock>, AllocError> {
        let first = self.ranges.len();
        for _ in first..MOST {
            match ranges.step() {
                Some(range) if budget.spend(1).is_some() => self.ranges.push(range)?,
                _ => {
                    let count = self.ranges.len().saturating_sub(first);
                    return Ok(Some(LexicalBlock { first, count }).filter(|block| block.count > 0));
                }
            }
        }
        Ok(None)
    }

    /// Whether an address is one of a block.
    pub fn has(&self, block: &LexicalBlock, address: u64) -> bool {
        let end = block.first.saturating_add(block.count);
        let ranges = self.ranges.get(block.first..end).unwrap_or(&[]);
        ranges.iter().any(|range| range.has(address))
    }
}
