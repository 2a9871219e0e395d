//! The words of a stack that may lead to chunks.

use crate::checker::Checker;
use pointer_provenance::RootRange;
use std::alloc::AllocError;

impl<'a> Checker<'a> {
    /// Enters the parts of a range of the stack among the ranges whose words lead to chunks: all
    /// but the words of which no bit was given a value. Such a word is one of a function that has
    /// returned.
    pub fn enter_stack_words(
        &self,
        range: RootRange,
        roots: &mut Vec<RootRange>,
    ) -> Result<(), AllocError> {
        let mut start = range.start;
        for word in range.start.div_ceil(8)..range.end / 8 {
            let addr = word.wrapping_mul(8);
            if self.has_no_value(addr) {
                enter_range(roots, start, addr)?;
                start = addr.saturating_add(8);
            }
        }
        enter_range(roots, start, range.end)
    }

    /// Whether no bit of the word at a plain address was given a value.
    fn has_no_value(&self, addr: u64) -> bool {
        match &self.bits {
            Some(bits) => bits.has_no_value(addr),
            None => false,
        }
    }
}

/// Enters a range, unless it is empty.
fn enter_range(roots: &mut Vec<RootRange>, start: u64, end: u64) -> Result<(), AllocError> {
    if start < end {
        roots.push(RootRange { start, end })?;
    }
    Ok(())
}
