//! The price of reading, which has a bound for any sections.

/// How much may be spent on a search of an image: one for each abbreviation, entry, attribute and
/// range that is read, and as much for what takes as long.
const WHOLE: u64 = 16_000_000;

/// The rest that may be spent.
#[derive(Clone, Copy)]
pub struct Budget {
    left: u64,
}

impl Budget {
    /// All of it.
    pub const FULL: Budget = Budget { left: WHOLE };

    /// How much is left.
    pub fn left(&self) -> u64 {
        self.left
    }

    /// Spends some of it. Where less is left, nothing is left.
    pub fn spend(&mut self, count: u64) -> Option<()> {
        let left = self.left.checked_sub(count);
        self.left = left.unwrap_or(0);
        left?;
        Some(())
    }
}
