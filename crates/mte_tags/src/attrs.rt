//! The attributes of a page.

ghost use Rattle.std.specs.Prelude.{◌≡◌};
ghost use Rattle.std.specs.Int.RustNames.{bit_or};
ghost use Rattle.mte_tags.specs.Memory.{has};

use std::ops::BitOr;

/// The attributes of a page of 4096 bytes, as the sum of its bits.
#[derive(Clone, Copy, PartialEq, Eq, Debug)]
pub struct Attrs(pub u8);

impl Attrs {
    /// Its bytes may be read.
    pub const READ: Attrs = Attrs(1);
    /// Its bytes and tags may be written.
    pub const WRITE: Attrs = Attrs(2);
    /// Its words may be executed.
    pub const EXEC: Attrs = Attrs(4);
    /// Its granules have allocation tags, which checked accesses compare.
    pub const TAGGED: Attrs = Attrs(8);

    /// No access at all.
    pub const NONE: Attrs = Attrs(0);
    /// Code that may be read: READ and EXEC.
    pub const TEXT: Attrs = Attrs(5);
    /// Data: READ, WRITE and TAGGED.
    pub const DATA: Attrs = Attrs(11);
    /// Data that may be executed: all four.
    pub const ALL: Attrs = Attrs(15);

    /// Whether it has all of others.
    #[inline]
    pub fn contains(&self, others: Attrs) -> bool
        ensures { result ≡ has self.now.0 others.0 }
    {
        self.0 & others.0 == others.0
    }
}

/// The attributes of both.
impl BitOr for Attrs {
    type Output = Attrs;

    ghost bitor_gives = { λ a b both. both.0 ≡ bit_or a.0 b.0 };

    fn bitor(self, other: Attrs) -> Attrs {
        Attrs(self.0 | other.0)
    }
}
