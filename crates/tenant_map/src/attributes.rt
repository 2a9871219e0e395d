//! The attributes of a page as letters.

use mte_tags::Attrs;
use std::fmt;

/// The attributes of a page, a letter each.
#[derive(Clone, Copy)]
pub struct Letters(pub Attrs);

impl fmt::Display for Letters {
    fn fmt<W: fmt::Write>(&self, f: &mut fmt::Formatter<W>) -> fmt::Result {
        let (r, w) = (self.letter(1, "r"), self.letter(2, "w"));
        let (x, t) = (self.letter(4, "x"), self.letter(8, "t"));
        write!(f, "{r}{w}{x}{t}")
    }
}

impl Letters {
    /// The letter of a bit, or a dash.
    fn letter(&self, bit: u8, letter: &'static str) -> &'static str {
        if self.0.0 & bit != 0 { letter } else { "-" }
    }
}
