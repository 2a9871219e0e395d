//! A symbol's name as it is shown.

use crate::plain::plain_name;
use crate::printer::LONGEST;
use arrayvec::ArrayString;
use std::fmt;

/// A symbol's name, written as its source has it where that is known (C++, Rust in its legacy
/// form), and as the linker has it where not.
#[derive(Clone, Copy)]
pub struct SymbolName<'a> {
    linked: &'a str,
}

impl<'a> SymbolName<'a> {
    /// The symbol with a linker's name.
    pub fn of(linked: &'a str) -> SymbolName<'a> {
        SymbolName { linked }
    }

    /// The name as it is shown.
    pub fn shown(&self) -> ShownName<'a> {
        ShownName {
            linked: self.linked,
            plain: plain_name(self.linked),
        }
    }
}

impl<'a> fmt::Display for SymbolName<'a> {
    fn fmt<W: fmt::Write>(&self, f: &mut fmt::Formatter<W>) -> fmt::Result {
        let shown = self.shown();
        f.write_str(shown.as_str())
    }
}

/// A name as it is shown.
#[derive(Drop)]
pub struct ShownName<'a> {
    linked: &'a str,
    plain: Option<ArrayString<LONGEST>>,
}

impl<'a> ShownName<'a> {
    /// Its text.
    pub fn as_str(&self) -> &str {
        match &self.plain {
            Some(plain) => plain.as_str(),
            None => self.linked,
        }
    }
}
