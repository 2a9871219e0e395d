//! The name of a variable, and where it is declared.

use std::{fmt, str};

/// The most bytes of a name that are kept.
const LONGEST: usize = 40;

/// The name of a variable: as many of its first bytes as are kept.
#[derive(Clone, Copy, PartialEq, Eq)]
pub struct VariableName {
    bytes: [u8; LONGEST],
    count: usize,
}

impl VariableName {
    /// No name.
    pub const NONE: VariableName = VariableName {
        bytes: [0; LONGEST],
        count: 0,
    };

    /// A name of printable characters of ASCII; none where it is another.
    pub fn of(name: &[u8]) -> VariableName {
        let mut kept = VariableName::NONE;
        if !name.iter().all(|byte| byte.is_ascii_graphic()) {
            return kept;
        }
        for (place, byte) in kept.bytes.iter_mut().zip(name) {
            *place = *byte;
        }
        kept.count = name.len().min(LONGEST);
        kept
    }

    /// The name as text; `?` where it has none.
    pub fn text(&self) -> &str {
        let bytes = self.bytes.get(..self.count).unwrap_or(&[]);
        match str::from_utf8(bytes) {
            Ok(text) if !text.is_empty() => text,
            _ => "?",
        }
    }
}

impl fmt::Display for VariableName {
    fn fmt<W: fmt::Write>(&self, f: &mut fmt::Formatter<W>) -> fmt::Result {
        f.write_str(self.text())
    }
}

/// Where a variable is declared.
#[derive(Clone, Copy, PartialEq, Eq)]
pub struct Declaration {
    /// The offset of its unit in `.debug_line`.
    pub unit: u64,
    /// The number of the file there.
    pub file: u64,
    /// The line.
    pub line: u32,
}
