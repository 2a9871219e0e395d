//! Parts of a text.

use std::fmt;

/// A part of a text.
#[derive(Clone, Copy)]
pub enum Part<'a> {
    /// As it is.
    Text(&'a str),
    /// A decimal number.
    Number(u64),
    /// A hexadecimal number with `0x` before it.
    Hexadecimal(u64),
    /// A tag: a hexadecimal digit.
    Tag(u8),
}

impl<'a> fmt::Display for Part<'a> {
    fn fmt<W: fmt::Write>(&self, f: &mut fmt::Formatter<W>) -> fmt::Result {
        match *self {
            Part::Text(text) => f.write_str(text),
            Part::Number(number) => write!(f, "{number}"),
            Part::Hexadecimal(number) => write!(f, "{number:#x}"),
            Part::Tag(tag) => write!(f, "{:x}", tag % 16),
        }
    }
}

/// Writes the parts one after the other.
pub fn write_parts<W: fmt::Write>(f: &mut fmt::Formatter<W>, parts: &[Part]) -> fmt::Result {
    for part in parts {
        write!(f, "{part}")?;
    }
    Ok(())
}

/// A text of which XML reads each character as itself. One that XML does not have is a `?`.
#[derive(Clone, Copy)]
pub struct Escaped<'a>(pub &'a str);

impl<'a> fmt::Display for Escaped<'a> {
    fn fmt<W: fmt::Write>(&self, f: &mut fmt::Formatter<W>) -> fmt::Result {
        for character in self.0.chars() {
            match character {
                '&' => f.write_str("&amp;")?,
                '<' => f.write_str("&lt;")?,
                '>' => f.write_str("&gt;")?,
                '\0'..' ' | '\u{FFFE}' | '\u{FFFF}' => f.write_str("?")?,
                _ => write!(f, "{character}")?,
            }
        }
        Ok(())
    }
}
