//! Text that a terminal shows as it is.

use std::fmt;

/// A text of which each character but those of printable ASCII, 0x20 to 0x7E, is written as
/// `\u{HEX}`: no name of a file moves the cursor or changes a colour.
#[derive(Clone, Copy)]
pub struct Printable<'a>(pub &'a str);

impl<'a> fmt::Display for Printable<'a> {
    fn fmt<W: fmt::Write>(&self, f: &mut fmt::Formatter<W>) -> fmt::Result {
        for character in self.0.chars() {
            write_printable(f, character)?;
        }
        Ok(())
    }
}

/// Lines of which each character but those of printable ASCII is written in this way.
#[derive(Clone, Copy)]
pub struct PrintableLines<'a>(pub &'a str);

impl<'a> fmt::Display for PrintableLines<'a> {
    fn fmt<W: fmt::Write>(&self, f: &mut fmt::Formatter<W>) -> fmt::Result {
        for character in self.0.chars() {
            match character {
                '\n' => f.write_str("\n")?,
                _ => write_printable(f, character)?,
            }
        }
        Ok(())
    }
}

/// Writes a character, or its code.
fn write_printable<W: fmt::Write>(f: &mut fmt::Formatter<W>, character: char) -> fmt::Result {
    if is_printable(character) {
        write!(f, "{character}")
    } else {
        write!(f, "\\u{{{:x}}}", character as u32)
    }
}

/// Whether a character is one of printable ASCII.
pub(crate) fn is_printable(character: char) -> bool {
    matches!(character, ' '..='~')
}
