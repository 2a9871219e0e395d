//! A word of a shell's command.

use crate::printable::is_printable;
use std::fmt;

/// A text as one word of a shell (POSIX.1-2017, Shell Command Language, 2.2 "Quoting"): as it is
/// where no character has a meaning, between `'` otherwise. One with characters that no terminal
/// shows is between `$'` and `'` (POSIX.1-2024, 2.2.4), with each of their bytes as `\xHH`.
#[derive(Clone, Copy)]
pub struct ShellWord<'a>(pub &'a str);

impl<'a> fmt::Display for ShellWord<'a> {
    fn fmt<W: fmt::Write>(&self, f: &mut fmt::Formatter<W>) -> fmt::Result {
        let text = self.0;
        if !text.chars().all(is_printable) {
            return write_escaped(f, text);
        }
        if !text.is_empty() && text.chars().all(is_plain) {
            return f.write_str(text);
        }
        f.write_str("'")?;
        for character in text.chars() {
            write_quoted(f, character)?;
        }
        f.write_str("'")
    }
}

/// Whether a character has no meaning for a shell, wherever it is in a word.
fn is_plain(character: char) -> bool {
    matches!(
        character,
        'a'..='z' | 'A'..='Z' | '0'..='9' | '_' | '-' | '.' | '/' | ',' | ':' | '+' | '@' | '%'
    )
}

/// Writes a character between `'`. A `'` ends the quotation, is escaped and begins it again.
fn write_quoted<W: fmt::Write>(f: &mut fmt::Formatter<W>, character: char) -> fmt::Result {
    match character {
        '\'' => f.write_str("'\\''"),
        _ => write!(f, "{character}"),
    }
}

/// Writes a text between `$'` and `'`.
fn write_escaped<W: fmt::Write>(f: &mut fmt::Formatter<W>, text: &str) -> fmt::Result {
    f.write_str("$'")?;
    for byte in text.as_bytes() {
        write_byte(f, *byte)?;
    }
    f.write_str("'")
}

/// Writes a byte between `$'` and `'`.
fn write_byte<W: fmt::Write>(f: &mut fmt::Formatter<W>, byte: u8) -> fmt::Result {
    match byte {
        b'\'' | b'\\' => write!(f, "\\{}", byte as char),
        b' '..=b'~' => write!(f, "{}", byte as char),
        _ => write!(f, "\\x{byte:02x}"),
    }
}
