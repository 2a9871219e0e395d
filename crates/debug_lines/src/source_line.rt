//! A source line.

ghost use Rattle.std.specs.Prelude.{◌≡◌, ◌-◌, ◌≤◌, ◌==◌, not, length, false, IfSome};
ghost use Rattle.std.specs.List.{after_last, suffix_len};
ghost use Rattle.debug_lines.specs.Texts.{has_control};

use common::Printable;
use std::{fmt, str};

/// The separator between the parts of a path.
const SLASH: u8 = b'/';

/// The most bytes of a path.
pub const LONGEST: usize = 4096;

/// A line of a source file.
#[derive(Clone, Copy)]
pub struct SourceLine<'a> {
    /// The last part of the path of the file: what is after the last `/`.
    pub file: &'a str,
    /// The whole path, as the table has it.
    pub path: &'a str,
    /// The directory that the path goes out from, if it is no absolute path and the table has one.
    /// It may itself go out from the directory of the compilation.
    pub directory: Option<&'a str>,
    /// The line, from 1 on.
    pub line: u32,
}

/// `FILE:LINE`, in characters that a terminal shows.
impl<'a> fmt::Display for SourceLine<'a> {
    fn fmt<W: fmt::Write>(&self, f: &mut fmt::Formatter<W>) -> fmt::Result {
        let (file, line) = (Printable(self.file), self.line);
        write!(f, "{file}:{line}")
    }
}

/// The last part of a path.
pub fn last_part(path: &[u8]) -> &[u8]
    ensures { result.now ≡ after_last (λ b. b == SLASH) path.now }
{
    &path[last_part_start(path)..]
}

/// Where the last part of a path begins.
fn last_part_start(path: &[u8]) -> usize
    ensures within { result ≤ length path.now }
    ensures value { result ≡ length path.now - suffix_len (λ b. not (b == SLASH)) path.now }
{
    let mut start = 0;
    for (i, byte) in path.iter().enumerate() {
        if *byte == SLASH {
            start = i + 1;
        }
    }
    start
}

/// A path that may be printed: 1 to 4096 bytes of UTF-8 without control characters.
pub fn text_of(path: &[u8]) -> Option<&str>
    ensures same { IfSome result (λ text. text.now ≡ path.now) }
    ensures told { IfSome result (λ text. has_control text.now ≡ false) }
{
    if path.is_empty() || path.len() > LONGEST {
        return None;
    }
    let text = str::from_utf8(path).ok()?;
    if has_control(text) {
        return None;
    }
    Some(text)
}

/// Whether a text has a control character.
fn has_control(text: &str) -> bool
    ensures { result ≡ has_control text.now }
{
    text.chars().any(|c| c.is_control())
}
