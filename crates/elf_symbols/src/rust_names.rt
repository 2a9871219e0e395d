//! Names of Rust in their legacy form: nested names whose last part is `h` and 16 digits.

use crate::printer::LONGEST;
use arrayvec::ArrayString;
use cxx_tree::NameReader;

/// The most parts of a name.
const MOST_PARTS: u32 = 64;

/// The letters of a part's hash.
const HASH: usize = 17;

/// The text of a name in that form, without the hash.
pub fn write_legacy(name: &str) -> Option<ArrayString<LONGEST>> {
    let mut reader = NameReader::new(name);
    reader.expect("_ZN")?;
    let mut text = ArrayString::new();
    for place in 0..MOST_PARTS {
        let part = reader.source_name()?;
        if reader.eat("E") {
            return if is_hash(part) { Some(text) } else { None };
        }
        write_part(&mut text, place > 0, part)?;
    }
    None
}

/// Appends a text.
pub fn push(text: &mut ArrayString<LONGEST>, more: &str) -> Option<()> {
    text.try_push_str(more).ok()
}

/// Appends some texts.
pub fn push_all(text: &mut ArrayString<LONGEST>, some: &[&str]) -> Option<()> {
    for more in some {
        push(text, more)?;
    }
    Some(())
}

/// Whether a part is a hash.
fn is_hash(part: &str) -> bool {
    let mut digits = part.as_bytes().iter().skip(1);
    part.len() == HASH && part.starts_with("h") && digits.all(|digit| digit.is_ascii_hexdigit())
}

/// Writes a part with its escapes, after a scope or first.
fn write_part(text: &mut ArrayString<LONGEST>, is_scoped: bool, part: &str) -> Option<()> {
    if is_scoped {
        push(text, "::")?;
    }
    let part = match part.strip_prefix("_") {
        Some(rest) if rest.starts_with("$") => rest,
        _ => part,
    };
    let mut rest = part;
    for _ in 0..part.len() {
        if rest.is_empty() {
            break;
        }
        rest = write_next(text, rest)?;
    }
    Some(())
}

/// Writes a character, which may be an escape; what is after it.
fn write_next<'a>(text: &mut ArrayString<LONGEST>, part: &'a str) -> Option<&'a str> {
    if let Some(rest) = part.strip_prefix("..") {
        push(text, "::")?;
        return Some(rest);
    }
    if let Some(rest) = part.strip_prefix("$") {
        let (escape, rest) = rest.split_once('$')?;
        write_escape(text, escape)?;
        return Some(rest);
    }
    let mut characters = part.chars();
    let character = characters.next()?;
    text.try_push(character).ok()?;
    Some(characters.as_str())
}

/// Writes the character of an escape.
fn write_escape(text: &mut ArrayString<LONGEST>, escape: &str) -> Option<()> {
    let character = match escape {
        "SP" => '@',
        "BP" => '*',
        "RF" => '&',
        "LT" => '<',
        "GT" => '>',
        "LP" => '(',
        "RP" => ')',
        "C" => ',',
        _ => {
            let code = u32::from_str_radix(escape.strip_prefix("u")?, 16).ok()?;
            let character = char::from_u32(code)?;
            if !matches!(character, ' '..='~') {
                return None;
            }
            character
        }
    };
    text.try_push(character).ok()
}
