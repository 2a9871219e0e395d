//! A name as its source has it.

use crate::printer::{LONGEST, Printer};
use crate::rust_names::{push_all, write_legacy};
use arrayvec::ArrayString;
use cxx_tree::{NameReader, Parser};

/// The source's name for a linker's name, at most 4,096 bytes of ASCII: as c++filt writes it, with
/// the parameters of functions. `None` of a name in another form, and of one that is too deep or
/// too long.
pub(crate) fn plain_name(name: &str) -> Option<ArrayString<LONGEST>> {
    let mut reader = NameReader::new(name);
    reader.expect("_Z")?;
    match write_legacy(name) {
        Some(text) => Some(text),
        None => cxx_text(reader),
    }
}

/// The text of a name of C++ after its `_Z`.
fn cxx_text(reader: NameReader<'_>) -> Option<ArrayString<LONGEST>> {
    let mut parser = Parser::new(reader);
    let encoding = parser.read()?;
    let mut reader = parser.reader;
    let text = Printer::new(parser.nodes()).text_of(encoding)?;
    with_suffixes(&mut reader, text)
}

/// A text with what is said of a compiler's copies of a function, as `.part.0`.
fn with_suffixes(
    reader: &mut NameReader<'_>,
    text: ArrayString<LONGEST>,
) -> Option<ArrayString<LONGEST>> {
    let mut text = text;
    for _ in 0..MOST_SUFFIXES {
        if reader.peek() == 0 {
            return Some(text);
        }
        let suffix = reader.clone_suffix()?;
        push_all(&mut text, &[" [clone ", suffix, "]"])?;
    }
    None
}

/// The most suffixes, and one.
const MOST_SUFFIXES: u32 = 17;
