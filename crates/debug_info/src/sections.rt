//! The sections with what compilers write of an image's functions and variables.

use debug_lines::Reader;
use elf_sections::Sections;

/// The sections of a file. One that is not there, is not in the file or is compressed is
/// empty.
#[derive(Clone, Copy)]
pub struct DebugSections<'a> {
    /// `.debug_info`: the units and their entries.
    pub info: &'a [u8],
    /// `.debug_abbrev`: what the entries have.
    pub abbreviations: &'a [u8],
    /// `.debug_str`.
    texts: &'a [u8],
    /// `.debug_line_str`.
    line_texts: &'a [u8],
    /// `.debug_str_offsets`: where texts begin, by their numbers.
    text_offsets: &'a [u8],
    /// `.debug_addr`: addresses by their numbers.
    addresses: &'a [u8],
    /// `.debug_ranges`: lists of ranges, up to version 4.
    pub ranges: &'a [u8],
    /// `.debug_rnglists`: lists of ranges, from version 5 on.
    pub range_lists: &'a [u8],
}

impl<'a> DebugSections<'a> {
    /// The sections of a file.
    pub fn of(file: &'a [u8]) -> DebugSections<'a> {
        let sections = Sections::of(file);
        DebugSections {
            info: contents(&sections, b".debug_info\0"),
            abbreviations: contents(&sections, b".debug_abbrev\0"),
            texts: contents(&sections, b".debug_str\0"),
            line_texts: contents(&sections, b".debug_line_str\0"),
            text_offsets: contents(&sections, b".debug_str_offsets\0"),
            addresses: contents(&sections, b".debug_addr\0"),
            ranges: contents(&sections, b".debug_ranges\0"),
            range_lists: contents(&sections, b".debug_rnglists\0"),
        }
    }

    /// The text that begins at a place of `.debug_str`: fewer than `most` bytes, and a 0.
    pub fn text(&self, at: u64, most: usize) -> Option<&'a [u8]> {
        text_in(self.texts, at, most)
    }

    /// The text that begins at a place of `.debug_line_str`: fewer than `most` bytes, and a 0.
    pub fn line_text(&self, at: u64, most: usize) -> Option<&'a [u8]> {
        text_in(self.line_texts, at, most)
    }

    /// The text of a number, by a table that begins at a place.
    pub fn numbered_text(&self, base: u64, number: u64, most: usize) -> Option<&'a [u8]> {
        let at = element_at(base, number, 4)?;
        let offset = reader_at(self.text_offsets, at)?.word()?;
        self.text(u64::from(offset), most)
    }

    /// The address of a number, by a table that begins at a place (DWARF 5, 7.27).
    pub fn numbered_address(&self, base: u64, number: u64) -> Option<u64> {
        let at = element_at(base, number, 8)?;
        reader_at(self.addresses, at)?.double_word()
    }
}

/// The bytes of a section.
fn contents<'a>(sections: &Sections<'a>, name: &[u8]) -> &'a [u8] {
    match sections.named(name) {
        Some(section) => section.contents().unwrap_or(&[]),
        None => &[],
    }
}

/// The text that begins at a place of a section: fewer than `most` bytes, and a 0.
fn text_in(section: &[u8], at: u64, most: usize) -> Option<&[u8]> {
    let rest = section.get(at as usize..)?;
    let end = rest.iter().take(most).position(|byte| *byte == 0)?;
    rest.get(..end)
}

/// Where an element of a table is, by its number and its size.
pub fn element_at(base: u64, number: u64, size: u64) -> Option<u64> {
    base.checked_add(number.checked_mul(size)?)
}

/// The bytes of a section from an offset on.
pub fn reader_at(section: &[u8], offset: u64) -> Option<Reader<'_>> {
    Some(Reader {
        rest: section.get(offset as usize..)?,
    })
}
