//! The sections of a file (System V ABI, Object Files: `Elf64_Ehdr`, `Elf64_Shdr`).

use crate::fields::{double_word, half, word};

/// The bytes of a section header.
const HEADER: usize = 64;

/// SHF_COMPRESSED.
const COMPRESSED: u64 = 0x800;

/// SHF_EXECINSTR.
const CODE: u64 = 0x4;

/// The section headers of an ELF64 file with the lowest byte first. A file whose table of them does
/// not begin in it, or with headers of another size, has none; of a table that ends past the file
/// it has those that are in the file.
#[derive(Clone, Copy)]
pub struct Sections<'a> {
    file: &'a [u8],
    headers: &'a [[u8; HEADER]],
}

impl<'a> Sections<'a> {
    /// The sections of a file.
    pub fn of(file: &'a [u8]) -> Sections<'a> {
        Sections {
            file,
            headers: headers_in(file).unwrap_or(&[]),
        }
    }

    /// The section of a number.
    pub fn at(&self, index: u32) -> Option<Section<'a>> {
        let header = self.headers.get(index as usize)?;
        Some(self.section(header))
    }

    /// The first section of a type (`sh_type`).
    pub fn of_type(&self, kind: u32) -> Option<Section<'a>> {
        let header = self
            .headers
            .iter()
            .find(|header| word(header.as_slice(), 4) == Some(kind))?;
        Some(self.section(header))
    }

    /// The first section of a name, which is given with the 0 that ends it. None has a name where
    /// the file header names no section with the names (`e_shstrndx`).
    pub fn named(&self, name: &[u8]) -> Option<Section<'a>> {
        let names = self.at(u32::from(half(self.file, 62)?))?.contents()?;
        let header = self
            .headers
            .iter()
            .find(|header| is_named(names, header.as_slice(), name))?;
        Some(self.section(header))
    }

    fn section(&self, header: &'a [u8; HEADER]) -> Section<'a> {
        Section {
            file: self.file,
            header: header.as_slice(),
        }
    }
}

/// The section headers that a file header has.
fn headers_in(file: &[u8]) -> Option<&[[u8; HEADER]]> {
    let at = double_word(file, 40)?;
    let (headers, _) = file.get(at as usize..)?.as_chunks::<HEADER>();
    if half(file, 58)? != HEADER as u16 {
        return None;
    }
    let count = usize::from(half(file, 60)?);
    Some(headers.get(..count).unwrap_or(headers))
}

/// Whether a section's name in the section of names is this one.
fn is_named(names: &[u8], header: &[u8], name: &[u8]) -> bool {
    match word(header, 0) {
        Some(at) => names
            .get(at as usize..)
            .is_some_and(|rest| rest.starts_with(name)),
        None => false,
    }
}

/// A section of a file.
#[derive(Clone, Copy)]
pub struct Section<'a> {
    file: &'a [u8],
    header: &'a [u8],
}

impl<'a> Section<'a> {
    /// Its bytes, where they are in the file and are not compressed (`SHF_COMPRESSED`).
    pub fn contents(&self) -> Option<&'a [u8]> {
        if double_word(self.header, 8)? & COMPRESSED != 0 {
            return None;
        }
        let (offset, size) = (double_word(self.header, 24)?, double_word(self.header, 32)?);
        self.file.get(offset as usize..)?.get(..size as usize)
    }

    /// Where its instructions begin, and how many bytes they have, where it has any
    /// (`SHF_EXECINSTR`).
    pub fn code(&self) -> Option<(u64, u64)> {
        if double_word(self.header, 8)? & CODE == 0 {
            return None;
        }
        Some((double_word(self.header, 16)?, self.contents()?.len() as u64))
    }

    /// The section that it is linked to (`sh_link`), as the names of a symbol table.
    pub fn link(&self) -> Option<u32> {
        word(self.header, 40)
    }
}
