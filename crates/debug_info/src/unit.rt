//! The units of `.debug_info` (DWARF 5, 7.5.1; DWARF 4, 7.5.1.1).

use crate::sections::reader_at;
use debug_lines::Reader;

/// The bytes of a unit's length. The length that says that a unit is of the 64-bit format is that
/// of no unit of a file, and such a unit ends the units.
const LENGTH: u64 = 4;

/// DW_UT_compile.
const COMPILE: u8 = 1;

/// DW_UT_partial.
const PARTIAL: u8 = 3;

/// The bytes of an address.
const ADDRESS: u8 = 8;

/// A unit, of any version.
#[derive(Clone, Copy)]
pub struct UnitBytes<'a> {
    /// Where its length is in `.debug_info`.
    pub offset: u64,
    /// The offset of what is after it.
    pub end: u64,
    /// The bytes after its length.
    bytes: Reader<'a>,
}

impl<'a> UnitBytes<'a> {
    /// The unit at an offset of `.debug_info`, where it ends in the section.
    pub fn at(info: &'a [u8], offset: u64) -> Option<UnitBytes<'a>> {
        let mut section = reader_at(info, offset)?;
        let length = u64::from(section.word()?);
        let bytes = section.part(length)?;
        Some(UnitBytes {
            offset,
            end: offset.checked_add(LENGTH)?.checked_add(length)?,
            bytes,
        })
    }

    /// The unit, where it is one of a compilation, of version 4 or 5 and for addresses of 8 bytes.
    pub fn unit(&self) -> Option<CompilationUnit<'a>> {
        let mut header = self.bytes;
        let version = header.half()?;
        let (abbreviations, address) = match version {
            4 => (header.word()?, header.byte()?),
            5 => {
                let kind = header.byte()?;
                if kind != COMPILE && kind != PARTIAL {
                    return None;
                }
                let address = header.byte()?;
                (header.word()?, address)
            }
            _ => return None,
        };
        if address != ADDRESS {
            return None;
        }
        Some(CompilationUnit {
            offset: self.offset,
            version,
            abbreviations: u64::from(abbreviations),
            entries: header,
            bytes: self.bytes,
        })
    }
}

/// A unit of a compilation.
#[derive(Clone, Copy)]
pub struct CompilationUnit<'a> {
    /// Where its length is in `.debug_info`.
    pub offset: u64,
    /// 4 or 5.
    pub version: u16,
    /// The offset of its abbreviations in `.debug_abbrev`.
    pub abbreviations: u64,
    /// Its entries, from the first byte on.
    pub entries: Reader<'a>,
    /// The bytes after its length.
    bytes: Reader<'a>,
}

impl<'a> CompilationUnit<'a> {
    /// The bytes from an entry on, which is given by its offset from where the unit's length is.
    pub fn entries_at(&self, offset: u64) -> Option<Reader<'a>> {
        reader_at(self.bytes.rest, offset.checked_sub(LENGTH)?)
    }
}
