//! The units of `.debug_line` (DWARF 5, 6.2.4).

ghost use Rattle.std.specs.Prelude.{◌≤◌, length, IsTrue, IfSome};
ghost use Rattle.std.specs.Bool.{OnTrue};
ghost use Rattle.std.specs.Iterator.{at_most};

use crate::encoding::Encoding;
use crate::operation::Operations;
use crate::reader::Reader;
use crate::registers::LineRegisters;
use crate::row::LineRow;

/// The length that says that a unit is of the 64-bit format (7.4).
const WIDE: u32 = 0xFFFF_FFFF;

/// The bytes of each unit after its length, in order. They end in front of a unit that does not
/// end in the section. A unit of the 64-bit format is passed over: its bytes are given as none.
#[derive(Clone, Copy)]
pub struct Units<'a> {
    pub section: Reader<'a>,
}

impl<'a> Iterator for Units<'a> {
    type Item = Reader<'a>;

    ghost remaining = { λ s. at_most (length s.section.rest.now) };

    fn next(&mut self) -> Option<Reader<'a>> {
        let length = self.section.word()?;
        if length == WIDE {
            let length = self.section.double_word()?;
            self.section.bytes(length)?;
            return Some(Reader { rest: &[] });
        }
        self.section.part(u64::from(length))
    }
}

/// A unit's line number program, and its tables of directories and files.
#[derive(Clone, Copy)]
pub struct LineProgram<'a> {
    /// 2 to 5.
    pub version: u16,
    /// The tables, from their first byte on.
    pub tables: Reader<'a>,
    encoding: Encoding<'a>,
    program: Reader<'a>,
}

impl<'a> LineProgram<'a> {
    /// The unit of some bytes, where it is of version 2 to 5 and its header is in them.
    pub fn of(mut bytes: Reader<'a>) -> Option<LineProgram<'a>> {
        let version = bytes.half()?;
        if version < 2 || version > 5 {
            return None;
        }
        if version == 5 {
            // address_size, segment_selector_size
            bytes.half()?;
        }
        let length = bytes.word()?;
        let mut header = bytes.part(u64::from(length))?;
        let encoding = Encoding::read(&mut header, version)?;
        Some(LineProgram {
            version,
            tables: header,
            encoding,
            program: bytes,
        })
    }

    /// The first row that covers an address: the next row of its sequence is after the address.
    pub fn row_at(&self, address: u64) -> Option<LineRow>
        ensures placed { IfSome result (λ row. IsTrue row.is_placed) }
        ensures below { IfSome result (λ row. row.address ≤ address) }
    {
        let mut registers = LineRegisters::START;
        let mut last: Option<LineRow> = None;
        for operation in self.operations() {
            if let Some(row) = registers.run(operation) {
                if is_between(&last, &row, address) {
                    return last;
                }
                last = if row.ends_sequence { None } else { Some(row) };
            }
        }
        None
    }

    /// The operations of its program.
    pub fn operations(&self) -> Operations<'a> {
        Operations {
            encoding: self.encoding,
            program: self.program,
        }
    }
}

/// Whether a row, if there is one, covers an address.
fn is_between(row: &Option<LineRow>, next: &LineRow, address: u64) -> bool
    ensures row { OnTrue result
        (IfSome row.now (λ row. IsTrue row.is_placed × (row.address ≤ address))) }
{
    match row {
        Some(row) => row.covers(next, address),
        None => false,
    }
}
