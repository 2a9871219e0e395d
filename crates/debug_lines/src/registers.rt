//! The machine that a line number program runs on (DWARF 5, 6.2.2).

ghost use Rattle.std.specs.Prelude.{◌≡◌};
ghost use Rattle.debug_lines.specs.Programs.{after_advance, row_of, row_after, registers_after};

use crate::operation::{Advance, Operation};
use crate::row::LineRow;

/// Its registers, as far as an address's line needs them.
#[derive(Clone, Copy)]
pub struct LineRegisters {
    pub address: u64,
    pub file: u64,
    pub line: u32,
    pub is_placed: bool,
}

impl LineRegisters {
    /// The registers at the start of a sequence.
    pub const START: LineRegisters = LineRegisters {
        address: 0,
        file: 1,
        line: 1,
        is_placed: false,
    };

    /// Does an operation, and gives the row that it makes, if any.
    pub fn run(&mut self, operation: Operation) -> Option<LineRow>
        ensures row { result ≡ row_after operation self.old }
        ensures registers { self.new ≡ registers_after operation self.old }
    {
        match operation {
            Operation::Special(advance) => {
                self.advance(advance);
                Some(self.row(false))
            }
            Operation::Copy => Some(self.row(false)),
            Operation::EndSequence => {
                let row = self.row(true);
                *self = LineRegisters::START;
                Some(row)
            }
            Operation::Advance(advance) => {
                self.advance(advance);
                None
            }
            Operation::SetAddress(address) => {
                self.address = address;
                self.is_placed = address != 0 && address != u64::MAX;
                None
            }
            Operation::SetFile(file) => {
                self.file = file;
                None
            }
        }
    }

    /// Adds to the address and the line, modulo 2^64 and 2^32.
    fn advance(&mut self, by: Advance)
        ensures { self.new ≡ after_advance self.old by }
    {
        self.address = self.address.wrapping_add(by.address);
        self.line = self.line.wrapping_add(by.line);
    }

    /// The row of the registers' values.
    fn row(&self, ends_sequence: bool) -> LineRow
        ensures { result ≡ row_of self.now ends_sequence }
    {
        LineRow {
            address: self.address,
            file: self.file,
            line: self.line,
            ends_sequence,
            is_placed: self.is_placed,
        }
    }
}
