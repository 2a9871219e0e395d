//! The operations of a line number program (DWARF 5, 6.2.5).

ghost use Rattle.std.specs.Prelude.{◌≡◌, ◌%◌, ◌^◌, ◌<◌, ◌≤◌, length};
ghost use Rattle.std.specs.Iterator.{at_most};

use crate::encoding::Encoding;
use crate::reader::Reader;

/// The amounts added to the address, modulo 2^64, and to the line, modulo 2^32.
#[derive(Clone, Copy)]
pub struct Advance {
    pub address: u64,
    pub line: u32,
}

impl Advance {
    /// The advance that leaves both unchanged.
    const NOTHING: Advance = Advance {
        address: 0,
        line: 0,
    };

    fn of_address(address: u64) -> Advance {
        Advance { address, line: 0 }
    }

    /// An advance of the line by a number modulo 2^64.
    fn of_line(number: u64) -> Advance
        ensures { result ≡ record { address = 0; line = number % 2 ^ 32 } }
    {
        let line = (number % (1 << 32)) as u32;
        Advance { address: 0, line }
    }
}

/// The effect of an opcode on the address, the file and the line.
#[derive(Clone, Copy)]
pub enum Operation {
    /// Advances address and line, and makes a row.
    Special(Advance),
    /// Advances address and line.
    Advance(Advance),
    /// Gives the address a value.
    SetAddress(u64),
    /// Gives the file a value.
    SetFile(u64),
    /// Makes a row.
    Copy,
    /// Makes the row that ends a sequence, and starts the next one.
    EndSequence,
}

/// The operations of a program, in order. They end in front of one that does not end in the
/// program.
#[derive(Clone, Copy)]
pub struct Operations<'a> {
    pub encoding: Encoding<'a>,
    pub program: Reader<'a>,
}

impl<'a> Iterator for Operations<'a> {
    type Item = Operation;

    ghost remaining = { λ s. at_most (length s.program.rest.now) };

    fn next(&mut self) -> Option<Operation> {
        let opcode = self.program.byte()?;
        if self.encoding.is_special(opcode) {
            Some(Operation::Special(self.encoding.special(opcode)))
        } else if opcode == 0 {
            extended(&mut self.program)
        } else {
            self.standard(opcode)
        }
    }
}

impl<'a> Operations<'a> {
    /// The operation of a standard opcode (6.2.5.2), with the numbers that follow it.
    fn standard(&mut self, opcode: u8) -> Option<Operation>
        requires { 0 < opcode }
        ensures { length self.new.program.rest.now ≤ length self.old.program.rest.now }
    {
        let program = &mut self.program;
        match opcode {
            // DW_LNS_copy
            1 => Some(Operation::Copy),
            // DW_LNS_advance_pc
            2 => {
                let address = self.encoding.bytes_of(program.unsigned()?);
                Some(Operation::Advance(Advance::of_address(address)))
            }
            // DW_LNS_advance_line
            3 => Some(Operation::Advance(Advance::of_line(program.signed()?))),
            // DW_LNS_set_file
            4 => Some(Operation::SetFile(program.unsigned()?)),
            // DW_LNS_const_add_pc
            8 => {
                let address = self.encoding.constant();
                Some(Operation::Advance(Advance::of_address(address)))
            }
            // DW_LNS_fixed_advance_pc
            9 => {
                let address = u64::from(program.half()?);
                Some(Operation::Advance(Advance::of_address(address)))
            }
            _ => self.unused(opcode),
        }
    }

    /// Passes over the numbers of a standard opcode that changes neither address, file nor line, or
    /// that isn't known.
    fn unused(&mut self, opcode: u8) -> Option<Operation>
        requires { 0 < opcode }
        ensures { length self.new.program.rest.now ≤ length self.old.program.rest.now }
    {
        for _ in 0..self.encoding.length_of(opcode)? {
            self.program.unsigned()?;
        }
        Some(Operation::Advance(Advance::NOTHING))
    }
}

/// The operation of an extended opcode (6.2.5.3): its length, the opcode itself, and its operands.
/// An address of another length than eight bytes is not read, and ends the program.
fn extended(program: &mut Reader<'_>) -> Option<Operation>
    ensures { length program.new.rest.now ≤ length program.old.rest.now }
{
    let length = program.unsigned()?;
    let mut operands = program.part(length)?;
    match operands.byte()? {
        // DW_LNE_end_sequence
        1 => Some(Operation::EndSequence),
        // DW_LNE_set_address
        2 if length == 9 => Some(Operation::SetAddress(operands.double_word()?)),
        2 => None,
        _ => Some(Operation::Advance(Advance::NOTHING)),
    }
}
