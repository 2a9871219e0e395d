//! How the opcodes of a line number program are encoded (DWARF 5, 6.2.4 and 6.2.5).

ghost use Rattle.std.specs.Prelude.{◌≡◌, ◌-◌, ◌*◌, ◌%◌, ◌^◌, ◌<◌, ◌≤◌, ◌↔◌, IsTrue, slice_get};
ghost use Rattle.debug_lines.specs.SignedBytes.{signed_byte};

use crate::operation::Advance;
use crate::reader::Reader;

/// The part of a unit's header about its opcodes. A program that packs several operations into an
/// instruction (VLIW) is read as if it had one in each.
#[derive(Clone, Copy)]
pub struct Encoding<'a> {
    /// The bytes of the smallest instruction, by which each advance of the address is multiplied.
    pub instruction: u8,
    /// The least advance of the line by a special opcode, modulo 2^32.
    pub line_base: u32,
    /// How many advances of the line the special opcodes have, of which there is one at least.
    pub line_range: u8,
    /// The first special opcode, which is 1 at least.
    pub opcode_base: u8,
    /// How many numbers follow each standard opcode, from 1 on.
    pub lengths: &'a [u8],
    ghost advances: { 0 < line_range },
    ghost specials: { 0 < opcode_base },
}

impl<'a> Encoding<'a> {
    ghost use Rattle.debug_lines.specs.Encodings.{special_advance};

    /// The encoding in a header of a version, from `minimum_instruction_length` on. There is none
    /// where the line range or the first special opcode is 0.
    pub fn read(header: &mut Reader<'a>, version: u16) -> Option<Encoding<'a>> {
        let instruction = header.byte()?;
        if version >= 4 {
            // maximum_operations_per_instruction
            header.byte()?;
        }
        // default_is_stmt
        header.byte()?;
        let line_base = sign_extended(header.byte()?);
        let line_range = header.byte()?;
        let opcode_base = header.byte()?;
        let lengths = header.bytes(u64::from(opcode_base.checked_sub(1)?))?;
        if line_range == 0 {
            return None;
        }
        Some(Encoding {
            instruction,
            line_base,
            line_range,
            opcode_base,
            lengths,
        })
    }

    /// Whether an opcode is special.
    pub fn is_special(&self, opcode: u8) -> bool
        ensures { IsTrue result ↔ (self.now.opcode_base ≤ opcode) }
    {
        opcode >= self.opcode_base
    }

    /// The advance of the address and the line by a special opcode (6.2.5.1).
    pub fn special(&self, opcode: u8) -> Advance
        requires { self.now.opcode_base ≤ opcode }
        ensures { result ≡ special_advance self.now opcode }
    {
        let adjusted = opcode - self.opcode_base;
        let line = u32::from(adjusted % self.line_range);
        Advance {
            address: self.bytes_of(u64::from(adjusted / self.line_range)),
            line: self.line_base.wrapping_add(line),
        }
    }

    /// The advance of the address by `DW_LNS_const_add_pc`: as much as special opcode 255.
    pub fn constant(&self) -> u64
        ensures { result ≡ (special_advance self.now 255).address }
    {
        let adjusted = 255 - self.opcode_base;
        self.bytes_of(u64::from(adjusted / self.line_range))
    }

    /// The bytes of some instructions, modulo 2^64.
    pub fn bytes_of(&self, instructions: u64) -> u64
        ensures { result ≡ (instructions * self.now.instruction) % 2 ^ 64 }
    {
        instructions.wrapping_mul(u64::from(self.instruction))
    }

    /// How many numbers follow a standard opcode.
    pub fn length_of(&self, opcode: u8) -> Option<u8>
        requires { 0 < opcode }
        ensures { result ≡ slice_get self.now.lengths.now (opcode - 1) }
    {
        self.lengths.get(usize::from(opcode - 1)).copied()
    }
}

/// A signed byte, modulo 2^32.
fn sign_extended(byte: u8) -> u32
    ensures { result ≡ signed_byte byte }
{
    let low = u32::from(byte);
    if byte < 128 {
        low
    } else {
        low.wrapping_sub(256)
    }
}
