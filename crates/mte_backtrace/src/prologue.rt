//! Whether a function has made its frame record yet.

ghost use Rattle.std.specs.Prelude.{◌≡◌};

use elf_symbols::{SymbolOffset, Symbols};
use mte_tags::Tagged;

/// How far after a function's start its frame record is looked for, in bytes.
const REACH: u64 = 256;

/// Whether x30 has the return address of the function that an instruction is in, and no frame
/// record has it yet: from the function's start up to the instruction there is no call, and none
/// that makes x29 the address of a record. `None` where the function's bounds are not known, or its
/// start is far.
pub fn has_own_link<M: Tagged>(memory: &mut M, symbols: &Symbols<'_>, pc: u64) -> Option<bool>
    ensures memory { M.memory memory.new ≡ M.memory memory.old }
    ensures kept { M.kept memory.old memory.new }
{
    let length = length_before(symbols, pc)?;
    let start = pc.wrapping_sub(length);
    for index in 0..length / 4 {
        if ends_prologue(memory, start.wrapping_add(index.wrapping_mul(4))) {
            return Some(false);
        }
    }
    Some(true)
}

/// How many bytes of a function are in front of an instruction, where its size is known and they
/// are few.
fn length_before(symbols: &Symbols<'_>, pc: u64) -> Option<u64> {
    let place = symbols.place(pc);
    place.shares_function(&place)?;
    let length = place.offset();
    if length > REACH { None } else { Some(length) }
}

/// Whether the instruction at an address is a call or makes a frame record, or cannot be fetched.
fn ends_prologue<M: Tagged>(memory: &mut M, addr: u64) -> bool
    ensures memory { M.memory memory.new ≡ M.memory memory.old }
    ensures kept { M.kept memory.old memory.new }
{
    match memory.fetch(addr) {
        Ok(word) => is_call(word) || makes_record(word),
        Err(_) => true,
    }
}

/// Whether a word is BL or BLR (Arm ARM DDI 0487, C6.2).
fn is_call(word: u32) -> bool {
    word >> 26 == 0x25 || word & 0xFFFF_FC1F == 0xD63F_0000
}

/// Whether a word gives x29 the value of SP and a constant: ADD (immediate).
fn makes_record(word: u32) -> bool {
    word & 0xFF80_03FF == 0x9100_03FD
}
