//! The export that gives the text of an instruction.

ghost use Rattle.std.specs.Prelude.{◌≡◌, ◌≢◌, ◌⊎◌, None};
ghost use Rattle.a64_decode.specs.Decoded.{instr_of_word};
ghost use Rattle.a64_text.specs.Texts.{HasText};
ghost use Rattle.tombolopan_c.specs.declared.codes.TheConstants.{OK, NO_ROOM, ILLEGAL};

use crate::codes::{ILLEGAL, NO_ROOM, OK};
use a64_text::{TextError, write_text};

/// Writes the text of an instruction word at an address, and a zero byte after it. ILLEGAL where
/// the word is no instruction, and NO_ROOM where the buffer is too short, leave it as it was.
#[unsafe(no_mangle)]
pub extern "C" fn tb_disassemble(word: u32, pc: u64, text: &mut [u8]) -> u32
    ensures codes { (result ≡ OK) ⊎ (result ≡ NO_ROOM) ⊎ (result ≡ ILLEGAL) }
    ensures none { instr_of_word word ≡ None → result ≡ ILLEGAL }
    ensures some { result ≡ ILLEGAL → instr_of_word word ≡ None }
    ensures kept { result ≢ OK → text.new ≡ text.old }
    ensures written { result ≡ OK → HasText text.old text.new }
{
    match write_text(word, pc, text) {
        Ok(()) => OK,
        Err(TextError::NoInstruction) => ILLEGAL,
        Err(TextError::NoRoom) => NO_ROOM,
    }
}
