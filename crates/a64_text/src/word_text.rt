//! The text of an instruction word in a buffer of the caller, with a zero byte after it.

ghost use Rattle.std.specs.Prelude.{◌≡◌, ◌<◌, ◌≤◌, ◌+◌, ◌++◌, ◌∷◌, [], ◌⊎◌, length, drop, nat_le};
ghost use Rattle.std.specs.Prelude.{IsTrue, IsFalse, OnErr, OnOk, IfErr, IfOk, None, Some, Err};
ghost use Rattle.a64_decode.specs.Decoded.{instr_of_word};
ghost use Rattle.a64_text.specs.Texts.{HasText};

use crate::instruction::TextAt;
use a64_decode::decode;
use a64_instr::Instr;
use arrayvec::ArrayString;
use std::fmt::Write;

/// A text has at most so many bytes, its zero among them.
const LONGEST: usize = 96;

/// Why the text of a word is not written.
#[derive(Clone, Copy, Debug, PartialEq, Eq)]
pub enum TextError {
    /// The word is no instruction of the profile.
    NoInstruction,
    /// The buffer is too short for the text and its zero byte.
    NoRoom,
}

/// Copies bytes to the start of a buffer, where they fit; whether they do.
fn copy_whole(bytes: &[u8], buffer: &mut [u8]) -> bool
    ensures fits { result ≡ nat_le (length bytes.now) (length buffer.old) }
    ensures kept { IsFalse result → buffer.new ≡ buffer.old }
    ensures copied { IsTrue result
        → buffer.new ≡ bytes.now ++ drop (length bytes.now) buffer.old }
{
    let count = bytes.len();
    if count > buffer.len() {
        return false;
    }
    buffer[..count].copy_from_slice(bytes);
    true
}

/// The text of an instruction, where `LONGEST` bytes hold it.
fn text_of(instr: Instr, pc: u64) -> Option<ArrayString<LONGEST>> {
    let mut text = ArrayString::new();
    let line = TextAt { instr, pc };
    write!(text, "{line}").ok()?;
    Some(text)
}

/// Writes the text of a word at an address, as `TextAt` prints it, and a zero byte to the start of
/// a buffer. An error leaves the buffer as it was.
pub fn write_text(word: u32, pc: u64, buffer: &mut [u8]) -> Result<(), TextError>
    ensures none { instr_of_word word ≡ None → result ≡ Err TextError.NoInstruction }
    ensures some { result ≡ Err TextError.NoInstruction → instr_of_word word ≡ None }
    ensures kept { OnErr result (buffer.new ≡ buffer.old) }
    ensures written { OnOk result (HasText buffer.old buffer.new) }
{
    let Some(instr) = decode(word) else {
        return Err(TextError::NoInstruction);
    };
    let Some(mut text) = text_of(instr, pc) else {
        return Err(TextError::NoRoom);
    };
    if text.try_push_str("\0").is_err() || !copy_whole(text.as_bytes(), buffer) {
        return Err(TextError::NoRoom);
    }
    Ok(())
}
