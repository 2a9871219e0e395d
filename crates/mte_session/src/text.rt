//! Texts that are written in parts, and hexadecimal digits.

ghost use Rattle.std.specs.Prelude.{◌≡◌, ◌≤◌, ◌++◌, length, OnOk, OnErr};
ghost use Rattle.hex.specs.Hex.{encode_lower};
ghost use Rattle.mte_streams.specs.Writing.{Writes, WrotePart};
ghost use Rattle.mte_session.specs.Parts.{parts_text, WroteBut};
ghost use Rattle.mte_session.specs.Report.{sixteen_digits, eight_digits};

use arrayvec::ArrayVec;
use mte_streams::{Sink, WriteFault, write_all};

/// How many bytes of an output are written at once.
const CHUNK: usize = 256;

/// How many bytes of a line are collected before they are written.
const LINE: usize = 128;

/// Writes parts one after another, by few writes.
pub fn write_parts<W: Sink>(out: &mut W, parts: &[&[u8]]) -> Result<(), WriteFault>
    ensures { Writes (W.log out.old) (W.log out.new) result (parts_text parts.now) }
{
    let mut line = ArrayVec::new();
    for part in parts {
        append_part(out, &mut line, part)?;
    }
    write_all(out, line.as_slice())
}

/// Appends a part to what is collected of a line. Where it does not fit, what is collected is
/// written first, and with it a part that never fits.
fn append_part<W: Sink>(
    out: &mut W,
    line: &mut ArrayVec<u8, LINE>,
    part: &[u8],
) -> Result<(), WriteFault>
    ensures ok { OnOk result
        (WroteBut (W.log out.old) (W.log out.new) (line.old.items ++ part.now) line.new.items) }
    ensures err { OnErr result
        (WrotePart (W.log out.old) (W.log out.new) (line.old.items ++ part.now)) }
{
    if line.try_extend_from_slice(part).is_ok() {
        return Ok(());
    }
    write_all(out, line.as_slice())?;
    line.clear();
    if line.try_extend_from_slice(part).is_ok() {
        return Ok(());
    }
    write_all(out, part)
}

/// The sixteen lower-case hexadecimal digits of a number.
pub fn sixteen_hex(number: u64) -> [u8; 16]
    ensures { result ≡ sixteen_digits number }
{
    let mut digits = [0; 16];
    let _ = hex::encode_to_slice(number.to_be_bytes(), &mut digits);
    digits
}

/// The eight lower-case hexadecimal digits of a word.
pub fn eight_hex(word: u32) -> [u8; 8]
    ensures { result ≡ eight_digits word }
{
    let mut digits = [0; 8];
    let _ = hex::encode_to_slice(word.to_be_bytes(), &mut digits);
    digits
}

/// Writes bytes as two lower-case hexadecimal digits each.
pub fn write_hex<W: Sink>(out: &mut W, bytes: &[u8]) -> Result<(), WriteFault>
    ensures { Writes (W.log out.old) (W.log out.new) result (encode_lower bytes.now) }
{
    let mut done = 0;
    while done < bytes.len() {
        let end = bytes.len().min(done + CHUNK);
        write_hex_piece(out, &bytes[done..end])?;
        done = end;
    }
    Ok(())
}

/// Writes at most 256 bytes as two digits each.
fn write_hex_piece<W: Sink>(out: &mut W, bytes: &[u8]) -> Result<(), WriteFault>
    requires { length bytes.now ≤ 256 }
    ensures { Writes (W.log out.old) (W.log out.new) result (encode_lower bytes.now) }
{
    let mut digits = [0; 2 * CHUNK];
    let digits = &mut digits[..2 * bytes.len()];
    let _ = hex::encode_to_slice(bytes, digits);
    write_all(out, digits)
}
