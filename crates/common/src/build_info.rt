//! The description of a program's build. The lines after the version are of a fixed size:
//! tools/mark.py writes a build's own over them once the program is there, since no source can
//! have its commit in it.

ghost use Rattle.std.specs.Prelude.{◌≡◌, length, drop};

/// The version, and lines that are not written yet, with a dash for each byte.
const TEXT: &str = "1.0
commit:    ----------------------------------------
changes:   ----
toolchain: ----------------------------------------
build:     --------";

/// Lines with the version, the commit, whether files differ from it, the toolchain's sum, and
/// whether all is proved.
pub fn text() -> &'static str {
    TEXT
}

/// Copies as much of the text as a buffer holds to its start, and returns how long the whole is. No
/// clause says what the bytes are, since the lines are written after the proof.
pub fn copy_text(buffer: &mut [u8]) -> u32
    ensures length { result ≡ 143 }
    ensures room { length buffer.new ≡ length buffer.old }
    ensures behind { drop result buffer.new ≡ drop result buffer.old }
{
    let bytes = TEXT.as_bytes();
    let count = bytes.len().min(buffer.len());
    buffer[..count].copy_from_slice(&bytes[..count]);
    bytes.len() as u32
}
