//! Parts of a longer text, and of files.

use crate::text::TextBuffer;

/// The most bytes of a part: with all of them escaped it is shorter than a packet.
pub const PART_LIMIT: u64 = 2048;

/// The part of a whole from an offset on, of at most `len` bytes.
fn part_of(whole: &[u8], offset: u64, len: u64) -> &[u8] {
    let start = offset.min(whole.len() as u64) as usize;
    let rest = whole.get(start..).unwrap_or(&[]);
    let end = len.min(PART_LIMIT).min(rest.len() as u64) as usize;
    rest.get(..end).unwrap_or(&[])
}

/// Appends the answer of `qXfer`: `l` where a part is the last one, `m` where more follow, and the
/// part.
pub fn put_part(text: &mut TextBuffer, whole: &[u8], offset: u64, len: u64) {
    let part = part_of(whole, offset, len);
    let end = offset.saturating_add(part.len() as u64);
    text.put(if end >= whole.len() as u64 {
        b"l"
    } else {
        b"m"
    });
    text.put(part);
}

/// Appends the answer of `vFile:pread`: `F`, the part's length, `;` and the part.
pub fn put_file_part(text: &mut TextBuffer, whole: &[u8], offset: u64, len: u64) {
    let part = part_of(whole, offset, len);
    text.put(b"F");
    text.put_number(part.len() as u64);
    text.put(b";");
    text.put(part);
}

/// Appends the answer of `vFile:fstat`: `F40;` and the `struct stat` of a regular file, of 64 bytes
/// (GDB's documentation, "struct stat"): the mode from byte 8 on, the size from byte 28 on, the
/// highest byte first.
pub fn put_file_status(text: &mut TextBuffer, size: u64) {
    let mut status = [0; 64];
    status[8..12].copy_from_slice(&0o100_444u32.to_be_bytes());
    status[28..36].copy_from_slice(&size.to_be_bytes());
    text.put(b"F40;");
    text.put(&status);
}
