//! Images of small programs.

use std::alloc::{AllocError, Global};

/// Appends eight bytes of each number, the lowest first.
pub fn append(bytes: &mut Vec<u8>, numbers: &[u64]) -> Result<(), AllocError> {
    for number in numbers {
        bytes.extend_from_slice(&number.to_le_bytes())?;
    }
    Ok(())
}

/// Appends the header of a file with one segment.
fn append_file_header(file: &mut Vec<u8>) -> Result<(), AllocError> {
    file.extend_from_slice(b"\x7fELF\x02\x01\x01\0\0\0\0\0\0\0\0\0\x02\0\xb7\0\x01\0\0\0")?;
    append(file, &[0x10000, 64, 0])?;
    file.extend_from_slice(b"\0\0\0\0\x40\0\x38\0\x01\0\0\0\0\0\0\0")
}

/// An image of one segment, readable and executable, at 0x10000, of some words.
pub fn image(alloc: Global, words: &[u32]) -> Result<Vec<u8>, AllocError> {
    let mut file = Vec::new(alloc);
    append_file_header(&mut file)?;
    let size = (words.len() as u64).wrapping_mul(4);
    file.extend_from_slice(b"\x01\0\0\0\x05\0\0\0")?;
    append(&mut file, &[120, 0x10000, 0x10000, size, size, 1])?;
    for word in words {
        file.extend_from_slice(&word.to_le_bytes())?;
    }
    Ok(file)
}

/// How many bytes of an image are before its words.
pub const HEADERS: usize = 120;

/// Writes `Hi` and exits with 0.
pub static HI: [u32; 9] = [
    0xD2A00020, 0x91008000, 0xD2800041, 0xD2800028, 0xD4000001, 0xD2800000, 0xD2800008, 0xD4000001,
    0x00006948,
];

/// Tags a granule of the stack, stores and loads through the tagged pointer, then through the
/// untagged.
pub static UNTAGGED: [u32; 7] = [
    0xD2A7FFE0, 0x91403000, 0x9ADF1001, 0xD9200821, 0xF9000021, 0xF9400022, 0xF9400002,
];

/// Allocates 24 bytes, writes a byte of their header through an untagged pointer, and frees them.
pub static CORRUPTS: [u32; 8] = [
    0xD2800300, 0xD2800068, 0xD4000001, 0xD2A24001, 0xD2800062, 0x39000022, 0xD2800088, 0xD4000001,
];

/// Allocates 200000 bytes, stores there, frees them, yields, and loads from there.
pub static LARGE_FREED: [u32; 11] = [
    0xD281A800, 0xF2A00060, 0xD2800068, 0xD4000001, 0xAA0003F3, 0xF9000273, 0xD2800088, 0xD4000001,
    0xD2800128, 0xD4000001, 0xF9400261,
];

/// The word 0.
pub static ILLEGAL: [u32; 1] = [0];
