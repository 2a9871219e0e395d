//! A text that is made part by part.

use gdb_packets::{write_hex, write_number, write_register};
use std::alloc::Global;
use std::io::Write;

/// Bytes that are appended part by part. A part for which there is no memory is left out, and the
/// text says so from then on.
#[derive(Drop)]
pub struct TextBuffer {
    bytes: Vec<u8>,
    is_short: bool,
}

impl TextBuffer {
    /// An empty text.
    pub fn new(alloc: Global) -> TextBuffer {
        TextBuffer {
            bytes: Vec::new(alloc),
            is_short: false,
        }
    }

    /// Leaves nothing of it, but that it was short.
    pub fn clear(&mut self) {
        self.bytes.clear();
    }

    /// Its bytes.
    pub fn as_slice(&self) -> &[u8] {
        self.bytes.as_slice()
    }

    /// Whether it is empty.
    pub fn is_empty(&self) -> bool {
        self.bytes.is_empty()
    }

    /// Whether there was no memory for a part.
    pub fn is_short(&self) -> bool {
        self.is_short
    }

    /// Says that there was no memory for a part.
    pub fn fail(&mut self) {
        self.is_short = true;
    }

    /// Appends bytes.
    pub fn put(&mut self, bytes: &[u8]) {
        if self.bytes.extend_from_slice(bytes).is_err() {
            self.is_short = true;
        }
    }

    /// Appends a number in hexadecimal digits, with no leading zeros.
    pub fn put_number(&mut self, value: u64) {
        let mut room = [0; 16];
        let len = write_number(value, &mut room).unwrap_or(0);
        self.put(room.get(..len).unwrap_or(&[]));
    }

    /// Appends a number in decimal digits.
    pub fn put_decimal(&mut self, value: u64) {
        if write!(self.bytes, "{value}").is_err() {
            self.is_short = true;
        }
    }

    /// Appends two hexadecimal digits for each byte.
    pub fn put_hex(&mut self, bytes: &[u8]) {
        for byte in bytes {
            let mut pair = [0; 2];
            let _ = write_hex(&[*byte], &mut pair);
            self.put(&pair);
        }
    }

    /// Appends the digits of a register of 4 bytes, the lowest byte first.
    pub fn put_word(&mut self, value: u64) {
        let mut room = [0; 8];
        let _ = write_register(value, 4, &mut room);
        self.put(&room);
    }

    /// Appends the digits of a register of 8 bytes, the lowest byte first.
    pub fn put_double_word(&mut self, value: u64) {
        let mut room = [0; 16];
        let _ = write_register(value, 8, &mut room);
        self.put(&room);
    }
}
