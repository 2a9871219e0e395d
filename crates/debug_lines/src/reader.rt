//! Numbers and texts in the order of their bytes.

ghost use Rattle.std.specs.Prelude.{◌≡◌, ◌<◌, ◌≤◌, ◌↔◌, length, take, MatchOption, IsSome, IfSome};
ghost use Rattle.debug_lines.specs.Readings.{number_in, left_of, text_in, text_end, after_text};

use byteorder::{ByteOrder, LittleEndian};

/// The bytes of a table that are not yet read. What a call would read and isn't there leaves them
/// as they are.
#[derive(Clone, Copy)]
pub struct Reader<'a> {
    pub rest: &'a [u8],
}

impl<'a> Reader<'a> {
    /// A byte.
    pub fn byte(&mut self) -> Option<u8>
        ensures value { result ≡ number_in 1 self.old.rest.now }
        ensures rest { self.new.rest.now ≡ left_of 1 self.old.rest.now }
    {
        let (byte, rest) = self.rest.split_first()?;
        self.rest = rest;
        Some(*byte)
    }

    /// A number of two bytes, the lowest first.
    pub fn half(&mut self) -> Option<u16>
        ensures value { result ≡ number_in 2 self.old.rest.now }
        ensures rest { self.new.rest.now ≡ left_of 2 self.old.rest.now }
    {
        let bytes = self.rest;
        self.rest = bytes.get(2..)?;
        Some(LittleEndian::read_u16(bytes))
    }

    /// A number of four bytes, the lowest first.
    pub fn word(&mut self) -> Option<u32>
        ensures value { result ≡ number_in 4 self.old.rest.now }
        ensures rest { self.new.rest.now ≡ left_of 4 self.old.rest.now }
    {
        let bytes = self.rest;
        self.rest = bytes.get(4..)?;
        Some(LittleEndian::read_u32(bytes))
    }

    /// A number of eight bytes, the lowest first.
    pub fn double_word(&mut self) -> Option<u64>
        ensures value { result ≡ number_in 8 self.old.rest.now }
        ensures rest { self.new.rest.now ≡ left_of 8 self.old.rest.now }
    {
        let bytes = self.rest;
        self.rest = bytes.get(8..)?;
        Some(LittleEndian::read_u64(bytes))
    }

    /// The next bytes, as many as are requested.
    pub fn bytes(&mut self, count: u64) -> Option<&'a [u8]>
        ensures enough { IsSome result ↔ (count ≤ length self.old.rest.now) }
        ensures first { IfSome result (λ bytes. bytes.now ≡ take count self.old.rest.now) }
        ensures rest { self.new.rest.now ≡ left_of count self.old.rest.now }
    {
        let (bytes, rest) = self.rest.split_at_checked(count as usize)?;
        self.rest = rest;
        Some(bytes)
    }

    /// The next bytes, as many as are requested, to be read by themselves.
    pub fn part(&mut self, count: u64) -> Option<Reader<'a>>
        ensures enough { IsSome result ↔ (count ≤ length self.old.rest.now) }
        ensures first { IfSome result (λ part. part.rest.now ≡ take count self.old.rest.now) }
        ensures rest { self.new.rest.now ≡ left_of count self.old.rest.now }
    {
        let rest = self.bytes(count)?;
        Some(Reader { rest })
    }

    /// The bytes in front of the first 0, which is read too.
    pub fn text(&mut self) -> Option<&'a [u8]>
        ensures text { MatchOption result
            (text_in self.old.rest.now ≡ None)
            (λ text. text_in self.old.rest.now ≡ Some text.now) }
        ensures rest { self.new.rest.now ≡ after_text self.old.rest.now }
    {
        let end = text_end(self.rest)?;
        let text = &self.rest[..end];
        self.rest = &self.rest[end + 1..];
        Some(text)
    }
}

/// Where the first 0 is.
fn text_end(bytes: &[u8]) -> Option<usize>
    ensures value { result ≡ text_end bytes.now }
    ensures inside { IfSome result (λ end. end < length bytes.now) }
{
    bytes.iter().position(|byte| *byte == 0)
}
