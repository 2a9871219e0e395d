//! LEB128 numbers (DWARF 5, 7.6): seven bits in each byte, the lowest first, and 128 added in all
//! but the last.

ghost use Rattle.std.specs.Prelude.{◌≡◌, ◌+◌, ◌*◌, ◌^◌, ◌%◌, ◌<◌, length, option_map};
ghost use Rattle.std.specs.Prelude.{MatchOption, IfSome};
ghost use Rattle.debug_lines.specs.Numbers.{number_bytes, number_end, after_number, bits_of};
ghost use Rattle.debug_lines.specs.Numbers.{is_negative, unsigned_of, signed_of};

use crate::reader::Reader;

impl<'a> Reader<'a> {
    /// An unsigned number, modulo 2^64.
    pub fn unsigned(&mut self) -> Option<u64>
        ensures value { result ≡ option_map unsigned_of (number_bytes self.old.rest.now) }
        ensures rest { self.new.rest.now ≡ after_number self.old.rest.now }
    {
        let number = self.number()?;
        Some(joined(number, 0))
    }

    /// A signed number, modulo 2^64.
    pub fn signed(&mut self) -> Option<u64>
        ensures value { result ≡ option_map signed_of (number_bytes self.old.rest.now) }
        ensures rest { self.new.rest.now ≡ after_number self.old.rest.now }
    {
        let number = self.number()?;
        let above = if is_negative(number) { u64::MAX } else { 0 };
        Some(joined(number, above))
    }

    /// The bytes of a number: up to the first below 128.
    fn number(&mut self) -> Option<&'a [u8]>
        ensures bytes { MatchOption result
            (number_bytes self.old.rest.now ≡ None)
            (λ number. number_bytes self.old.rest.now ≡ Some number.now) }
        ensures rest { self.new.rest.now ≡ after_number self.old.rest.now }
    {
        let last = number_end(self.rest)?;
        let number = &self.rest[..last + 1];
        self.rest = &self.rest[last + 1..];
        Some(number)
    }
}

/// Where a number's last byte is.
fn number_end(bytes: &[u8]) -> Option<usize>
    ensures value { result ≡ number_end bytes.now }
    ensures inside { IfSome result (λ last. last < length bytes.now) }
{
    bytes.iter().position(|byte| *byte < 128)
}

/// Whether bit 6 of a number's last byte, its sign, is set.
fn is_negative(number: &[u8]) -> bool
    ensures { result ≡ is_negative number.now }
{
    match number.last() {
        Some(last) => *last % 128 >= 64,
        None => false,
    }
}

/// The sum of the lower seven bits of each byte, the lowest first, below some higher bits.
fn joined(number: &[u8], above: u64) -> u64
    ensures { result ≡ (bits_of number.now + 128 ^ length number.now * above) % 2 ^ 64 }
{
    let mut value = above;
    for i in (0..number.len()).rev() {
        value = value
            .wrapping_mul(128)
            .wrapping_add(u64::from(number[i] % 128));
    }
    value
}
