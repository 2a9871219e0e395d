//! The header in front of each chunk, and its checksum (Scudo, `chunk.h` and `checksum.h`).

ghost use Rattle.std.specs.Prelude.{◌≡◌, ◌≢◌, ◌↔◌, ◌<◌, ◌/◌, ◌^◌, Some, IsNone, IfSome};
ghost use Rattle.std.specs.Int.{to_le_bytes, w32, w64};
ghost use Rattle.std.specs.List.{fold};
ghost use Rattle.scudo_header.specs.Headers.{state_number, state_of, origin_number, origin_of};
ghost use Rattle.scudo_header.specs.Headers.{header_word, with_byte, checksum_of, packed_header};
ghost use Rattle.scudo_header.specs.Headers.{unpacked_header, FitsInWord};

use a64_bits::plain;

/// The use of a chunk.
#[derive(Clone, Copy, Debug, PartialEq, Eq)]
pub enum State {
    /// 0: free.
    Available,
    /// 1: handed out.
    Allocated,
    /// 2: held back after its release. This heap never writes it.
    Quarantined,
    /// 3: no state of Scudo's. A word that was not written by the heap may have it.
    Reserved,
}

/// The call that a chunk was handed out by.
#[derive(Clone, Copy, Debug, PartialEq, Eq)]
pub enum Origin {
    /// 0: malloc, calloc or realloc.
    Malloc,
    /// 1: operator new.
    New,
    /// 2: operator new[]. This heap never writes it.
    NewArray,
    /// 3: memalign.
    Memalign,
}

/// The header of a chunk, but for its checksum.
#[derive(Clone, Copy, Debug, PartialEq, Eq)]
pub struct Header {
    /// The size class of the chunk's block (8 bits). It is 0 for a chunk with pages of its own.
    pub class_id: u8,
    /// The use of the chunk (2 bits).
    pub state: State,
    /// The call that it was handed out by (2 bits).
    pub origin: Origin,
    /// The requested size in bytes; for a chunk with pages of its own, the bytes that are left
    /// after it (20 bits).
    pub size_or_unused_bytes: u32,
    /// The distance from the start of the block to this header, in units of 16 bytes (16 bits).
    pub offset: u16,
}

/// A state's two bits.
fn state_bits(state: State) -> u64
    ensures number { result ≡ state_number state }
    ensures below { result < 4 }
{
    match state {
        State::Available => 0,
        State::Allocated => 1,
        State::Quarantined => 2,
        State::Reserved => 3,
    }
}

/// The state of two bits.
fn state_from(bits: u64) -> State
    ensures { result ≡ state_of bits }
{
    match bits {
        0 => State::Available,
        1 => State::Allocated,
        2 => State::Quarantined,
        _ => State::Reserved,
    }
}

/// An origin's two bits.
fn origin_bits(origin: Origin) -> u64
    ensures number { result ≡ origin_number origin }
    ensures below { result < 4 }
{
    match origin {
        Origin::Malloc => 0,
        Origin::New => 1,
        Origin::NewArray => 2,
        Origin::Memalign => 3,
    }
}

/// The origin of two bits.
fn origin_from(bits: u64) -> Origin
    ensures { result ≡ origin_of bits }
{
    match bits {
        0 => Origin::Malloc,
        1 => Origin::New,
        2 => Origin::NewArray,
        _ => Origin::Memalign,
    }
}

/// The sum after one more byte.
#[inline(always)]
fn add_byte(sum: u16, byte: u8) -> u16
    ensures { result ≡ with_byte sum byte }
{
    ((sum >> 1) + (sum % 2) * 0x8000).wrapping_add(u16::from(byte))
}

/// The sum after the four bytes of a half word.
#[inline(always)]
fn add_half(start: u16, half: u32) -> u16
    ensures { result ≡ fold with_byte start (to_le_bytes w32 half) }
{
    let first = add_byte(start, (half % (1 << 8)) as u8);
    let second = add_byte(first, ((half >> 8) % (1 << 8)) as u8);
    let third = add_byte(second, ((half >> 16) % (1 << 8)) as u8);
    add_byte(third, (half >> 24) as u8)
}

/// The sum over an upper half, which is mostly 0: four zero bytes rotate the sum by four bits.
#[inline(always)]
fn add_upper_half(start: u16, half: u32) -> u16
    ensures { result ≡ fold with_byte start (to_le_bytes w32 half) }
{
    if half == 0 {
        return (start >> 4) + (start % 16) * 0x1000;
    }
    add_half(start, half)
}

/// The sum after the eight bytes of a word.
#[inline(always)]
fn add_word(start: u16, word: u64) -> u16
    ensures { result ≡ fold with_byte start (to_le_bytes w64 word) }
{
    let lower = add_half(start, (word % (1 << 32)) as u32);
    add_upper_half(lower, (word >> 32) as u32)
}

/// The checksum of a header for the chunk at an address (`computeHeaderChecksum` without hardware
/// support): a sum of 16 bits over the bytes of the plain address and of the header. The header's
/// own checksum counts as 0.
#[tactic(auto, unfolding(crate::specs::Headers::checksum_of))]
#[inline(always)]
pub fn checksum(cookie: u32, pointer: u64, header: u64) -> u16
    ensures { result ≡ checksum_of cookie pointer header }
{
    let start = (cookie % (1 << 16)) as u16;
    let sum = add_word(start, plain(pointer));
    add_word(sum, header % (1 << 48))
}

/// The word of a header whose checksum is 0.
#[inline(always)]
fn unchecked_word(header: &Header) -> u64
    requires { FitsInWord header.now }
    ensures word { result ≡ header_word header.now }
    ensures below { result < 2 ^ 48 }
    ensures class { header.now.class_id < 2 ^ 8 }
    ensures offset { header.now.offset < 2 ^ 16 }
{
    u64::from(header.class_id)
        + (state_bits(header.state) << 8)
        + (origin_bits(header.origin) << 10)
        + (u64::from(header.size_or_unused_bytes) << 12)
        + (u64::from(header.offset) << 32)
}

/// The word of a header with its checksum, for the chunk at an address.
#[tactic(auto, unfolding(crate::specs::Headers::packed_header))]
#[inline(always)]
pub fn pack(cookie: u32, pointer: u64, header: &Header) -> u64
    requires { FitsInWord header.now }
    ensures word { result ≡ packed_header cookie pointer header.now }
    ensures back { unpacked_header cookie pointer result ≡ Some header.now }
{
    let word = unchecked_word(header);
    word + (u64::from(checksum(cookie, pointer, word)) << 48)
}

/// The header of a word, for the chunk at an address. There is none if and only if the
/// word's checksum is not the checksum of the rest of it.
#[tactic(auto, unfolding(crate::specs::Headers::unpacked_header))]
#[inline(always)]
pub fn unpack(cookie: u32, pointer: u64, word: u64) -> Option<Header>
    ensures header { result ≡ unpacked_header cookie pointer word }
    ensures none { IsNone result ↔ (word / 2 ^ 48 ≢ checksum_of cookie pointer word) }
    ensures some { IfSome result (λ header. packed_header cookie pointer header ≡ word) }
{
    if (word >> 48) as u16 != checksum(cookie, pointer, word) {
        return None;
    }
    Some(Header {
        class_id: (word % (1 << 8)) as u8,
        state: state_from((word >> 8) % (1 << 2)),
        origin: origin_from((word >> 10) % (1 << 2)),
        size_or_unused_bytes: ((word >> 12) % (1 << 20)) as u32,
        offset: ((word >> 32) % (1 << 16)) as u16,
    })
}
