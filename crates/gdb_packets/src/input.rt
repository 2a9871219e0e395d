//! The meaning of the bytes that came so far.

ghost use Rattle.std.specs.Prelude.{◌≡◌, ◌≢◌, ◌≤◌, ◌++◌, length, ℕ, List};
ghost use Rattle.std.specs.List.{prefix_len};
ghost use Rattle.gdb_packets.specs.Reading.{seen, reading_of, after_dollar, check_packet, is_data};
ghost use Rattle.gdb_packets.specs.Reading.{digits_byte, packet_length, Takes, packet, more};
ghost use Rattle.gdb_packets.specs.Framing.{with_escapes, frame_of_payload};

use crate::framing::checksum;

/// The most data bytes of a packet, as `PacketSize` of `qSupported` has it in hexadecimal digits
/// (4000). A longer packet is bad.
pub const PACKET_SIZE: usize = 16_384;

/// The most bytes of a packet with its frame: a buffer of this length holds every packet.
pub const FRAME_LIMIT: usize = PACKET_SIZE + 4;

/// The meaning of the first of the bytes that came.
#[derive(Clone, Copy)]
pub enum PacketInput<'a> {
    /// `$data#cc`: the data as they came, with their escapes, and the length of the whole.
    Packet { bytes: &'a [u8], len: usize },
    /// A packet with a wrong checksum, one that is too long or that the `$` of another one cuts
    /// off. It has `len` bytes and is answered by `-`.
    Bad { len: usize },
    /// The byte 0x03: GDB's user wants the program to stop.
    Interrupt,
    /// `+`: the last packet came well.
    Ack,
    /// `-`: the last packet is to be sent again.
    Nack,
    /// A byte that begins nothing. It is skipped.
    Noise,
    /// More bytes are needed.
    More,
}

impl PacketInput<'_> {
    /// How many bytes it takes: 0 where more are needed.
    pub fn byte_count(&self) -> usize
        ensures { result ≡ packet_length (seen self.now) }
    {
        match *self {
            PacketInput::Packet { len, .. } | PacketInput::Bad { len } => len,
            PacketInput::More => 0,
            _ => 1,
        }
    }
}

/// The first input among the bytes that came so far.
pub fn read_input(bytes: &[u8]) -> PacketInput<'_>
    ensures exact { seen result ≡ reading_of bytes.now }

    // It takes some of the bytes, or a bounded number of bytes is waited for.
    ensures takes { Takes bytes.now (seen result) }
    // The payload that was framed is read again, whatever follows it.
    ensures again { (payload rest : List ℕ) → length (with_escapes payload) ≤ PACKET_SIZE
        → bytes.now ≡ frame_of_payload payload ++ rest
        → seen result ≡ packet (with_escapes payload) (length (frame_of_payload payload)) }
    // The bytes that come later change nothing of it.
    ensures settled { (later : List ℕ) → seen result ≢ more
        → reading_of (bytes.now ++ later) ≡ seen result }
{
    first_input(bytes)
}

fn first_input(bytes: &[u8]) -> PacketInput<'_>
    ensures { seen result ≡ reading_of bytes.now }
{
    let Some((first, rest)) = bytes.split_first() else {
        return PacketInput::More;
    };
    match *first {
        b'$' => read_packet(rest),
        b'+' => PacketInput::Ack,
        b'-' => PacketInput::Nack,
        0x03 => PacketInput::Interrupt,
        _ => PacketInput::Noise,
    }
}

/// The bytes after a `$`.
fn read_packet(rest: &[u8]) -> PacketInput<'_>
    ensures { seen result ≡ after_dollar rest.now }
{
    let (bytes, rest) = rest.split_at(data_len(rest));
    if bytes.len() > PACKET_SIZE {
        let len = PACKET_SIZE + 2;
        return PacketInput::Bad { len };
    }
    match rest.split_first() {
        None => PacketInput::More,
        Some((b'$', _)) => PacketInput::Bad {
            len: bytes.len() + 1,
        },
        Some((_, rest)) => read_checksum(bytes, rest),
    }
}

/// How many bytes are before the first `#` or `$`, or in all.
fn data_len(bytes: &[u8]) -> usize
    ensures len { result ≡ prefix_len is_data bytes.now }
    ensures within { result ≤ length bytes.now }
{
    let is_data = |b: &&u8| **b != b'#' && **b != b'$';
    bytes.iter().take_while(is_data).count()
}

/// Data, and what follows their `#`.
fn read_checksum<'a>(bytes: &'a [u8], rest: &[u8]) -> PacketInput<'a>
    ensures { seen result ≡ check_packet bytes.now rest.now }
{
    let [high, low, ..] = rest else {
        return PacketInput::More;
    };
    let len = bytes.len() + 4;
    match byte_of(*high, *low) {
        Some(sum) if sum == checksum(bytes) => PacketInput::Packet { bytes, len },
        _ => PacketInput::Bad { len },
    }
}

/// The byte of two hexadecimal digits, the high one first.
#[tactic(auto, using(crate::proofs::DigitLemmas::byte_of_pair))]
fn byte_of(high: u8, low: u8) -> Option<u8>
    ensures { result ≡ digits_byte high low }
{
    let mut byte = [0];
    match hex::decode_to_slice([high, low], &mut byte) {
        Ok(()) => Some(byte[0]),
        Err(_) => None,
    }
}
