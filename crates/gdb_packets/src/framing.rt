//! Payloads, their escapes and their frames.

ghost use Rattle.std.specs.Prelude.{◌≡◌, ◌+◌, ◌-◌, ◌≤◌, ℕ, IfSome, option_map};
ghost use Rattle.std.specs.Prelude.{List, ◌∷◌, [], ◌++◌, length, take, drop};
ghost use Rattle.std.specs.Option.{SomeIff};
ghost use Rattle.hex.specs.Hex.{encode_lower};
ghost use Rattle.gdb_packets.specs.Framing.{checksum_of, is_reserved, escape_of, with_escapes};
ghost use Rattle.gdb_packets.specs.Framing.{payload_of, frame_of_payload};
ghost use Rattle.gdb_packets.specs.Rooms.{Writes};

/// The byte before one that is sent XOR 0x20.
const ESCAPE: u8 = b'}';

/// The bit that an escape turns.
const TURNED: u8 = 0x20;

/// The checksum of data as they are sent: their sum modulo 256.
pub fn checksum(bytes: &[u8]) -> u8
    ensures { result ≡ checksum_of bytes.now }
{
    let mut sum: u8 = 0;
    for byte in bytes {
        sum = sum.wrapping_add(*byte);
    }
    sum
}

/// Puts the frame of a payload at the front of a buffer: `$`, the payload with its escapes, `#` and
/// the checksum. Returns its length, or `None` where it is longer than the buffer, which then stays
/// as it was.
pub fn write_packet(payload: &[u8], room: &mut [u8]) -> Option<usize>
    ensures { Writes (frame_of_payload payload.now) room.old room.new result }
{
    let free = room.len().checked_sub(4)?;
    room_left(payload, free)?;
    room[0] = b'$';
    let end = 1 + escape(payload, &mut room[1..]);
    close(room, end);
    Some(end + 3)
}

/// How much of a buffer the escaped payload leaves, if it fits.
fn room_left(payload: &[u8], room: usize) -> Option<usize>
    ensures { SomeIff result (length (with_escapes payload.now) ≤ room)
        (room - length (with_escapes payload.now)) }
{
    let mut left = room;
    for byte in payload {
        left = left.checked_sub(if is_special(*byte) { 2 } else { 1 })?;
    }
    Some(left)
}

/// Puts the escaped payload at the front of a buffer, and returns its length.
fn escape(payload: &[u8], room: &mut [u8]) -> usize
    requires { length (with_escapes payload.now) ≤ length room.old }
    ensures len { result ≡ length (with_escapes payload.now) }
    ensures text { room.new ≡ with_escapes payload.now
        ++ drop (length (with_escapes payload.now)) room.old }
{
    let mut len = 0;
    for byte in payload {
        len += escape_byte(*byte, &mut room[len..]);
    }
    len
}

/// Puts one byte, or its escape, at the front of a buffer, and returns how many bytes it took.
fn escape_byte(byte: u8, room: &mut [u8]) -> usize
    requires { length (escape_of byte) ≤ length room.old }
    ensures len { result ≡ length (escape_of byte) }
    ensures text { room.new ≡ escape_of byte ++ drop (length (escape_of byte)) room.old }
{
    if is_special(byte) {
        room[0] = ESCAPE;
        room[1] = byte ^ TURNED;
        2
    } else {
        room[0] = byte;
        1
    }
}

/// Whether a byte is in data only as an escape.
fn is_special(byte: u8) -> bool
    ensures { result ≡ is_reserved byte }
{
    matches!(byte, b'#' | b'$' | b'}' | b'*')
}

/// Puts `#` and the checksum of the data before `end` after them.
fn close(room: &mut [u8], end: usize)
    requires begun { 1 ≤ end }
    requires fits { end + 3 ≤ length room.old }
    ensures { room.new ≡ take end room.old
        ++ (35 ∷ encode_lower (checksum_of (drop 1 (take end room.old)) ∷ []))
        ++ drop (end + 3) room.old }
{
    let sum = checksum(&room[1..end]);
    room[end] = b'#';
    let _ = hex::encode_to_slice([sum], &mut room[end + 1..end + 3]);
}

/// Puts the payload of a packet's data at the front of a buffer, without their escapes. Returns its
/// length, or `None` where the data end in the midst of an escape; the buffer then holds what came
/// before that.
pub fn unescape(bytes: &[u8], room: &mut [u8]) -> Option<usize>
    requires { length bytes.now ≤ length room.old }
    ensures payload { payload_of bytes.now ≡ option_map (λ n. take n room.new) result }
    ensures len { IfSome result (λ n. n ≤ length bytes.now) }
    ensures rest { IfSome result (λ n. drop n room.new ≡ drop n room.old) }
    // The payload that was escaped comes back.
    ensures again { (payload : List ℕ) → bytes.now ≡ with_escapes payload
        → (result ≡ Some (length payload)) × (take (length payload) room.new ≡ payload) }
{
    let mut len = 0;
    let mut escaped = false;
    for byte in bytes {
        if escaped {
            room[len] = *byte ^ TURNED;
            len += 1;
            escaped = false;
        } else if *byte == ESCAPE {
            escaped = true;
        } else {
            room[len] = *byte;
            len += 1;
        }
    }
    if escaped { None } else { Some(len) }
}
