//! Numbers and bytes as hexadecimal digits.

ghost use Rattle.std.specs.Prelude.{◌≡◌, ◌^◌, ◌*◌, ◌<◌, ◌≤◌, ℕ, false};
ghost use Rattle.std.specs.Prelude.{List, length, take, drop};
ghost use Rattle.std.specs.List.{list_all};
ghost use Rattle.std.specs.Option.{SomeIff};
ghost use Rattle.std.specs.Fmt.{digits, digit_glyph};
ghost use Rattle.std.specs.Int.{to_le_bytes, w64};
ghost use Rattle.std.specs.Str.Parse.{digits_value, AllDigits};
ghost use Rattle.hex.specs.Hex.{encode_lower, IsBytes, is_hex_digit};
ghost use Rattle.gdb_packets.specs.Digits.{Puts, number_of, hex_bytes, is_hex_text, register_of};
ghost use Rattle.gdb_packets.specs.Rooms.{Writes};

/// The most digits of a number.
const NUMBER_LEN: usize = 16;

/// The number of 1 to 16 digits, the highest first, as GDB writes addresses, lengths and ids.
pub fn read_number(text: &[u8]) -> Option<u64>
    ensures exact { result ≡ number_of text.now }
    // The number that was written is read again.
    ensures again { (value : ℕ) → value < 2 ^ 64 → text.now ≡ digits 16 false value
        → result ≡ Some value }
{
    if text.is_empty() || text.len() > NUMBER_LEN {
        return None;
    }
    digits_number(text)
}

/// The number of at most 16 digits.
fn digits_number(text: &[u8]) -> Option<u64>
    requires { length text.now ≤ 16 }
    ensures { SomeIff result (AllDigits 16 text.now) (digits_value 16 text.now) }
{
    let mut value = 0;
    for byte in text {
        let digit = char::from(*byte).to_digit(16)?;
        value = value * 16 + u64::from(digit);
    }
    Some(value)
}

/// Puts the digits of a number at the front of a buffer, with no leading zeros. Returns how many
/// they are, or `None` where they are more than the buffer has, which then stays as it was.
pub fn write_number(value: u64, room: &mut [u8]) -> Option<usize>
    ensures { Writes (digits 16 false value) room.old room.new result }
{
    let mut text = [0; NUMBER_LEN];
    let start = write_backwards(value, &mut text);
    let len = NUMBER_LEN - start;
    if len > room.len() {
        return None;
    }
    room[..len].copy_from_slice(&text[start..]);
    Some(len)
}

/// Puts the digits of a number at the end of a text, and returns where they start.
fn write_backwards(value: u64, text: &mut [u8; NUMBER_LEN]) -> usize
    ensures within { result ≤ 16 }
    ensures digits { drop result text.new ≡ digits 16 false value }
{
    let mut start = NUMBER_LEN;
    let mut rest = value;
    while start > 0 {
        start -= 1;
        text[start] = digit_of((rest % 16) as u8);
        rest /= 16;
        if rest == 0 {
            break;
        }
    }
    start
}

/// A digit below 16 as text.
fn digit_of(value: u8) -> u8
    requires { value < 16 }
    ensures { result ≡ digit_glyph false value }
{
    if value < 10 {
        b'0' + value
    } else {
        b'a' - 10 + value
    }
}

/// Puts two digits for each byte at the front of a buffer. Returns how many digits they are, or
/// `None` where they are more than the buffer has, which then stays as it was.
pub fn write_hex(bytes: &[u8], room: &mut [u8]) -> Option<usize>
    ensures { Writes (encode_lower bytes.now) room.old room.new result }
{
    let len = bytes.len().checked_mul(2)?;
    if len > room.len() {
        return None;
    }
    let _ = hex::encode_to_slice(bytes, &mut room[..len]);
    Some(len)
}

/// Whether a text has two digits, of either case, for each of some bytes.
pub fn is_hex(text: &[u8]) -> bool
    ensures { result ≡ is_hex_text text.now }
{
    text.len() % 2 == 0 && are_digits(text)
}

fn are_digits(text: &[u8]) -> bool
    ensures { result ≡ list_all is_hex_digit text.now }
{
    text.iter().all(|byte| is_digit(*byte))
}

fn is_digit(byte: u8) -> bool
    ensures { result ≡ is_hex_digit byte }
{
    matches!(byte, b'0'..=b'9' | b'a'..=b'f' | b'A'..=b'F')
}

/// Puts the bytes of a text with two digits for each at the front of a buffer. Returns how many
/// they are, or `None` where the text is no such text; the buffer then stays as it was.
pub fn read_hex(text: &[u8], room: &mut [u8]) -> Option<usize>
    requires { length text.now ≤ 2 * length room.old }
    ensures exact { Puts (hex_bytes text.now) room.old room.new result }
    // The text that was written is read again.
    ensures again { (bytes : List ℕ) → IsBytes bytes → text.now ≡ encode_lower bytes
        → (result ≡ Some (length bytes)) × (take (length bytes) room.new ≡ bytes) }
{
    if !is_hex(text) {
        return None;
    }
    let len = text.len() / 2;
    let _ = hex::decode_to_slice(text, &mut room[..len]);
    Some(len)
}

/// Puts the digits of a register's value at the front of a buffer: those of the `size` low bytes,
/// the lowest first. Returns how many they are, or `None` where they are more than the buffer has,
/// which then stays as it was.
pub fn write_register(value: u64, size: usize, room: &mut [u8]) -> Option<usize>
    requires { size ≤ 8 }
    ensures { Writes (encode_lower (take size (to_le_bytes w64 value))) room.old room.new result }
{
    write_hex(&value.to_le_bytes()[..size], room)
}

/// The value of a register from the digits of its 1 to 8 bytes, the lowest first.
pub fn read_register(text: &[u8]) -> Option<u64>
    ensures exact { result ≡ register_of text.now }
    // The value that was written is read again.
    ensures again { (value size : ℕ) → 0 < size → size ≤ 8 → value < 256 ^ size
        → text.now ≡ encode_lower (take size (to_le_bytes w64 value)) → result ≡ Some value }
{
    if text.is_empty() || text.len() > NUMBER_LEN {
        return None;
    }
    let mut bytes = [0; 8];
    read_hex(text, &mut bytes)?;
    Some(u64::from_le_bytes(bytes))
}
