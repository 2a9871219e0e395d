//! Words and the numbers that they are.

use std::fmt;

/// The number of 1 to 10 decimal digits.
pub fn decimal(word: &[u8]) -> Option<u64> {
    if word.is_empty() || word.len() > 10 {
        return None;
    }
    let mut value = 0u64;
    for byte in word {
        if !byte.is_ascii_digit() {
            return None;
        }
        let digit = u64::from(byte.wrapping_sub(b'0'));
        value = value.saturating_mul(10).saturating_add(digit);
    }
    Some(value)
}

/// Whether a word has 16 hexadecimal digits.
pub fn is_seed(word: &[u8]) -> bool {
    word.len() == 16 && word.iter().all(|byte| byte.is_ascii_hexdigit())
}

/// The most bytes of a word that are shown.
const SHOWN: usize = 24;

/// The first bytes of a word.
#[derive(Clone, Copy)]
pub struct Shown {
    bytes: [u8; SHOWN],
    len: usize,
}

impl Shown {
    /// Those of a word.
    pub fn of(word: &[u8]) -> Shown {
        let mut bytes = [0u8; SHOWN];
        for (to, from) in bytes.iter_mut().zip(word.iter()) {
            *to = *from;
        }
        Shown {
            bytes,
            len: word.len(),
        }
    }

    /// Whether a byte is among them.
    pub fn has(&self, byte: u8) -> bool {
        self.bytes.iter().take(self.len).any(|it| *it == byte)
    }

    /// Whether they are all of the word, and the last of them is this one.
    pub fn ends_with(&self, byte: u8) -> bool {
        self.len <= SHOWN && self.bytes.iter().take(self.len).last() == Some(&byte)
    }
}

impl fmt::Display for Shown {
    fn fmt<W: fmt::Write>(&self, f: &mut fmt::Formatter<W>) -> fmt::Result {
        for byte in self.bytes.iter().take(self.len) {
            let shown = if byte.is_ascii_graphic() { *byte } else { b'?' };
            f.write_char(char::from(shown))?;
        }
        if self.len > SHOWN {
            f.write_str("..")
        } else {
            Ok(())
        }
    }
}
