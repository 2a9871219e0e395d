//! The letters of a name.

use std::str;

/// The decimal digits.
pub const DIGITS: &str = "0123456789";

/// The letters of a copy's word.
const CLONE: &str = "abcdefghijklmnopqrstuvwxyz_";

/// The digits to the base 36.
const SEQUENCE: &str = "0123456789ABCDEFGHIJKLMNOPQRSTUVWXYZ";

/// A name, and how far it was read.
#[derive(Clone, Copy)]
pub struct NameReader<'a> {
    bytes: &'a [u8],
    at: usize,
}

impl<'a> NameReader<'a> {
    /// The reader at the start of a name.
    pub fn new(name: &'a str) -> NameReader<'a> {
        NameReader {
            bytes: name.as_bytes(),
            at: 0,
        }
    }

    /// The next letter, and 0 after the last.
    pub fn peek(&self) -> u8 {
        self.peek_at(0)
    }

    /// The letter that lies some letters after the next, and 0 after the last.
    pub fn peek_at(&self, letters: usize) -> u8 {
        match self.bytes.get(self.at.saturating_add(letters)) {
            Some(letter) => *letter,
            None => 0,
        }
    }

    /// Whether a name's encoding ends here.
    pub fn ends(&self) -> bool {
        matches!(self.peek(), 0 | b'E' | b'.')
    }

    /// Takes some letters, where there are as many.
    pub fn take(&mut self, letters: usize) -> Option<&'a str> {
        let rest = self.bytes.get(self.at..)?;
        let taken = rest.get(..letters)?;
        self.at = self.at.saturating_add(letters);
        str::from_utf8(taken).ok()
    }

    /// Takes the next letters if they are these; whether they were.
    pub fn eat(&mut self, letters: &str) -> bool {
        let is_next = match self.bytes.get(self.at..) {
            Some(rest) => rest.starts_with(letters.as_bytes()),
            None => false,
        };
        if is_next {
            self.at = self.at.saturating_add(letters.len());
        }
        is_next
    }

    /// Takes the next letters, which must be these.
    pub fn expect(&mut self, letters: &str) -> Option<()> {
        if self.eat(letters) { Some(()) } else { None }
    }

    /// Takes the letters that are among some.
    pub fn take_of(&mut self, some: &str) -> Option<&'a str> {
        let letters = count_of(self.bytes.get(self.at..)?, some.as_bytes());
        self.take(letters)
    }

    /// Takes a number of decimal digits.
    pub fn number(&mut self) -> Option<usize> {
        let digits = self.take_of(DIGITS)?;
        digits.parse().ok()
    }

    /// Takes a number that may be left out, and the `_` after it: 0 where it is left out, one
    /// more than the number where it is not.
    pub fn counted(&mut self) -> Option<usize> {
        if self.eat("_") {
            return Some(0);
        }
        let number = self.number()?;
        self.expect("_")?;
        number.checked_add(1)
    }

    /// Takes a number to the base 36 that may be left out, and the `_` after it (`<seq-id>`).
    pub fn sequence(&mut self) -> Option<usize> {
        let digits = self.take_of(SEQUENCE)?;
        self.expect("_")?;
        if digits.is_empty() {
            return Some(0);
        }
        let number = usize::from_str_radix(digits, 36).ok()?;
        number.checked_add(1)
    }

    /// Takes an offset of a thunk (`<call-offset>`).
    pub fn call_offset(&mut self) -> Option<()> {
        if self.eat("h") {
            return self.offset();
        }
        self.expect("v")?;
        self.offset()?;
        self.offset()
    }

    /// Takes a number with a sign, and the `_` after it.
    pub fn offset(&mut self) -> Option<()> {
        self.eat("n");
        self.number()?;
        self.expect("_")
    }

    /// Takes a suffix of a compiler's copy: a word after a dot, and numbers after dots.
    pub fn clone_suffix(&mut self) -> Option<&'a str> {
        let rest = self.bytes.get(self.at..)?;
        let mut word = *self;
        word.expect(".")?;
        word.take_of(CLONE)?;
        for _ in rest {
            if !(word.peek() == b'.' && word.peek_at(1).is_ascii_digit()) {
                break;
            }
            word.take(1)?;
            word.take_of(DIGITS)?;
        }
        let letters = word.at.checked_sub(self.at)?;
        if letters < 2 {
            return None;
        }
        self.take(letters)
    }

    /// Takes a name after its length (`<source-name>`).
    pub fn source_name(&mut self) -> Option<&'a str> {
        let letters = self.number()?;
        let name = self.take(letters)?;
        if name.starts_with("_GLOBAL__N") {
            return Some("(anonymous namespace)");
        }
        Some(name)
    }
}

/// How many letters there are up to the first that is not among some.
fn count_of(letters: &[u8], some: &[u8]) -> usize {
    match letters.iter().position(|letter| !some.contains(letter)) {
        Some(end) => end,
        None => letters.len(),
    }
}
