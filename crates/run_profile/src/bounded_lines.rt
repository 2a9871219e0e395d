//! Lines of text with a bound on their bytes.

use std::io;
use std::io::Write;

/// How many bytes the names of an image may take: an image chooses how long they are, and how often
/// each is told.
const MOST_BYTES: u64 = 134_217_728;

/// Passes on what is written, and says when it is enough.
#[derive(Drop)]
pub struct BoundedLines<'w, W: Write> {
    out: &'w mut W,
    left: u64,
}

impl<'w, W: Write> BoundedLines<'w, W> {
    /// Passes on to a writer.
    pub fn new(out: &'w mut W) -> BoundedLines<'w, W> {
        BoundedLines {
            out,
            left: MOST_BYTES,
        }
    }

    /// Whether no further line may begin.
    pub fn is_full(&self) -> bool {
        self.left == 0
    }
}

impl<'w, W: Write> Write for BoundedLines<'w, W> {
    fn write(&mut self, bytes: &[u8]) -> io::Result<usize> {
        let count = self.out.write(bytes)?;
        self.left = self.left.saturating_sub(count as u64);
        Ok(count)
    }

    fn flush(&mut self) -> io::Result<()> {
        self.out.flush()
    }
}
