//! Writers, and writing a whole text.

ghost use Rattle.std.specs.Prelude.{◌≡◌, ◌≤◌, length, IfOk};
ghost use Rattle.mte_streams.specs.Writing.{WriteLog, after_write, Writes};

use crate::error::StreamError;
use thiserror::Error;

/// A writer, as `std::io::Write` means it.
pub trait Sink {
    /// The bytes that its writes took, as far as they are known: a stream of the system says
    /// nothing.
    ghost log: { Self → WriteLog };

    /// Takes some bytes from the start of `bytes`, and returns how many.
    fn write(&mut self, bytes: &[u8]) -> Result<usize, StreamError>
        ensures count { IfOk result (λ n. n ≤ length bytes.now) }
        ensures log { log self.new ≡ after_write (log self.old) result bytes.now };
}

/// A write failed: it returned an error, or took none of some bytes.
#[derive(Clone, Copy, Debug, PartialEq, Eq, Error)]
#[error("cannot write")]
pub struct WriteFault;

/// Writes all of a text, and makes no further write after one that failed.
pub fn write_all<W: Sink>(out: &mut W, text: &[u8]) -> Result<(), WriteFault>
    ensures { Writes (W.log out.old) (W.log out.new) result text.now }
{
    let mut done = 0;
    while done < text.len() {
        match out.write(&text[done..]) {
            Err(_) => return Err(WriteFault),
            Ok(0) => return Err(WriteFault),
            Ok(count) => done += count,
        }
    }
    Ok(())
}
