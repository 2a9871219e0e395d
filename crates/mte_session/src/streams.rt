//! The standard library's readers and writers. What passes them is what passes the reader or the
//! writer inside, as far as the standard library knows it: of a system's file it knows nothing.

ghost use Rattle.std.specs.Prelude.{◌≡◌, ◌≤◌, length, IfOk};
ghost use Rattle.std.specs.Io.Buffered.{writer_contents};
ghost use Rattle.std.specs.Io.KnownBytes.{Keeps, ReadConsumes, WriteAppends};
ghost use Rattle.mte_session.specs.Streams.{count_or_failure};
ghost use Rattle.mte_streams.specs.Reading.{unknown_reads, after_read};
ghost use Rattle.mte_streams.specs.Writing.{unknown_writes, after_write};

use mte_streams::{Sink, Source, StreamError, WriteFault};
use std::io;
use std::io::{BufWriter, Read, Write};

/// The outcome of a read or a write. One that failed stays a failure: it is neither the end nor a
/// count of 0.
pub fn passed(count: io::Result<usize>) -> Result<usize, StreamError>
    ensures { result ≡ count_or_failure count }
{
    match count {
        Ok(count) => Ok(count),
        Err(_) => Err(StreamError),
    }
}

/// A reader of the standard library.
#[derive(Drop)]
pub struct StreamSource<R: Read + Drop>(pub R);

impl<R: Read + Drop> Source for StreamSource<R> {
    ghost log = { λ _. unknown_reads };

    fn read(&mut self, buffer: &mut [u8]) -> Result<usize, StreamError>
        ensures count { IfOk result (λ n. n ≤ length buffer.new) }
        ensures log { unknown_reads ≡ after_read unknown_reads result buffer.new }
        ensures bytes { ReadConsumes (R.remaining self.old.0) (R.remaining self.new.0) result
            buffer.new }
    {
        passed(self.0.read(buffer))
    }
}

/// A writer of the standard library.
#[derive(Drop)]
pub struct StreamSink<W: Write + Drop>(pub W);

impl<W: Write + Drop> Sink for StreamSink<W> {
    ghost log = { λ _. unknown_writes };

    fn write(&mut self, bytes: &[u8]) -> Result<usize, StreamError>
        ensures count { IfOk result (λ n. n ≤ length bytes.now) }
        ensures log { unknown_writes ≡ after_write unknown_writes result bytes.now }
        ensures bytes { WriteAppends (W.contents self.old.0) (W.contents self.new.0) result
            bytes.now }
    {
        passed(self.0.write(bytes))
    }
}

impl<W: Write + Drop> StreamSink<BufWriter<W>> {
    /// Writes the bytes that are held, and returns the writer. After a write that failed there is
    /// none.
    pub fn finish(self) -> Result<W, WriteFault>
        ensures bytes { IfOk result (λ w.
            Keeps (writer_contents W.contents self.0) (W.contents w)) }
    {
        match self.0.into_inner() {
            Ok(writer) => Ok(writer),
            Err(fault) => {
                let (_writer, _held) = fault.into_inner().into_parts();
                Err(WriteFault)
            }
        }
    }

    /// Leaves the bytes that are held unwritten, as after a write that failed.
    pub fn abandon(self) {
        let (_writer, _held) = self.0.into_parts();
    }
}
