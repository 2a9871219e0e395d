//! Readers, and reading a whole file.

ghost use Rattle.std.specs.Prelude.{◌≡◌, ◌≢◌, ◌+◌, ◌++◌, ◌≤◌, length, vec_len, vec_capacity};
ghost use Rattle.std.specs.Prelude.{IfOk, OnOk, IsErrOf, Err};
ghost use Rattle.mte_streams.specs.Reading.{ReadLog, after_read, ReadAll, GaveMore, GaveAtMost};
ghost use Rattle.mte_streams.specs.Reading.{FailedOnce, NoneFailed, MadeAtMost};
ghost use Rattle.mte_streams.specs.declared.reading.ReadFault.TheVariants.{OutOfMemory};

use crate::error::StreamError;
use std::alloc::{AllocError, Global};
use thiserror::Error;

/// A reader, as `std::io::Read` means it.
pub trait Source {
    /// The bytes that its reads gave, as far as they are known: a file of the system says nothing.
    ghost log: { Self → ReadLog };

    /// Reads some bytes into the start of the buffer, and returns how many. 0 is the end, or an
    /// empty buffer.
    fn read(&mut self, buffer: &mut [u8]) -> Result<usize, StreamError>
        ensures count { IfOk result (λ n. n ≤ length buffer.new) }
        ensures log { log self.new ≡ after_read (log self.old) result buffer.new };
}

/// The most bytes that a file may have.
pub const FILE_LIMIT: usize = 16_777_216;

/// The limit in digits.
pub fn file_limit_in_digits()
    ensures { FILE_LIMIT ≡ 16777216 }
{}

/// The most bytes that are read at once.
const CHUNK: usize = 65_536;

/// The fewest bytes that a chunk has.
const LEAST_CHUNK: usize = 4_096;

/// Why a file could not be read as a whole.
#[derive(Clone, Copy, Debug, PartialEq, Eq, Error)]
pub enum ReadFault {
    /// A read failed.
    #[error("a read failed")]
    Read,
    /// The reader gave more than 16777216 bytes.
    #[error("the file is too long")]
    TooLong,
    /// An allocation failed.
    #[error("out of memory")]
    OutOfMemory,
}

/// Reads all bytes up to the end. It makes at most 16777217 reads, and none after one that failed.
/// Memory for as many bytes as are expected is reserved before the first; any number may come. The
/// list never has memory for more than 16777216, whatever is expected.
///
/// `TooLong` comes if and only if more than 16777216 bytes were given. What was read before an
/// error stays read.
pub fn read_whole<R: Source>(
    alloc: Global,
    reader: &mut R,
    expected: usize,
) -> Result<Vec<u8>, ReadFault>
    ensures whole { IfOk result (λ whole.
        ReadAll (R.log reader.old) (R.log reader.new) whole.items) }
    ensures room { IfOk result (λ whole. vec_capacity whole ≤ FILE_LIMIT) }
    ensures none_failed { (result ≢ Err ReadFault.Read)
        → NoneFailed (R.log reader.old) (R.log reader.new) }
    ensures failed { IsErrOf result ReadFault.Read
        → FailedOnce (R.log reader.old) (R.log reader.new) }
    ensures too_long { IsErrOf result ReadFault.TooLong
        → GaveMore (R.log reader.old) (R.log reader.new) FILE_LIMIT }
    ensures within { (result ≢ Err ReadFault.TooLong)
        → GaveAtMost (R.log reader.old) (R.log reader.new) FILE_LIMIT }
    ensures calls { MadeAtMost (R.log reader.old) (R.log reader.new) 16777217 }
{
    let mut whole = Vec::with_capacity(alloc, expected.min(FILE_LIMIT))?;
    let mut buffer = Vec::from_elem(alloc, 0, chunk_length(expected))?;
    let chunk = buffer.as_mut_slice();
    for _ in 0..FILE_LIMIT + 1 {
        let wanted = chunk.len().min(FILE_LIMIT + 1 - whole.len());
        match reader.read(&mut chunk[..wanted]) {
            Err(_) => return Err(ReadFault::Read),
            Ok(0) => return Ok(whole),
            Ok(count) => {
                if whole.len() + count > FILE_LIMIT {
                    return Err(ReadFault::TooLong);
                }
                make_room(&mut whole, count)?;
                append(&mut whole, &chunk[..count]);
            }
        }
    }
    unreachable!()
}

/// How many bytes are read at once: one more than are expected, so that one read can give all of
/// them with room to spare, but at least 4096 and at most 65536. Where none are expected, as of a
/// pipe, it is 65536.
fn chunk_length(expected: usize) -> usize
    ensures least { LEAST_CHUNK ≤ result }
    ensures most { result ≤ CHUNK }
{
    if expected == 0 {
        return CHUNK;
    }
    expected.saturating_add(1).clamp(LEAST_CHUNK, CHUNK)
}

/// Makes room for more bytes: where it is missing, for twice as many as there was room for, but
/// never for more than a file may have.
fn make_room(whole: &mut Vec<u8>, count: usize) -> Result<(), AllocError>
    requires within { vec_len whole.old + count ≤ FILE_LIMIT }
    requires limit { vec_capacity whole.old ≤ FILE_LIMIT }
    ensures items { whole.new.items ≡ whole.old.items }
    ensures room { OnOk result (vec_len whole.new + count ≤ vec_capacity whole.new) }
    ensures limit { vec_capacity whole.new ≤ FILE_LIMIT }
{
    if whole.capacity() - whole.len() >= count {
        return Ok(());
    }
    let more = whole.capacity().max(count).min(FILE_LIMIT - whole.len());
    whole.reserve_exact(more)
}

/// Appends bytes to a list that has memory for them.
fn append(whole: &mut Vec<u8>, bytes: &[u8])
    requires { vec_len whole.old + length bytes.now ≤ vec_capacity whole.old }
    ensures items { whole.new.items ≡ whole.old.items ++ bytes.now }
    ensures capacity { vec_capacity whole.new ≡ vec_capacity whole.old }
{
    for byte in bytes {
        whole.push_reserved(*byte);
    }
}

impl From<AllocError> for ReadFault {
    ghost from_gives = { λ _ e. e ≡ OutOfMemory };

    fn from(_error: AllocError) -> ReadFault {
        ReadFault::OutOfMemory
    }
}
