//! Files that the caller lends, and buffers that it lends for answers.

ghost use Rattle.std.specs.Prelude.{◌≡◌, length, nat_le, IfOk};
ghost use Rattle.mte_session.specs.Files.{contents};
ghost use Rattle.tombolopan_c.specs.LentBuffers.{lent_contents, filled};

use std::alloc::{AllocError, Global};

/// Some bytes, to be read.
#[repr(C)]
#[derive(Clone, Copy)]
pub struct LentBytes<'a> {
    /// The bytes.
    pub bytes: &'a [u8],
}

/// Copies of files, in order.
pub(crate) fn copy_files(alloc: Global, files: &[LentBytes<'_>]) -> Result<Vec<Vec<u8>>, AllocError>
    ensures { IfOk result (λ copies. contents copies.items ≡ lent_contents files.now) }
{
    let mut copies = Vec::new(alloc);
    for file in files {
        let copy = copy_of(alloc, file.bytes)?;
        if copies.push(copy).is_err() {
            return Err(AllocError);
        }
    }
    Ok(copies)
}

/// A copy of some bytes.
fn copy_of(alloc: Global, bytes: &[u8]) -> Result<Vec<u8>, AllocError>
    ensures { IfOk result (λ copy. copy.items ≡ bytes.now) }
{
    let mut copy = Vec::with_capacity(alloc, bytes.len())?;
    copy.extend_from_slice(bytes)?;
    Ok(copy)
}

/// Copies as many items as a buffer holds to its start, and returns whether it holds all.
pub(crate) fn copy_to<T: Copy>(items: &[T], buffer: &mut [T]) -> bool
    ensures fits { result ≡ nat_le (length items.now) (length buffer.old) }
    ensures buffer { buffer.new ≡ filled items.now buffer.old }
{
    let count = items.len().min(buffer.len());
    buffer[..count].copy_from_slice(&items[..count]);
    items.len() <= buffer.len()
}
