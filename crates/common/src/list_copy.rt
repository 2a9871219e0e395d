//! A copy of a list that keeps its capacity.

ghost use Rattle.std.specs.Prelude.{◌≡◌, IfOk, vec_len, vec_capacity};

use std::alloc::{AllocError, Global};

/// A copy of a list, with memory for just as many elements. It is refused only where its memory is.
pub fn copy_list<T: Copy>(alloc: Global, list: &Vec<T>) -> Result<Vec<T>, AllocError>
    ensures items { IfOk result (λ copy. copy.items ≡ list.now.items) }
    ensures len { IfOk result (λ copy. vec_len copy ≡ vec_len list.now) }
    ensures capacity { IfOk result (λ copy. vec_capacity copy ≡ vec_capacity list.now) }
{
    let mut copy = Vec::with_capacity(alloc, list.capacity())?;
    for item in list.as_slice() {
        copy.push_reserved(*item);
    }
    Ok(copy)
}
