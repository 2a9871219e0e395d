//! The effect of a heap call on chunks.

ghost use Rattle.std.specs.Prelude.{◌≡◌};
ghost use Rattle.heap_bounds.specs.Chunks.{returned_chunk, ended_chunk};

use a64_bits::plain;
use mte_svc::AnsweredCall;
use scudo_heap::HeapCall;

/// A chunk as a heap call returned it.
#[derive(Clone, Copy)]
pub struct Allocation {
    /// The pointer, with the chunk's tag.
    pub pointer: u64,
    /// The bytes that were asked for.
    pub size: u64,
}

/// The chunk that a call returned, if it returned one.
pub fn made_by(call: &AnsweredCall) -> Option<Allocation>
    ensures { result ≡ returned_chunk call.now }
{
    let size = match call.call {
        HeapCall::Malloc { size }
        | HeapCall::Realloc { size, .. }
        | HeapCall::Memalign { size, .. } => size,
        HeapCall::Calloc { count, size } => count.wrapping_mul(size),
        HeapCall::Free { .. } | HeapCall::UsableSize { .. } => return None,
    };
    if call.answer == 0 {
        return None;
    }
    Some(Allocation {
        pointer: call.answer,
        size,
    })
}

/// The plain address of the chunk that a call freed, or gave another size.
pub fn freed_by(call: &AnsweredCall) -> Option<u64>
    ensures { result ≡ ended_chunk call.now }
{
    match call.call {
        HeapCall::Free { pointer } => Some(plain(pointer)),
        HeapCall::Realloc { pointer, size } if call.answer != 0 || size == 0 => {
            Some(plain(pointer))
        }
        _ => None,
    }
}
