//! The operations on a heap and its memory, and their answers.

ghost use Rattle.std.specs.Prelude.{◌≡◌};
ghost use Rattle.tombolopan.specs.HeapAnswers.{of_call};

use mte_tags::MemFault;
use scudo_heap::{HeapAbort, HeapCall};

/// A call of a heap, or an access to its memory. An address has its tag in bits 59:56.
#[derive(Clone, Copy)]
pub enum HeapOp {
    /// A heap call.
    Call(HeapCall),
    /// A checked read of eight bytes, the lowest first.
    Load { addr: u64 },
    /// A checked write of eight bytes, the lowest first.
    Store { addr: u64, value: u64 },
    /// The allocation tag of a granule.
    LoadTag { addr: u64 },
}

/// The answer of an operation. One that aborts or faults has changed nothing.
#[derive(Clone, Copy, PartialEq, Eq)]
pub enum HeapAnswer {
    /// The pointer to the chunk or 0 where there is none, the size, the number that was read or the
    /// tag; 0 of a free and of a store.
    Value(u64),
    /// A check of the pointer that was handed to the heap failed.
    Abort(HeapAbort),
    /// The access failed.
    Fault(MemFault),
}

impl HeapAnswer {
    /// The answer of a heap call.
    pub(crate) fn of_call(outcome: Result<u64, HeapAbort>) -> HeapAnswer
        ensures answer { result ≡ of_call outcome }
    {
        match outcome {
            Ok(value) => HeapAnswer::Value(value),
            Err(abort) => HeapAnswer::Abort(abort),
        }
    }
}
