//! A heap's setup and its calls, which the caller lends.

ghost use Rattle.std.specs.Prelude.{◌≡◌, ◌<◌, ◌≤◌, true};
ghost use Rattle.tombolopan_c.specs.HeapCalls.{is_setup, mode_of, rgsr_of};
ghost use Rattle.tombolopan_c.specs.HeapCalls.{op_of, with_heap_answer, with_bad_argument};

use crate::codes::{
    ABORT, BAD_ARGUMENT, CALLOC, FAULT, FREE, LOAD, LOAD_TAG, MALLOC, MEMALIGN, OK, REALLOC, STORE,
    USABLE_SIZE,
};
use crate::faults::FaultReport;
use crate::refusal_codes::code_of_abort;
use common::MAX_PAGES;
use mte_tags::{Rgsr, TagMode};
use scudo_heap::HeapCall;
use tombolopan::{HeapAnswer, HeapOp};

/// The start of a heap and its memory.
#[repr(C)]
#[derive(Clone, Copy)]
pub struct HeapSetup {
    /// The number from which the checksums of the headers start.
    pub cookie: u32,
    /// The most pages that are mapped at once, 1 to 4096.
    pub pages: u32,
    /// Any number but 0 chooses the asynchronous mode.
    pub asynchronous: u32,
    /// The seed of the random tags.
    pub rgsr_seed: u16,
    /// The tag that was drawn last; the low four bits count.
    pub rgsr_tag: u16,
}

/// A call of a heap, or an access to its memory, and what it answered.
#[repr(C)]
#[derive(Clone, Copy)]
pub struct LentHeapCall {
    /// From MALLOC to LOAD_TAG.
    pub op: u32,
    /// OK, FAULT or ABORT, or BAD_ARGUMENT where `op` is none.
    pub code: u32,
    /// The first argument: a size, a pointer, an address, a number of elements or an alignment.
    pub first: u64,
    /// The second argument: the size of CALLOC, REALLOC and MEMALIGN, what STORE stores.
    pub second: u64,
    /// The pointer, the size, the number or the tag; of ABORT why, from MISALIGNED on.
    pub answer: u64,
    /// The fault of FAULT; else zero.
    pub fault: FaultReport,
}

impl HeapSetup {
    /// Whether a heap can begin with it.
    pub(crate) fn is_in_range(&self) -> bool
        ensures { result ≡ is_setup self.now }
    {
        0 < self.pages && u64::from(self.pages) <= MAX_PAGES
    }

    pub(crate) fn mode(&self) -> TagMode
        ensures { result ≡ mode_of self.now }
    {
        if self.asynchronous == 0 {
            TagMode::Sync
        } else {
            TagMode::Async
        }
    }

    pub(crate) fn rgsr(&self) -> Rgsr
        ensures rgsr { result ≡ rgsr_of self.now }
        ensures tag { result.tag < 16 }
    {
        Rgsr {
            tag: (self.rgsr_tag % 16) as u8,
            seed: self.rgsr_seed,
        }
    }
}

impl LentHeapCall {
    /// The operation that it asks for.
    pub(crate) fn op(&self) -> Option<HeapOp>
        ensures { result ≡ op_of self.now }
    {
        let (first, second) = (self.first, self.second);
        match self.op {
            MALLOC => Some(HeapOp::Call(HeapCall::Malloc { size: first })),
            FREE => Some(HeapOp::Call(HeapCall::Free { pointer: first })),
            CALLOC => Some(HeapOp::Call(HeapCall::Calloc {
                count: first,
                size: second,
            })),
            REALLOC => Some(HeapOp::Call(HeapCall::Realloc {
                pointer: first,
                size: second,
            })),
            MEMALIGN => Some(HeapOp::Call(HeapCall::Memalign {
                alignment: first,
                size: second,
            })),
            USABLE_SIZE => Some(HeapOp::Call(HeapCall::UsableSize { pointer: first })),
            LOAD => Some(HeapOp::Load { addr: first }),
            STORE => Some(HeapOp::Store {
                addr: first,
                value: second,
            }),
            LOAD_TAG => Some(HeapOp::LoadTag { addr: first }),
            _ => None,
        }
    }

    /// This call with its answer filled in.
    pub(crate) fn with(&self, answer: &HeapAnswer) -> LentHeapCall
        ensures { result ≡ with_heap_answer self.now answer.now }
    {
        let (code, value, fault) = match answer {
            HeapAnswer::Value(value) => (OK, *value, FaultReport::none()),
            HeapAnswer::Abort(abort) => (ABORT, code_of_abort(*abort), FaultReport::none()),
            HeapAnswer::Fault(fault) => (FAULT, 0, FaultReport::of(fault)),
        };
        LentHeapCall {
            code,
            answer: value,
            fault,
            ..*self
        }
    }

    /// This call, marked as having no operation.
    pub(crate) fn without_op(&self) -> LentHeapCall
        ensures { result ≡ with_bad_argument self.now }
    {
        LentHeapCall {
            code: BAD_ARGUMENT,
            answer: 0,
            fault: FaultReport::none(),
            ..*self
        }
    }
}
