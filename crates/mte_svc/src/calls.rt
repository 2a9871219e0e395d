//! The heap calls of a tenant.

ghost use Rattle.std.specs.Prelude.{◌≡◌, ◌+◌, [], ◌∷◌, ◌++◌, ◌≤◌, min, length, slice_get};
ghost use Rattle.std.specs.Prelude.{IfOk};
ghost use Rattle.mte_svc.specs.Calls.{heap_call_of, number_of, with_call};

use crate::services::{CALLOC, FREE, MALLOC, MEMALIGN, REALLOC, USABLE_SIZE};
use circular_buffer::HeapCircularBuffer;
use scudo_heap::HeapCall;
use std::alloc::{AllocError, Global};
use std::marker::Model;

/// How many of a tenant's heap calls are kept.
pub const KEPT_CALLS: usize = 64;

/// How many are kept in digits.
pub fn kept_calls_in_digits()
    ensures { KEPT_CALLS ≡ 64 }
{}

/// The heap call of a service, by its number and its arguments, x0 and x1; none where the service
/// is no call of the heap.
#[tactic(auto, unfolding(crate::specs::Calls::heap_call_of))]
pub fn heap_call(number: u64, first: u64, second: u64) -> Option<HeapCall>
    ensures { result ≡ heap_call_of number first second }
{
    match number {
        MALLOC => Some(HeapCall::Malloc { size: first }),
        FREE => Some(HeapCall::Free { pointer: first }),
        CALLOC => Some(HeapCall::Calloc {
            count: first,
            size: second,
        }),
        REALLOC => Some(HeapCall::Realloc {
            pointer: first,
            size: second,
        }),
        MEMALIGN => Some(HeapCall::Memalign {
            alignment: first,
            size: second,
        }),
        USABLE_SIZE => Some(HeapCall::UsableSize { pointer: first }),
        _ => None,
    }
}

/// A heap call that was answered.
#[derive(Clone, Copy)]
pub struct AnsweredCall {
    /// The call.
    pub call: HeapCall,
    /// Its answer.
    pub answer: u64,
}

impl AnsweredCall {
    /// The number of its service.
    pub fn number(self) -> u64
        ensures { result ≡ number_of self.call }
    {
        match self.call {
            HeapCall::Malloc { .. } => MALLOC,
            HeapCall::Free { .. } => FREE,
            HeapCall::Calloc { .. } => CALLOC,
            HeapCall::Realloc { .. } => REALLOC,
            HeapCall::Memalign { .. } => MEMALIGN,
            HeapCall::UsableSize { .. } => USABLE_SIZE,
        }
    }
}

/// The last 64 heap calls of a tenant, the oldest first, and how many there were; the count stops
/// at 2^64 - 1.
#[derive(Drop)]
pub struct HeapCalls {
    last: HeapCircularBuffer<AnsweredCall>,
    count: u64,
}

impl Model for HeapCalls {
    ghost use Rattle.mte_svc.specs.Calls.{Calls, coded_calls, calls_of, IsRoomy};

    ghost Value = { Calls };

    ghost coded = { coded_calls };

    ghost view = { calls_of };

    ghost invariant = { IsRoomy };
}

impl HeapCalls {
    /// No calls, with capacity for the last 64.
    pub fn new(alloc: Global) -> Result<HeapCalls, AllocError>
        ensures { IfOk result (λ calls. calls ≡ record { last = []; count = 0 }) }
    {
        let last = HeapCircularBuffer::with_capacity(alloc, KEPT_CALLS)?;
        Ok(HeapCalls { last, count: 0 })
    }

    /// A copy of the calls.
    #[tactic(auto, using(crate::proofs::KeptLemmas::both_kept))]
    pub fn copy(&self, alloc: Global) -> Result<HeapCalls, AllocError>
        ensures { IfOk result (λ calls. calls ≡ self.now) }
    {
        let mut last = HeapCircularBuffer::with_capacity(alloc, self.last.capacity())?;
        let (older, newer) = self.last.as_slices();
        last.extend_from_slice(older);
        last.extend_from_slice(newer);
        Ok(HeapCalls {
            last,
            count: self.count,
        })
    }

    /// How many calls there were.
    pub fn count(&self) -> u64
        ensures { result ≡ self.now.count }
    {
        self.count
    }

    /// How many calls are kept, at most 64.
    pub fn kept(&self) -> usize
        ensures count { result ≡ length self.now.last }
        ensures most { result ≤ 64 }
    {
        self.last.len()
    }

    /// The call at an index among those that are kept, the oldest first.
    pub fn get(&self, index: usize) -> Option<AnsweredCall>
        ensures { result ≡ slice_get self.now.last index }
    {
        self.last.get(index).copied()
    }

    /// Enters a call.
    #[tactic(auto, unfolding(crate::specs::Calls::with_call))]
    pub(crate) fn note(&mut self, call: AnsweredCall)
        ensures { self.new ≡ with_call self.old call }
    {
        self.last.push_back(call);
        self.count = self.count.saturating_add(1);
    }
}
