//! A heap call whose arguments may be answers of earlier calls, in a list that the caller lends.

ghost use Rattle.std.specs.Prelude.{◌≡◌};
ghost use Rattle.tombolopan_c.specs.HeapReplays.{argument_of, resolved_call, with_call};
ghost use Rattle.tombolopan_c.specs.HeapReplays.{is_reference, is_step, first_bad, bad_from};

use crate::codes::{FREE, OK, STORE};
use crate::lent_heap::LentHeapCall;

/// A call of a heap. An argument with a reference is the sum of what stands there and of the answer
/// of that call, modulo 2^64.
#[repr(C)]
#[derive(Clone, Copy)]
pub struct HeapStep {
    /// The call and its answer; `first` and `second` stay as they are.
    pub call: LentHeapCall,
    /// 0, or the number of the earlier call whose answer is added to `first`, from 1 on.
    pub first_of: u32,
    /// 0, or the number of the earlier call whose answer is added to `second`, from 1 on.
    pub second_of: u32,
}

/// An argument of a step in a list; none where the call that it refers to gave no answer.
#[inline(always)]
fn argument(steps: &[HeapStep], of: u32, own: u64) -> Option<u64>
    ensures { result ≡ argument_of steps.now of own }
{
    if of == 0 {
        return Some(own);
    }
    match steps.get(of as usize - 1) {
        Some(step) if step.call.code == OK => Some(own.wrapping_add(step.call.answer)),
        _ => None,
    }
}

/// Whether a reference of the step `at` is to an earlier call that gives an answer, or none.
fn may_refer(steps: &[HeapStep], at: usize, of: u32) -> bool
    ensures { result ≡ is_reference steps.now at of }
{
    if of == 0 {
        return true;
    }
    match steps.get(of as usize - 1) {
        Some(step) => of as usize <= at && step.call.op != FREE && step.call.op != STORE,
        None => false,
    }
}

impl HeapStep {
    /// The call with what its references add; none where a call that it refers to gave no answer.
    #[inline(always)]
    pub(crate) fn resolved(&self, steps: &[HeapStep]) -> Option<LentHeapCall>
        ensures { result ≡ resolved_call steps.now self.now }
    {
        let first = argument(steps, self.first_of, self.call.first)?;
        let second = argument(steps, self.second_of, self.call.second)?;
        Some(LentHeapCall {
            first,
            second,
            ..self.call
        })
    }

    /// This step with the answer of a call.
    #[inline(always)]
    pub(crate) fn with(&self, made: &LentHeapCall) -> HeapStep
        ensures { result ≡ with_call self.now made.now }
    {
        let call = LentHeapCall {
            code: made.code,
            answer: made.answer,
            fault: made.fault,
            ..self.call
        };
        HeapStep { call, ..*self }
    }

    /// Whether it is an operation, with references to earlier calls that give answers.
    fn is_good(&self, steps: &[HeapStep], at: usize) -> bool
        ensures { result ≡ is_step steps.now at self.now }
    {
        self.call.op().is_some()
            && may_refer(steps, at, self.first_of)
            && may_refer(steps, at, self.second_of)
    }
}

/// The number of the first step that is none, from 1 on, or 0.
pub(crate) fn find_bad(steps: &[HeapStep]) -> u64
    ensures { result ≡ first_bad steps.now }
{
    for (i, step) in steps.iter().enumerate() {
        if !step.is_good(steps, i) {
            return i as u64 + 1;
        }
    }
    0
}
