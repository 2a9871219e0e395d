//! The heap calls of a tenant, which are entered in an array of the caller's.

ghost use Rattle.std.specs.Prelude.{◌≡◌, map};
ghost use Rattle.tombolopan_c.specs.LoneTenants.{call_told};

use arrayvec::ArrayVec;
use mte_svc::{AnsweredCall, HeapCalls, KEPT_CALLS};

/// A heap call of a tenant.
#[repr(C)]
#[derive(Clone, Copy, Default)]
pub struct KeptCall {
    /// The number of the service, 3 to 8.
    pub service: u64,
    /// x0.
    pub first: u64,
    /// x1, or 0 where the service has one argument.
    pub second: u64,
    /// Its result.
    pub answer: u64,
}

impl KeptCall {
    fn of(call: &AnsweredCall) -> KeptCall
        ensures { result ≡ call_told call.now }
    {
        let (first, second) = call.call.arguments();
        KeptCall {
            service: call.number(),
            first,
            second,
            answer: call.answer,
        }
    }
}

/// The calls that are kept, the oldest first.
pub(crate) fn told_calls(calls: &HeapCalls) -> ArrayVec<KeptCall, KEPT_CALLS>
    ensures { result.items ≡ map call_told calls.now.last }
{
    let mut told = ArrayVec::new();
    let mut i = 0;
    while i < calls.kept() {
        let Some(call) = calls.get(i) else {
            unreachable!();
        };
        told.push(KeptCall::of(&call));
        i += 1;
    }
    told
}
