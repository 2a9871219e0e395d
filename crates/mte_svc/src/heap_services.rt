//! The services of the heap.

ghost use Rattle.std.specs.Prelude.{◌≡◌};
ghost use Rattle.mte_svc.specs.Ready.{IsReady};
ghost use Rattle.mte_svc.specs.HeapServices.{after_heap_service};

use crate::calls::AnsweredCall;
use crate::parts::TenantParts;
use crate::services::SvcEnd;
use mte_tags::{Paged, Tagged};
use scudo_heap::HeapCall;

/// Makes a call of the tenant's heap, and enters it where it is answered. One that aborts names x0
/// as its pointer.
pub(crate) fn call_heap<M: Paged>(parts: &mut TenantParts, memory: &mut M, call: HeapCall) -> SvcEnd
    requires ready { IsReady parts.old (M.Tagged.memory memory.old) }
    ensures served { record { parts = parts.new; memory = M.Tagged.memory memory.new; end = result }
        ≡ after_heap_service parts.old (M.Tagged.memory memory.old) call }
    ensures ready { IsReady parts.new (M.Tagged.memory memory.new) }
    ensures kept { M.Tagged.kept memory.old memory.new }
{
    let pointer = parts.regs.x[0];
    match parts.heap.call(&mut parts.regs.rgsr, memory, call) {
        Ok(answer) => {
            parts.enter(AnsweredCall { call, answer });
            SvcEnd::Resume
        }
        Err(abort) => SvcEnd::Abort(abort, pointer),
    }
}
