//! Bytes of a chunk's last granule past its size, which no tag tells from those before.

use common::GRANULE_SIZE;
use heap_bounds::{Allocation, made_by};
use mte_svc::{AnsweredCall, HeapCalls};

/// Whether a chunk may have had bytes of its last granule past its size: one of the calls that are
/// kept asked for such a size, or there were more calls.
pub(crate) fn may_have_spare_bytes(calls: &HeapCalls) -> bool {
    if calls.count() > calls.kept() as u64 {
        return true;
    }
    for index in 0..calls.kept() {
        if calls.get(index).is_some_and(|call| has_spare_bytes(&call)) {
            return true;
        }
    }
    false
}

/// Whether a call made a chunk whose size is no multiple of a granule's.
fn has_spare_bytes(call: &AnsweredCall) -> bool {
    match made_by(call) {
        Some(Allocation { size, .. }) => size % GRANULE_SIZE != 0,
        None => false,
    }
}
