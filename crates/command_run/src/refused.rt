//! Requests for more than a chunk may have, which the heap refuses.

use mte_report::requested_bytes;
use mte_svc::HeapCalls;
use scudo_heap::MAX_REQUEST;

/// The largest request for more than a chunk may have, of the calls that are kept, if there is one.
pub(crate) fn refused_bytes(calls: &HeapCalls) -> Option<u64> {
    let mut most = MAX_REQUEST;
    for index in 0..calls.kept() {
        if let Some(answered) = calls.get(index) {
            most = most.max(requested_bytes(answered.call));
        }
    }
    if most > MAX_REQUEST { Some(most) } else { None }
}
