//! The export that runs a tenant alone.

ghost use Rattle.std.specs.Prelude.{◌≡◌, length};
ghost use Rattle.tombolopan_c.specs.LoneTenants.{HasLived, record_end, buffers_after};

use crate::alone_end::AloneEnd;
use crate::codes::{NO_ROOM, OK};
use crate::kept_calls::{KeptCall, told_calls};
use crate::lent_bytes::copy_to;
use crate::lent_terms::LentTerms;
use mte_tenant::Record;
use std::alloc::Global;
use tombolopan::run_alone;

/// Runs a tenant alone for the given slices, and copies as much of its output and of its last 64
/// heap calls, the oldest first, as the buffers hold. OK where they hold all; NO_ROOM where they do
/// not: `end` says how many there are. REFUSED, where the tenant is not admitted for the reason
/// that `end` says, and OUT_OF_MEMORY, where an allocation failed, write nothing to the buffers.
#[unsafe(no_mangle)]
pub extern "C" fn tb_alone(
    alloc: Global,
    terms: &LentTerms<'_>,
    output: &mut [u8],
    calls: &mut [KeptCall],
    end: &mut AloneEnd,
) -> u32
    ensures code { result ≡ end.new.code }
    ensures lived { HasLived terms.now
        (record { output = output.old; calls = calls.old })
        (record { output = output.new; calls = calls.new }) end.new }
{
    *end = match run_alone(alloc, &terms.admission(), terms.slices) {
        Ok(log) => told(&log, output, calls),
        Err(obstacle) => AloneEnd::of_obstacle(obstacle),
    };
    end.code
}

/// Copies the output and the heap calls of a record, and returns what is reported of it.
pub(crate) fn told(log: &Record, output: &mut [u8], calls: &mut [KeptCall]) -> AloneEnd
    ensures end { result ≡ record_end log.now (length output.old) (length calls.old) }
    ensures buffers { (record { output = output.new; calls = calls.new })
        ≡ buffers_after log.now (record { output = output.old; calls = calls.old }) }
{
    let holds_output = copy_to(log.output.as_slice(), output);
    let holds_calls = copy_to(told_calls(&log.calls).as_slice(), calls);
    let code = if holds_output && holds_calls {
        OK
    } else {
        NO_ROOM
    };
    AloneEnd::of_record(code, log)
}
