//! The lines of a tenant's heap calls.

ghost use Rattle.std.specs.Prelude.{◌≡◌, map};
ghost use Rattle.std.specs.List.{concat};
ghost use Rattle.mte_streams.specs.Writing.{Writes};
ghost use Rattle.mte_session.specs.Report.{calls_text, call_line};

use crate::report::write_number_line;
use crate::text::{sixteen_hex, write_parts};
use mte_streams::{Sink, WriteFault};
use mte_svc::{AnsweredCall, HeapCalls};

/// Writes how many heap calls there were, and those that are kept.
pub fn write_calls<W: Sink>(out: &mut W, calls: &HeapCalls) -> Result<(), WriteFault>
    ensures { Writes (W.log out.old) (W.log out.new) result (calls_text calls.now) }
{
    write_number_line(out, b"heap ", calls.count())?;
    write_kept_calls(out, calls)
}

/// Writes the heap calls that are kept, the oldest first.
fn write_kept_calls<W: Sink>(out: &mut W, calls: &HeapCalls) -> Result<(), WriteFault>
    ensures { Writes (W.log out.old) (W.log out.new) result
        (concat (map call_line calls.now.last)) }
{
    let mut i = 0;
    while i < calls.kept() {
        let Some(call) = calls.get(i) else {
            unreachable!();
        };
        write_call(out, &call)?;
        i += 1;
    }
    Ok(())
}

/// Writes a heap call.
#[tactic(auto, unfolding(crate::specs::Report::call_line))]
fn write_call<W: Sink>(out: &mut W, call: &AnsweredCall) -> Result<(), WriteFault>
    ensures { Writes (W.log out.old) (W.log out.new) result (call_line call.now) }
{
    let (first, second) = call.call.arguments();
    write_parts(
        out,
        &[
            b"call ",
            call.call.name().as_bytes(),
            b" 0x",
            &sixteen_hex(first),
            b" 0x",
            &sixteen_hex(second),
            b" = 0x",
            &sixteen_hex(call.answer),
            b"\n",
        ],
    )
}
