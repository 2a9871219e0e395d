//! A tenant's lines in the report.

ghost use Rattle.std.specs.Prelude.{◌≡◌, length};
ghost use Rattle.mte_streams.specs.Writing.{Writes};
ghost use Rattle.mte_session.specs.Report.{record_text, number_line, output_line, long_output_line};

use crate::calls::write_calls;
use crate::status::write_status_line;
use crate::text::{write_hex, write_parts};
use itoa::Buffer;
use mte_sched::Record;
use mte_streams::{Sink, WriteFault};

/// Writes a tenant's lines, from `tenant` to `end`. An error comes only where a write failed, and
/// then a prefix of the lines was written.
#[tactic(auto, unfolding(crate::specs::Report::record_text))]
pub fn write_report<W: Sink>(tenant: &Record, out: &mut W) -> Result<(), WriteFault>
    ensures { Writes (W.log out.old) (W.log out.new) result (record_text tenant.now) }
{
    write_number_line(out, b"tenant ", u64::from(tenant.id))?;
    write_status_line(out, &tenant.status)?;
    write_number_line(out, b"steps ", tenant.steps)?;
    write_output_line(out, tenant.output.as_slice())?;
    write_calls(out, &tenant.calls)?;
    write_parts(out, &[b"end", b"\n"])
}

/// Writes a line of a label and a number.
pub(crate) fn write_number_line<W: Sink>(
    out: &mut W,
    label: &[u8],
    number: u64,
) -> Result<(), WriteFault>
    ensures { Writes (W.log out.old) (W.log out.new) result (number_line label.now number) }
{
    let mut digits = Buffer::new();
    write_parts(out, &[label, digits.format(number).as_bytes(), b"\n"])
}

/// Writes how many bytes an output has, and the bytes in hexadecimal where there are some.
fn write_output_line<W: Sink>(out: &mut W, output: &[u8]) -> Result<(), WriteFault>
    ensures { Writes (W.log out.old) (W.log out.new) result (output_line output.now) }
{
    if output.is_empty() {
        return write_parts(out, &[b"output ", b"0", b"\n"]);
    }
    write_bytes_line(out, output)
}

/// Writes how many bytes an output has, and the bytes.
fn write_bytes_line<W: Sink>(out: &mut W, output: &[u8]) -> Result<(), WriteFault>
    ensures { Writes (W.log out.old) (W.log out.new) result (long_output_line output.now) }
{
    let mut digits = Buffer::new();
    let count = digits.format(output.len() as u64).as_bytes();
    write_parts(out, &[b"output ", count, b" "])?;
    write_hex(out, output)?;
    write_parts(out, &[b"\n"])
}
