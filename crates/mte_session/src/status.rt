//! The line of a tenant's status.

ghost use Rattle.std.specs.Prelude.{◌≡◌};
ghost use Rattle.mte_svc.specs.declared.record.Status.TheVariants.{Exited, Faulted, Illegal};
ghost use Rattle.mte_svc.specs.declared.record.Status.TheVariants.{Breakpoint, AsyncTag, Aborted};
ghost use Rattle.mte_streams.specs.Writing.{Writes};
ghost use Rattle.mte_session.specs.Report.{access_name, status_line};

use crate::text::{eight_hex, sixteen_hex, write_parts};
use itoa::Buffer;
use mte_sched::Status;
use mte_streams::{Sink, WriteFault};
use mte_tags::MemFault;
use scudo_heap::HeapAbort;

/// Writes the line of a status.
pub fn write_status_line<W: Sink>(out: &mut W, status: &Status) -> Result<(), WriteFault>
    ensures { Writes (W.log out.old) (W.log out.new) result (status_line status.now) }
{
    match status {
        Status::Running => write_parts(out, &[b"status ", b"running", b"\n"]),
        Status::Stopped => write_parts(out, &[b"status ", b"stopped", b"\n"]),
        Status::Exited(code) => write_exit_line(out, *code),
        Status::Faulted(fault, pc) => write_fault_line(out, fault, *pc),
        Status::Illegal(word, pc) => write_illegal_line(out, *word, *pc),
        Status::Breakpoint(number, pc) => write_break_line(out, *number, *pc),
        Status::AsyncTag(pc) => write_async_line(out, *pc),
        Status::Aborted(abort, pointer, pc) => write_abort_line(out, *abort, *pointer, *pc),
    }
}

/// Writes the line of a tenant that exited.
fn write_exit_line<W: Sink>(out: &mut W, code: u8) -> Result<(), WriteFault>
    ensures { Writes (W.log out.old) (W.log out.new) result (status_line (Exited code)) }
{
    let mut digits = Buffer::new();
    let code = digits.format(u64::from(code)).as_bytes();
    write_parts(out, &[b"status ", b"exit ", code, b"\n"])
}

/// Writes the line of a fault.
fn write_fault_line<W: Sink>(out: &mut W, fault: &MemFault, pc: u64) -> Result<(), WriteFault>
    ensures { Writes (W.log out.old) (W.log out.new) result (status_line (Faulted fault.now pc)) }
{
    let mut pointer = Buffer::new();
    let pointer = pointer.format(u64::from(fault.ptr_tag)).as_bytes();
    let mut memory = Buffer::new();
    let memory = memory.format(u64::from(fault.mem_tag)).as_bytes();
    write_parts(
        out,
        &[
            b"status ",
            b"fault ",
            fault.kind.name().as_bytes(),
            b" ",
            access_text(fault.write),
            b" addr 0x",
            &sixteen_hex(fault.addr),
            b" ptr ",
            pointer,
            b" mem ",
            memory,
            b" pc 0x",
            &sixteen_hex(pc),
            b"\n",
        ],
    )
}

/// Writes the line of an illegal word.
fn write_illegal_line<W: Sink>(out: &mut W, word: u32, pc: u64) -> Result<(), WriteFault>
    ensures { Writes (W.log out.old) (W.log out.new) result (status_line (Illegal word pc)) }
{
    write_parts(
        out,
        &[
            b"status ",
            b"illegal 0x",
            &eight_hex(word),
            b" pc 0x",
            &sixteen_hex(pc),
            b"\n",
        ],
    )
}

/// Writes the line of a breakpoint.
fn write_break_line<W: Sink>(out: &mut W, number: u16, pc: u64) -> Result<(), WriteFault>
    ensures { Writes (W.log out.old) (W.log out.new) result (status_line (Breakpoint number pc)) }
{
    let mut digits = Buffer::new();
    let number = digits.format(u64::from(number)).as_bytes();
    write_parts(
        out,
        &[
            b"status ",
            b"break ",
            number,
            b" pc 0x",
            &sixteen_hex(pc),
            b"\n",
        ],
    )
}

/// Writes the line of a tag that differed in the asynchronous mode.
fn write_async_line<W: Sink>(out: &mut W, pc: u64) -> Result<(), WriteFault>
    ensures { Writes (W.log out.old) (W.log out.new) result (status_line (AsyncTag pc)) }
{
    write_parts(out, &[b"status ", b"async pc 0x", &sixteen_hex(pc), b"\n"])
}

/// Writes the line of a heap call that aborted.
fn write_abort_line<W: Sink>(
    out: &mut W,
    abort: HeapAbort,
    pointer: u64,
    pc: u64,
) -> Result<(), WriteFault>
    ensures { Writes (W.log out.old) (W.log out.new) result
        (status_line (Aborted abort pointer pc)) }
{
    write_parts(
        out,
        &[
            b"status ",
            b"abort ",
            abort.name().as_bytes(),
            b" ptr 0x",
            &sixteen_hex(pointer),
            b" pc 0x",
            &sixteen_hex(pc),
            b"\n",
        ],
    )
}

/// The name of an access: a write or a read.
fn access_text(write: bool) -> &'static [u8]
    ensures { result.now ≡ access_name write }
{
    if write { b"write" } else { b"read" }
}
