//! The report of a tenant as JSON (RFC 8259). Numbers of 64 bits are texts in hexadecimal.

use crate::document::Document;
use a64_registers::Regs;
use heap_bounds::CallText;
use mte_backtrace::Quoted;
use mte_flat::Flat;
use mte_report::{Context, Explanation, Report};
use mte_svc::Status;
use mte_tags::MemFault;
use run_cause::{Cause, CountedFinding, Finding};
use run_records::{BookChunk, BookEntry, Nzcv, Object};
use std::alloc::Global;
use std::io::Write;
use std::{fmt, io};
use tenant_map::{GRANULES, Letters, MappedPages, first_granule, page_map, tag_at};

impl<'a> Document<'a> {
    /// Writes it as one object of JSON.
    pub fn write_json<W: Write>(&self, out: &mut W, memory: &mut Flat) -> io::Result<()> {
        let explanation = self.report.explain(self.alloc, memory)?;
        write_run(out, self.report, self.exit_status)?;
        write_explained(self.alloc, out, self.report, &explanation, memory)
    }
}

/// Writes what was run.
fn write_run<W: Write>(out: &mut W, report: &Report<'_>, exit_status: u8) -> io::Result<()> {
    let (image, steps) = (Quoted(report.image), report.step());
    writeln!(out, "{{\"format\":\"tombolopan run 1\",")?;
    writeln!(out, "\"image\":{image},")?;
    if let Some(seed) = report.seed {
        writeln!(out, "\"seed\":\"{seed:016x}\",")?;
    }
    writeln!(out, "\"exit_status\":{exit_status},\n\"steps\":{steps},")?;
    let is_cut = report.is_cut;
    writeln!(out, "\"output_cut\":{is_cut},")?;
    if let Some(table) = report.statistics {
        let object = Object(table);
        writeln!(out, "\"statistics\":{object},")?;
    }
    Ok(())
}

/// Writes what happened, by what is known of the end.
fn write_explained<W: Write>(
    alloc: Global,
    out: &mut W,
    report: &Report<'_>,
    explanation: &Explanation<'_>,
    memory: &mut Flat,
) -> io::Result<()> {
    let context = Context {
        alloc,
        report,
        names: &explanation.names,
    };
    write_end(out, report, explanation)?;
    write_cause(out, &context, explanation)?;
    write_findings(alloc, out, report)?;
    write_store(out, &context)?;
    write_registers(out, report.regs())?;
    write_tags(out, report.address(), memory)?;
    write_pages(alloc, out, memory)?;
    writeln!(out, "}}")?;
    out.flush()
}

/// Writes how it ended, and the calls that led there.
fn write_end<W: Write>(
    out: &mut W,
    report: &Report<'_>,
    explanation: &Explanation<'_>,
) -> io::Result<()> {
    write_status(out, report)?;
    write!(out, "\"stack\":")?;
    explanation.stack.write_json(out, &explanation.names)?;
    explanation.stack.write_json_user(out, &explanation.names)?;
    writeln!(out, ",")
}

/// Writes how it ended.
fn write_status<W: Write>(out: &mut W, report: &Report<'_>) -> io::Result<()> {
    match report.finding {
        Some(finding) => {
            let object = FindingObject(finding);
            writeln!(out, "\"status\":{object},")
        }
        None => {
            let object = StatusObject(&report.parts.history.status);
            writeln!(out, "\"status\":{object},")
        }
    }
}

/// Writes the cause, and the chunks that it names.
fn write_cause<W: Write>(
    out: &mut W,
    context: &Context<'_>,
    explanation: &Explanation<'_>,
) -> io::Result<()> {
    match &explanation.cause {
        Some(cause) => write_judged(out, context, cause),
        None => writeln!(out, "\"cause\":null,\n\"chunks\":[],"),
    }
}

/// Writes a cause, and the chunks that it names.
fn write_judged<W: Write>(out: &mut W, context: &Context<'_>, cause: &Cause) -> io::Result<()> {
    let found = context.report.found(cause);
    let text = format!(in context.alloc; "{found}")?;
    let text = Quoted(text.as_str());
    writeln!(out, "\"cause\":{text},")?;
    write!(out, "\"chunks\":[")?;
    write_chunks(out, context, cause)?;
    writeln!(out, "],")
}

/// Writes what was found in a run that went on after it, where that is requested.
fn write_findings<W: Write>(alloc: Global, out: &mut W, report: &Report<'_>) -> io::Result<()> {
    if report.findings.is_none() {
        return Ok(());
    }
    write!(out, "\"findings\":[")?;
    let mut front = "";
    for place in report.found_places() {
        write!(out, "{front}")?;
        write_place(alloc, out, report, place)?;
        front = ",";
    }
    writeln!(out, "],")
}

/// Writes what was found at a place.
fn write_place<'a, W: Write>(
    alloc: Global,
    out: &mut W,
    report: &Report<'a>,
    place: &'a CountedFinding,
) -> io::Result<()> {
    let explanation = report.explain_found(alloc, place)?;
    let (status, count, step) = (
        FindingObject(&place.finding),
        place.count,
        place.finding.step,
    );
    write!(
        out,
        "{{\"status\":{status},\"count\":{count},\"step\":{step},"
    )?;
    let report = report.at_finding(place);
    let found = report.found(&place.cause);
    let text = format!(in alloc; "{found}")?;
    let text = Quoted(text.as_str());
    write!(out, "\"cause\":{text},\"stack\":")?;
    explanation.stack.write_json(out, &explanation.names)?;
    explanation.stack.write_json_user(out, &explanation.names)?;
    write!(out, "}}")
}

/// Writes what wrote the target last of a jump to no code, where it is known, and the calls that
/// led to it.
fn write_store<W: Write>(out: &mut W, context: &Context<'_>) -> io::Result<()> {
    let Some(store) = context.report.store else {
        return Ok(());
    };
    let (addr, step) = (store.addr, store.step);
    write!(
        out,
        "\"last_store\":{{\"address\":\"{addr:#x}\",\"step\":{step},\"stack\":"
    )?;
    let stack = context.report.stack_of_store(context.alloc, store)?;
    stack.write_json(out, context.names)?;
    stack.write_json_user(out, context.names)?;
    writeln!(out, "}},")
}

/// Writes the tags around an address, if there is one.
fn write_tags<W: Write>(out: &mut W, address: Option<u64>, memory: &mut Flat) -> io::Result<()> {
    let Some(addr) = address else {
        return writeln!(out, "\"tags\":null,");
    };
    let first = first_granule(addr);
    write!(out, "\"tags\":{{\"from\":\"{first:#x}\",\"tags\":[")?;
    for index in 0..2 * GRANULES {
        let comma = if index == 0 { "" } else { "," };
        write!(out, "{comma}")?;
        write_tag(out, tag_at(memory, first, index))?;
    }
    writeln!(out, "]}},")
}

/// Writes a granule's tag, or null.
fn write_tag<W: Write>(out: &mut W, tag: Option<u8>) -> io::Result<()> {
    match tag {
        Some(tag) => write!(out, "{tag}"),
        None => write!(out, "null"),
    }
}

/// Writes the chunks that a cause names.
fn write_chunks<W: Write>(out: &mut W, context: &Context<'_>, cause: &Cause) -> io::Result<()> {
    if let Some(chunk) = &cause.chunk {
        write_chunk(out, context, chunk)?;
    }
    if let Some(young) = &cause.young {
        write!(out, ",")?;
        write_chunk(out, context, young)?;
    }
    Ok(())
}

/// Writes a chunk, and the calls that made and freed it.
fn write_chunk<W: Write>(out: &mut W, context: &Context<'_>, chunk: &BookChunk) -> io::Result<()> {
    let (pointer, size) = (chunk.pointer, chunk.size);
    write!(
        out,
        "{{\"pointer\":\"{pointer:#x}\",\"size\":{size},\"allocated\":"
    )?;
    write_call(out, context, &chunk.made)?;
    write!(out, ",\"freed\":")?;
    match &chunk.freed {
        Some(entry) => write_call(out, context, entry)?,
        None => write!(out, "null")?,
    }
    write!(out, "}}")
}

/// Writes a heap call, and the calls that led to it.
fn write_call<W: Write>(out: &mut W, context: &Context<'_>, entry: &BookEntry) -> io::Result<()> {
    let (number, step) = (entry.number, entry.step);
    let (call, answer) = (CallText(entry.call.call), entry.call.answer);
    write!(
        out,
        "{{\"number\":{number},\"call\":\"{call}\",\"result\":\"{answer:#x}\","
    )?;
    write!(out, "\"step\":{step},\"stack\":")?;
    let stack = context.report.stack_of(context.alloc, entry)?;
    stack.write_json(out, context.names)?;
    stack.write_json_user(out, context.names)?;
    write!(out, "}}")
}

/// Writes the registers.
fn write_registers<W: Write>(out: &mut W, regs: &Regs) -> io::Result<()> {
    write!(out, "\"registers\":{{\"x\":[")?;
    for (n, value) in regs.x.iter().enumerate() {
        let comma = if n == 0 { "" } else { "," };
        write!(out, "{comma}\"{value:#x}\"")?;
    }
    let Regs { sp, pc, .. } = regs;
    let flags = Nzcv(regs.flags);
    writeln!(
        out,
        "],\"sp\":\"{sp:#x}\",\"pc\":\"{pc:#x}\",\"flags\":\"{flags}\"}},"
    )
}

/// Writes the page map.
fn write_pages<W: Write>(alloc: Global, out: &mut W, memory: &mut Flat) -> io::Result<()> {
    let map = page_map(alloc, memory)?;
    write_map(out, map.as_slice())
}

/// Writes pages.
fn write_map<W: Write>(out: &mut W, map: &[MappedPages]) -> io::Result<()> {
    write!(out, "\"pages\":[")?;
    for (index, pages) in map.iter().enumerate() {
        let comma = if index == 0 { "" } else { "," };
        let pages = PagesObject(pages);
        write!(out, "{comma}{pages}")?;
    }
    writeln!(out, "]")
}

/// Pages one after another.
#[derive(Clone, Copy)]
struct PagesObject<'a>(&'a MappedPages);

impl<'a> fmt::Display for PagesObject<'a> {
    fn fmt<W: fmt::Write>(&self, f: &mut fmt::Formatter<W>) -> fmt::Result {
        let MappedPages { start, range, .. } = self.0;
        let (last, letters) = (self.0.end.wrapping_sub(1), Letters(self.0.attrs));
        write!(f, "{{\"first\":\"{start:#x}\",\"last\":\"{last:#x}\",")?;
        write!(f, "\"attributes\":\"{letters}\",\"use\":\"{range}\"}}")
    }
}

/// An access that a chunk's bounds forbid.
#[derive(Clone, Copy)]
struct FindingObject<'a>(&'a Finding);

impl<'a> fmt::Display for FindingObject<'a> {
    fn fmt<W: fmt::Write>(&self, f: &mut fmt::Formatter<W>) -> fmt::Result {
        let wrong = &self.0.wrong;
        let (violation, addr, span) = (&wrong.violation, wrong.addr, &wrong.span);
        let finder = violation.finder();
        let (first, bytes, write, pc) = (span.addr, span.bytes, span.is_write, self.0.before.pc);
        write!(
            f,
            "{{\"kind\":\"{finder}\",\"name\":\"{violation}\",\"address\":\"{addr:#x}\","
        )?;
        write!(
            f,
            "\"write\":{write},\"first\":\"{first:#x}\",\"bytes\":{bytes},\"pc\":\"{pc:#x}\"}}"
        )
    }
}

/// A status.
#[derive(Clone, Copy)]
struct StatusObject<'a>(&'a Status);

impl<'a> fmt::Display for StatusObject<'a> {
    fn fmt<W: fmt::Write>(&self, f: &mut fmt::Formatter<W>) -> fmt::Result {
        match self.0 {
            Status::Running => f.write_str("{\"kind\":\"running\"}"),
            Status::Stopped => f.write_str("{\"kind\":\"stopped\"}"),
            Status::Exited(code) => write!(f, "{{\"kind\":\"exit\",\"code\":{code}}}"),
            Status::Faulted(fault, pc) => write_fault(f, fault, *pc),
            Status::Illegal(word, pc) => {
                write!(
                    f,
                    "{{\"kind\":\"illegal\",\"word\":\"{word:#010x}\",\"pc\":\"{pc:#x}\"}}"
                )
            }
            Status::Breakpoint(number, pc) => {
                write!(
                    f,
                    "{{\"kind\":\"breakpoint\",\"number\":{number},\"pc\":\"{pc:#x}\"}}"
                )
            }
            Status::AsyncTag(pc) => write!(f, "{{\"kind\":\"async\",\"pc\":\"{pc:#x}\"}}"),
            Status::Aborted(abort, pointer, pc) => {
                write!(f, "{{\"kind\":\"abort\",\"name\":\"{abort}\",")?;
                write!(f, "\"pointer\":\"{pointer:#x}\",\"pc\":\"{pc:#x}\"}}")
            }
        }
    }
}

/// Writes an access that failed, of the instruction at an address.
fn write_fault<W: fmt::Write>(f: &mut fmt::Formatter<W>, fault: &MemFault, pc: u64) -> fmt::Result {
    let MemFault {
        kind,
        addr,
        write,
        ptr_tag,
        mem_tag,
    } = fault;
    write!(
        f,
        "{{\"kind\":\"fault\",\"name\":\"{kind:?}\",\"address\":\"{addr:#x}\","
    )?;
    write!(
        f,
        "\"write\":{write},\"pointer_tag\":{ptr_tag},\"memory_tag\":{mem_tag},"
    )?;
    write!(f, "\"pc\":\"{pc:#x}\"}}")
}
