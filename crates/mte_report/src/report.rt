//! The report of a tenant that did not exit, in words.

use crate::explanation::Explanation;
use crate::findings::FindingList;
use a64_access::AccessForm;
use a64_bits::plain;
use a64_decode::decode;
use a64_registers::Regs;
use circular_buffer::HeapCircularBuffer;
use elf_symbols::SymbolOffset;
use heap_bounds::RangeUse;
use mte_backtrace::{FrameNames, Names};
use mte_flat::Flat;
use mte_svc::{Status, TenantParts};
use mte_tags::{FaultKind, MemFault, Tagged};
use run_cause::{
    Cause, Evidence, Finding, ForbiddenAccess, LastStore, Violation, abort_words, breakpoint_words,
    family_of, fault_words, is_undefined,
};
use run_records::{
    Book, Bytes, ChunkOwner, ChunkQuery, Instruction, Moment, Nzcv, StatisticsTable, TraceLine,
    Turn, tell_turns,
};
use scudo_heap::HeapAbort;
use std::alloc::Global;
use std::io::Write;
use std::{fmt, io};
use tenant_map::{MappedPages, attrs_at, page_map, tell_tags};

/// A tenant that ran, and what was remembered of it.
#[derive(Clone, Copy)]
pub struct Report<'a> {
    /// All of its machine but the memory.
    pub parts: &'a TenantParts,
    /// Its heap calls.
    pub book: &'a Book,
    /// Its last instructions, the oldest first, where they were remembered.
    pub last: Option<&'a HeapCircularBuffer<Moment>>,
    /// How many of them are written.
    pub last_count: usize,
    /// Its last calls and returns, the oldest first, where they are requested.
    pub turns: Option<&'a HeapCircularBuffer<Turn>>,
    /// The steps that it could have.
    pub limit: u64,
    /// The names of its image's addresses.
    pub names: &'a Names<'a>,
    /// The name of its image's file.
    pub image: &'a str,
    /// Its seed, where it ran alone.
    pub seed: Option<u64>,
    /// The access that ended it beyond what its tags forbid, if one did.
    pub finding: Option<&'a Finding>,
    /// What was found, where the run went on after it.
    pub findings: Option<FindingList<'a>>,
    /// The store that wrote the target last of the jump to no code that ended it, if it is known.
    pub store: Option<&'a LastStore>,
    /// The numbers of the run, where they are requested.
    pub statistics: Option<StatisticsTable<'a>>,
    /// Whether it wrote more than there was room for.
    pub is_cut: bool,
}

impl<'a> Report<'a> {
    /// Writes the numbers of the run, where they are requested.
    pub fn write_statistics<W: Write>(&self, out: &mut W) -> io::Result<()> {
        if let Some(table) = &self.statistics {
            write!(out, "mte_run: {table}")?;
        }
        out.flush()
    }

    /// Writes what happened, the cause first.
    pub fn write<W: Write>(&self, alloc: Global, out: &mut W, memory: &mut Flat) -> io::Result<()> {
        write!(out, "mte_run: ")?;
        tell_status(out, self, memory)?;
        let explanation = self.explain(alloc, memory)?;
        self.write_explained(alloc, out, &explanation, memory)
    }

    /// Writes what happened after the line of the status, by what is known of the end.
    fn write_explained<W: Write>(
        &self,
        alloc: Global,
        out: &mut W,
        explanation: &Explanation<'_>,
        memory: &mut Flat,
    ) -> io::Result<()> {
        self.tell_calls(alloc, out, explanation)?;
        tell_place(out, self, memory)?;
        self.write_machine(alloc, out, memory, &explanation.names)?;
        self.tell_symbolizer(alloc, out, explanation)?;
        out.flush()
    }

    /// The most likely cause, where a fault or a refused pointer ended it.
    pub(crate) fn cause(&self) -> Option<Cause> {
        if let Some(finding) = self.finding {
            return Some(Cause::of_wrong(self.book, &finding.wrong));
        }
        match self.parts.history.status {
            Status::Faulted(_, _) | Status::Aborted(_, _, _) => {
                Some(Cause::of(&self.evidence(), &self.parts.history))
            }
            _ => None,
        }
    }

    /// The evidence for its cause.
    fn evidence(&self) -> Evidence<'a> {
        Evidence {
            book: self.book,
            regs: &self.parts.regs,
            last: self.last,
        }
    }

    /// The registers before the instruction that ended it.
    pub fn regs(&self) -> &'a Regs {
        match self.finding {
            Some(finding) => &finding.before,
            None => &self.parts.regs,
        }
    }

    /// The registers after the last instruction that is written.
    fn after(&self) -> &'a Regs {
        match self.finding {
            Some(finding) => &finding.after,
            None => &self.parts.regs,
        }
    }

    /// The number of the instruction that ended it.
    pub fn step(&self) -> u64 {
        match self.finding {
            Some(finding) => finding.step,
            None => self.parts.history.steps,
        }
    }

    /// The plain address that the status names, if it names one.
    pub fn address(&self) -> Option<u64> {
        if let Some(finding) = self.finding {
            return finding.wrong.place();
        }
        match self.parts.history.status {
            Status::Faulted(fault, _) => Some(fault.addr),
            Status::Aborted(_, pointer, _) => Some(plain(pointer)),
            _ => None,
        }
    }

    /// Writes the last instructions, the registers and the pages.
    fn write_machine<W: Write>(
        &self,
        alloc: Global,
        out: &mut W,
        memory: &mut Flat,
        names: &FrameNames<'_>,
    ) -> io::Result<()> {
        tell_instruction(out, self.here(), memory)?;
        if let Some(turns) = self.turns {
            tell_turns(out, turns, names)?;
        }
        if let Some(last) = self.last {
            tell_last(out, last, self.last_count, self.after())?;
        }
        tell_registers(out, self.regs())?;
        tell_pages(alloc, out, memory)
    }

    /// The next instruction's address.
    pub(crate) fn here(&self) -> At<'a> {
        self.at(self.regs().pc)
    }

    /// An address, at the place of the instruction that ended it.
    fn at(&self, pc: u64) -> At<'a> {
        let place = self.names.symbols.place(self.regs().pc);
        At { pc, place }
    }
}

/// An instruction's address and its place.
#[derive(Clone, Copy)]
pub(crate) struct At<'a> {
    pc: u64,
    place: SymbolOffset<'a>,
}

/// The event that ended it.
fn tell_status<W: Write>(out: &mut W, report: &Report<'_>, memory: &mut Flat) -> io::Result<()> {
    if let Some(finding) = report.finding {
        return tell_wrong(out, &finding.wrong, report.here());
    }
    match &report.parts.history.status {
        Status::Exited(code) => writeln!(out, "it exited with {code}"),
        Status::Faulted(fault, pc) => {
            let size = size_of_access(memory, report.regs(), fault.addr);
            tell_fault(out, fault, size, report.at(*pc))
        }
        Status::Illegal(word, pc) => tell_illegal(out, *word, report.at(*pc)),
        Status::Breakpoint(number, pc) => tell_breakpoint(out, *number, report.at(*pc)),
        Status::AsyncTag(pc) => tell_async(out, *pc),
        Status::Aborted(abort, pointer, pc) => { tell_abort(out, *abort, *pointer, report.at(*pc)) }
        Status::Running => tell_running(out, report),
        Status::Stopped => writeln!(out, "stopped"),
    }
}

impl<'a> fmt::Display for At<'a> {
    fn fmt<W: fmt::Write>(&self, f: &mut fmt::Formatter<W>) -> fmt::Result {
        write!(f, "{:#018x}{}", self.pc, self.place)
    }
}

/// An access that a chunk's bounds forbid, of the instruction at an address.
pub(crate) fn tell_wrong<W: Write>(
    out: &mut W,
    wrong: &ForbiddenAccess,
    at: At<'_>,
) -> io::Result<()> {
    let (addr, first) = (wrong.addr, plain(wrong.span.addr));
    let (finder, why) = (wrong.violation.finder(), wrong.violation.words());
    if matches!(wrong.violation, Violation::Undefined(_)) {
        writeln!(
            out,
            "{finder}: the instruction at {at} uses bits that were never given a value:"
        )?;
        return writeln!(out, "  {why} depends on them");
    }
    if matches!(
        wrong.violation,
        Violation::Arithmetic(_) | Violation::Argument(_)
    ) {
        return writeln!(out, "{finder}: the instruction at {at} {why}");
    }
    if wrong.violation.is_free() {
        let pointer = wrong.span.addr;
        return writeln!(
            out,
            "{finder}: a free of {pointer:#018x} by the instruction at {at}: {why}"
        );
    }
    let access = Accessing(wrong.span.is_write, AccessSize(Some(wrong.span.bytes)));
    write!(
        out,
        "{finder}: a {access} from {first:#018x} by the instruction at {at}: "
    )?;
    writeln!(out, "the byte at {addr:#018x} {why}")
}

/// How many bytes the instruction at PC accesses, where the first is the one at a plain address.
fn size_of_access(memory: &mut Flat, regs: &Regs, addr: u64) -> AccessSize {
    let Ok(word) = memory.fetch(regs.pc) else {
        return AccessSize(None);
    };
    AccessSize(
        decode(word)
            .and_then(|instr| AccessForm::of(&instr))
            .filter(|form| form.is_of_registers() && plain(form.addr(regs)) == addr)
            .map(|form| form.len()),
    )
}

/// The name of an access, and its size.
#[derive(Clone, Copy)]
struct Accessing(bool, AccessSize);

impl fmt::Display for Accessing {
    fn fmt<W: fmt::Write>(&self, f: &mut fmt::Formatter<W>) -> fmt::Result {
        let (name, size) = (if self.0 { "write" } else { "read" }, self.1);
        write!(f, "{name}{size}")
    }
}

/// How many bytes an access has: ` of 4 bytes`, or nothing where it isn't known.
#[derive(Clone, Copy)]
struct AccessSize(Option<u64>);

impl fmt::Display for AccessSize {
    fn fmt<W: fmt::Write>(&self, f: &mut fmt::Formatter<W>) -> fmt::Result {
        if let Some(bytes) = self.0 {
            write!(f, " of {}", Bytes(bytes))?;
        }
        Ok(())
    }
}

/// An access that failed, of the instruction at an address.
fn tell_fault<W: Write>(
    out: &mut W,
    fault: &MemFault,
    size: AccessSize,
    at: At<'_>,
) -> io::Result<()> {
    let MemFault { addr, kind, .. } = fault;
    let access = Accessing(fault.write, size);
    write!(
        out,
        "fault {kind:?}: a {access} at {addr:#018x} by the instruction at "
    )?;
    let (why, tags) = (fault_words(*kind), FaultTags(fault));
    writeln!(out, "{at}: {why}{tags}")
}

/// The tags that differ, where they are the fault.
#[derive(Clone, Copy)]
struct FaultTags<'a>(&'a MemFault);

impl<'a> fmt::Display for FaultTags<'a> {
    fn fmt<W: fmt::Write>(&self, f: &mut fmt::Formatter<W>) -> fmt::Result {
        if self.0.kind != FaultKind::TagCheck {
            return Ok(());
        }
        let (ptr_tag, mem_tag) = (self.0.ptr_tag, self.0.mem_tag);
        write!(f, " (pointer {ptr_tag:#x}, memory {mem_tag:#x})")
    }
}

/// A word at an address that is no instruction.
fn tell_illegal<W: Write>(out: &mut W, word: u32, at: At<'_>) -> io::Result<()> {
    let family = Family(word);
    writeln!(
        out,
        "illegal word {word:#010x} at {at}: no instruction of the table{family}"
    )
}

/// The family of a word, where it is known.
#[derive(Clone, Copy)]
struct Family(u32);

impl fmt::Display for Family {
    fn fmt<W: fmt::Write>(&self, f: &mut fmt::Formatter<W>) -> fmt::Result {
        match family_of(self.0) {
            Some(family) => { write!(f, ", but {family} (docs/TENANTS.md has what avoids it)") }
            None if is_undefined(self.0) => f.write_str(", but UDF, as zeros and other data are"),
            None => Ok(()),
        }
    }
}

/// A breakpoint at an address.
fn tell_breakpoint<W: Write>(out: &mut W, number: u16, at: At<'_>) -> io::Result<()> {
    match breakpoint_words(number) {
        Some(words) => writeln!(out, "breakpoint {number} at {at}: {words}"),
        None => writeln!(out, "breakpoint {number} at {at}"),
    }
}

/// A tag that differed before an address.
fn tell_async<W: Write>(out: &mut W, pc: u64) -> io::Result<()> {
    writeln!(
        out,
        "an access before {pc:#018x} had another tag than its memory"
    )?;
    writeln!(out, "without --async the tenant faults at that access")
}

/// A pointer that the heap refused, from the SVC at an address.
fn tell_abort<W: Write>(out: &mut W, abort: HeapAbort, pointer: u64, at: At<'_>) -> io::Result<()> {
    let why = abort_words(abort);
    write!(
        out,
        "abort {abort}: the pointer {pointer:#018x}, handed to the heap by the "
    )?;
    writeln!(out, "SVC at {at}, is refused: {why}")
}

/// Writes that its steps or its slices are over.
fn tell_running<W: Write>(out: &mut W, report: &Report<'_>) -> io::Result<()> {
    let limit = report.limit;
    if report.parts.history.steps >= limit {
        writeln!(
            out,
            "the limit of {limit} steps is reached (--steps gives it more)"
        )
    } else {
        writeln!(out, "still running after its slices")
    }
}

/// Whose granule the address is in that a status names, and the tags around it.
fn tell_place<W: Write>(out: &mut W, report: &Report<'_>, memory: &mut Flat) -> io::Result<()> {
    let Some(addr) = report.address() else {
        return Ok(());
    };
    let owner = ChunkOwner {
        addr,
        mapped: attrs_at(memory, addr).is_some(),
        chunk: report.book.newest(&ChunkQuery::InGranules(addr)),
    };
    let place = match RangeUse::of(addr) {
        RangeUse::Image => report.names.symbols.place(addr),
        _ => SymbolOffset::unnamed(addr),
    };
    writeln!(out, "{owner}{place}")?;
    tell_tags(out, memory, addr)
}

/// The instruction at an address, if it can be fetched.
fn tell_instruction<W: Write>(out: &mut W, at: At<'_>, memory: &mut Flat) -> io::Result<()> {
    let pc = at.pc;
    let Ok(word) = memory.fetch(pc) else {
        return Ok(());
    };
    let instruction = Instruction { word, pc };
    writeln!(out, "instruction at {at}: {word:08x}  {instruction}")
}

/// The registers that are not 0, the flags and the generator.
fn tell_registers<W: Write>(out: &mut W, regs: &Regs) -> io::Result<()> {
    write!(out, "registers that are not 0:")?;
    let mut told = 0u32;
    for (n, value) in regs.x.iter().enumerate() {
        if *value != 0 {
            let start = if told % 4 == 0 { "\n" } else { "" };
            write!(out, "{start}  x{n:<2} {value:016x}")?;
            told = told.saturating_add(1);
        }
    }
    let Regs { sp, pc, .. } = regs;
    let flags = Nzcv(regs.flags);
    writeln!(out, "\n  sp  {sp:016x}  pc  {pc:016x}  flags {flags}")?;
    tell_generator(out, regs)
}

/// The generator.
fn tell_generator<W: Write>(out: &mut W, regs: &Regs) -> io::Result<()> {
    let (tag, seed) = (regs.rgsr.tag, regs.rgsr.seed);
    writeln!(out, "  generator: tag {tag:#x}, seed {seed:#06x}")
}

/// The page map.
fn tell_pages<W: Write>(alloc: Global, out: &mut W, memory: &mut Flat) -> io::Result<()> {
    writeln!(out, "pages:")?;
    let map = page_map(alloc, memory)?;
    tell_map(out, map.as_slice())
}

/// Pages, each in a line.
fn tell_map<W: Write>(out: &mut W, map: &[MappedPages]) -> io::Result<()> {
    for pages in map {
        writeln!(out, "  {pages}")?;
    }
    Ok(())
}

/// The last instructions, `count` of them.
fn tell_last<W: Write>(
    out: &mut W,
    last: &HeapCircularBuffer<Moment>,
    count: usize,
    after: &Regs,
) -> io::Result<()> {
    if last.is_empty() || count == 0 {
        return Ok(());
    }
    writeln!(out, "the last instructions:")?;
    let mut before = None;
    for moment in last.iter().skip(last.len().saturating_sub(count)) {
        tell_moment(out, before, &moment.regs)?;
        before = Some(moment);
    }
    tell_moment(out, before, after)
}

/// An instruction, if there is one.
fn tell_moment<W: Write>(out: &mut W, moment: Option<&Moment>, after: &Regs) -> io::Result<()> {
    match moment {
        Some(moment) => writeln!(out, "{}", TraceLine { moment, after }),
        None => Ok(()),
    }
}
