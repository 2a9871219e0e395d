//! The calls that led to the end of a tenant, and to the heap calls that its cause names.

use crate::context::Context;
use crate::explanation::Explanation;
use crate::report::Report;
use common::ShellWord;
use debug_variables::Declaration;
use named_places::PlaceKind;
use run_cause::{Cause, FoundCause};
use run_records::{Book, BookChunk, BookEntry, EntryText};
use std::alloc::Global;
use std::io;
use std::io::Write;

impl<'a> Report<'a> {
    /// Writes the calls that led to the end, then the cause, and the calls of the chunks that it
    /// names.
    pub(crate) fn tell_calls<W: Write>(
        &self,
        alloc: Global,
        out: &mut W,
        explanation: &Explanation<'_>,
    ) -> io::Result<()> {
        explanation.stack.write(out, &explanation.names, "  ")?;
        match &explanation.cause {
            Some(cause) => {
                let context = Context {
                    alloc,
                    report: self,
                    names: &explanation.names,
                };
                context.tell_cause(out, cause)
            }
            None => Ok(()),
        }
    }

    /// A cause, after what found it.
    pub fn found<'b>(&self, cause: &'b Cause) -> FoundCause<'b>
    where
        'a: 'b,
    {
        FoundCause {
            cause,
            wrong: self.finding.map(|finding| &finding.wrong),
        }
    }

    /// Writes a command that tells the source lines of all calls that were told, in their order,
    /// also those that were inlined.
    pub(crate) fn tell_symbolizer<W: Write>(
        &self,
        alloc: Global,
        out: &mut W,
        explanation: &Explanation<'_>,
    ) -> io::Result<()> {
        let image = ShellWord(self.image);
        write!(out, "llvm-symbolizer -i --obj={image}")?;
        explanation.stack.write_addresses(out)?;
        if let Some(cause) = &explanation.cause {
            self.write_cause_addresses(alloc, out, cause)?;
        }
        if let Some(store) = self.store {
            let stack = self.stack_of_store(alloc, store)?;
            stack.write_addresses(out)?;
        }
        writeln!(out)
    }

    /// Writes the addresses of the calls that led to the heap calls of a cause.
    fn write_cause_addresses<W: Write>(
        &self,
        alloc: Global,
        out: &mut W,
        cause: &Cause,
    ) -> io::Result<()> {
        for entry in cause.calls().iter() {
            if let Some(entry) = entry {
                self.write_entry_addresses(alloc, out, entry)?;
            }
        }
        Ok(())
    }

    /// Writes the addresses of the calls that led to a heap call.
    fn write_entry_addresses<W: Write>(
        &self,
        alloc: Global,
        out: &mut W,
        entry: &BookEntry,
    ) -> io::Result<()> {
        let stack = self.stack_of(alloc, entry)?;
        stack.write_addresses(out)
    }
}

/// Writes that older calls are forgotten, if any are.
fn tell_short<W: Write>(out: &mut W, book: &Book) -> io::Result<()> {
    if !book.is_short() {
        return Ok(());
    }
    writeln!(out, "  (older heap calls are no longer kept)")
}

impl<'a> Context<'a> {
    /// Writes a cause, and the calls of the chunks that it names.
    fn tell_cause<W: Write>(&self, out: &mut W, cause: &Cause) -> io::Result<()> {
        let found = self.report.found(cause);
        writeln!(out, "Cause: {found}")?;
        self.tell_chunks(out, cause)?;
        self.tell_frame(out, cause)?;
        self.tell_place(out, cause)?;
        self.tell_hint(out, cause)?;
        tell_short(out, self.report.book)
    }

    /// Writes the chunks that a cause names.
    fn tell_chunks<W: Write>(&self, out: &mut W, cause: &Cause) -> io::Result<()> {
        if let Some(chunk) = &cause.chunk {
            self.tell_chunk(out, chunk)?;
        }
        match &cause.young {
            Some(young) => {
                writeln!(out, "  its block was given again, as the {young}:")?;
                self.tell_chunk(out, young)
            }
            None => Ok(()),
        }
    }

    /// Writes which instruction made the place or the chunk that a cause names.
    fn tell_frame<W: Write>(&self, out: &mut W, cause: &Cause) -> io::Result<()> {
        match cause.instruction() {
            Some((pc, act)) => {
                let frame = self.names.instruction(pc);
                writeln!(out, "  {act} {frame}")
            }
            None => Ok(()),
        }
    }

    /// Writes which function the variable is of that a cause names, and where it is declared.
    fn tell_place<W: Write>(&self, out: &mut W, cause: &Cause) -> io::Result<()> {
        let Some(place) = &cause.place else {
            return Ok(());
        };
        let names = self.report.names;
        if let (PlaceKind::Block, Some(pc)) = (place.kind, place.function) {
            let maker = self.names.instruction(pc);
            return writeln!(out, "  made by {maker}");
        }
        let line = match place.declaration {
            Some(Declaration { unit, file, line }) => names
                .lines
                .files_of(unit)
                .and_then(|files| files.line_in(file, line))
                .and_then(|line| line.source_line()),
            None => None,
        };
        if place.function.is_none() && line.is_none() {
            return Ok(());
        }
        let of = if place.kind == PlaceKind::Frame {
            "  a frame"
        } else {
            "  a variable"
        };
        write!(out, "{of}")?;
        match place.function.and_then(|pc| names.symbols.place(pc).name()) {
            Some(name) => write!(out, " of {name}")?,
            None => {}
        }
        match line {
            Some(line) => writeln!(out, ", declared at {line}"),
            None => writeln!(out),
        }
    }

    /// Writes the calls that made and freed a chunk.
    fn tell_chunk<W: Write>(&self, out: &mut W, chunk: &BookChunk) -> io::Result<()> {
        let made = EntryText(&chunk.made);
        writeln!(out, "  allocated by {made}")?;
        self.tell_stack(out, &chunk.made)?;
        match &chunk.freed {
            Some(entry) => {
                let freed = EntryText(entry);
                writeln!(out, "  freed by {freed}")?;
                self.tell_stack(out, entry)
            }
            None => Ok(()),
        }
    }

    /// Writes the calls that led to a heap call.
    pub(crate) fn tell_stack<W: Write>(&self, out: &mut W, entry: &BookEntry) -> io::Result<()> {
        let stack = self.report.stack_of(self.alloc, entry)?;
        stack.write(out, self.names, "    ")
    }
}
