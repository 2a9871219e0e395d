//! Lines that are written while a tenant runs.

use crate::line_log::Log;
use a64_registers::Regs;
use elf_symbols::Symbols;
use run_records::{Moment, SVC, Service, TraceLine};
use run_terms::Traced;
use std::io;
use std::io::Write;

/// Writes a line an instruction or a service.
#[derive(Drop)]
pub struct Tracer<'a> {
    traced: Traced,
    symbols: Symbols<'a>,
    /// Where the function begins whose name was written last.
    function: u64,
    out: Log,
    /// Why none can be written any more.
    fault: Option<io::ErrorKind>,
}

impl<'a> Tracer<'a> {
    /// One that writes some lines, with the names of functions, unless there is a fault.
    pub fn new(
        traced: Traced,
        symbols: Symbols<'a>,
        out: Log,
        fault: Option<io::ErrorKind>,
    ) -> Tracer<'a> {
        Tracer {
            traced,
            symbols,
            function: 0,
            out,
            fault,
        }
    }

    /// Writes the lines of an instruction.
    pub fn note(&mut self, moment: &Moment, after: &Regs) {
        if self.fault.is_none() {
            let written = self.write_lines(moment, after);
            self.enter(written);
        }
    }

    /// Writes the line of an instruction, and the line of the service that it requests, where they
    /// are requested.
    fn write_lines(&mut self, moment: &Moment, after: &Regs) -> io::Result<()> {
        let Traced { from, to, services } = self.traced;
        let is_service = moment.word == Some(SVC);
        if from <= moment.step && moment.step <= to {
            self.write_instruction(moment, after)?;
            if is_service {
                write!(self.out, "           ")?;
                self.write_service(moment, after)?;
            }
        } else if services && is_service {
            write!(self.out, "{:>9}  ", moment.step)?;
            self.write_service(moment, after)?;
        }
        Ok(())
    }

    /// Writes the line of an instruction, after the name of its function where that is another
    /// one.
    fn write_instruction(&mut self, moment: &Moment, after: &Regs) -> io::Result<()> {
        let pc = moment.regs.pc;
        let place = self.symbols.place(pc);
        let function = pc.wrapping_sub(place.offset());
        if let Some(name) = place.name() {
            if function != self.function {
                self.function = function;
                writeln!(self.out, "{name}:")?;
            }
        }
        let line = TraceLine { moment, after };
        writeln!(self.out, "{line}")
    }

    /// Writes the rest of a service's line.
    fn write_service(&mut self, moment: &Moment, after: &Regs) -> io::Result<()> {
        let service = Service {
            before: &moment.regs,
            after,
        };
        writeln!(self.out, "{service}")
    }

    /// Writes what is still held.
    pub fn finish(&mut self) {
        if self.fault.is_none() {
            let written = self.out.flush();
            self.enter(written);
        }
    }

    /// Why not all lines could be written.
    pub fn fault(&self) -> Option<io::ErrorKind> {
        self.fault
    }

    /// Enters whether some could be written.
    fn enter(&mut self, written: io::Result<()>) {
        if let Err(error) = written {
            self.fault = Some(error.kind());
        }
    }
}
