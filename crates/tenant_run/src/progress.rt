//! Lines that say how far a run is, and that end it where they can no more be written.

use crate::line_log::create;
use mte_tenant::TenantParts;
use run_terms::{Failure, Options};
use std::fs::File;
use std::io;
use std::io::{BufWriter, Write};

/// Writes a line after a slice, of each number of steps once, whichever run of the tenant it comes
/// from. Where one cannot be written, no run of the tenant goes on from there.
#[derive(Drop)]
pub(crate) struct ProgressLog {
    /// None where nothing is written.
    out: Option<BufWriter<File>>,
    /// The steps of the last line.
    told: u64,
    /// The steps after which a line could not be written.
    pub(crate) stopped: Option<u64>,
}

impl ProgressLog {
    /// One that writes nothing.
    pub(crate) fn none() -> ProgressLog {
        ProgressLog {
            out: None,
            told: 0,
            stopped: None,
        }
    }

    /// One that writes into the file that the options name, if they name one.
    pub(crate) fn open<'a>(
        rt: &HostRuntime,
        options: &'a Options,
    ) -> Result<ProgressLog, Failure<'a>> {
        let mut progress = ProgressLog::none();
        if let Some(name) = &options.length.progress {
            let file = create(rt, name.as_str())?;
            progress.out = Some(BufWriter::new(rt.alloc(), file)?);
        }
        Ok(progress)
    }

    /// Writes the line of a slice that has ended.
    pub(crate) fn note(&mut self, parts: &TenantParts) {
        let steps = parts.history.steps;
        let Some(out) = &mut self.out else {
            return;
        };
        if steps <= self.told || self.stopped.is_some() {
            return;
        }
        self.told = steps;
        if write_line(out, parts).is_err() && parts.is_running() {
            self.stopped = Some(steps);
        }
    }
}

/// Writes a line at once.
fn write_line<W: Write>(out: &mut W, parts: &TenantParts) -> io::Result<()> {
    let (steps, calls) = (parts.history.steps, parts.history.calls.count());
    writeln!(out, "steps {steps} calls {calls}")?;
    out.flush()
}
