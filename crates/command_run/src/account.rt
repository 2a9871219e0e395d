//! The lines of a run that has ended, and its exit status.

use crate::refused::refused_bytes;
use crate::spare_bytes::may_have_spare_bytes;
use mte_flat::Flat;
use mte_report::Report;
use mte_svc::Status;
use pointer_provenance::LostChunk;
use run_terms::{Exactness, Options};
use std::alloc::Global;
use std::io;
use std::io::Write;
use tenant_run::{LastLine, TenantEnding};

/// The lines of a run that has ended, and its exit status.
#[derive(Clone, Copy)]
pub struct RunAccount<'x> {
    /// Its report.
    pub report: &'x Report<'x>,
    /// What was requested.
    pub options: &'x Options,
    /// The chunks that are told as lost.
    pub lost: &'x [LostChunk],
}

impl<'x> RunAccount<'x> {
    /// How the tenant ended.
    pub fn ending(&self) -> TenantEnding {
        let report = self.report;
        if report.finding.is_some() {
            return TenantEnding::Exact;
        }
        match TenantEnding::of(&report.parts.history, report.limit) {
            TenantEnding::Exit if report.has_findings() => TenantEnding::Exact,
            TenantEnding::Exit if report.is_cut && self.options.output.is_whole => {
                TenantEnding::Cut
            }
            ending => ending,
        }
    }

    /// The exit status: the one that an option names for what was found, or for lost chunks, else
    /// that of how the tenant ended.
    pub fn status(&self) -> u8 {
        let (report, output) = (self.report, &self.options.output);
        let ending = self.ending();
        let own = ending.status(&report.parts.history);
        match report.finding {
            Some(finding) if !finding.wrong.violation.is_of_bounds() => {
                output.found_status.unwrap_or(own)
            }
            None if ending == TenantEnding::Exact => output.found_status.unwrap_or(own),
            None if !self.lost.is_empty() && ending == TenantEnding::Exit => {
                output.lost_status.unwrap_or(own)
            }
            _ => own,
        }
    }

    /// Writes whether output was cut.
    pub fn write_cut<W: Write>(&self, out: &mut W) -> io::Result<()> {
        if self.report.is_cut {
            writeln!(
                out,
                "mte_run: output was cut: there was no more room (--out)"
            )?;
        }
        Ok(())
    }

    /// Writes what happened: what was found, where the run went on after it, the lost chunks, why
    /// the tenant ended, where it did not exit, the live chunks and the numbers of the run, where
    /// they are requested.
    pub fn write_story<W: Write>(
        &self,
        alloc: Global,
        out: &mut W,
        memory: &mut Flat,
    ) -> io::Result<()> {
        let report = self.report;
        if report.findings.is_some() {
            report.write_findings(alloc, out)?;
        }
        if !self.lost.is_empty() {
            write!(out, "mte_run: ")?;
            report.write_lost(alloc, out, self.lost)?;
        }
        if report.finding.is_some() || !self.is_exit() {
            report.write(alloc, out, memory)?;
        }
        if self.options.output.leaks {
            report.write_leaks(alloc, out)?;
        }
        report.write_statistics(out)
    }

    /// Writes what a tenant that exited may not know, and the last line, where there is one for how
    /// the tenant ended and for the exit status.
    pub fn write_end<W: Write>(&self, out: &mut W) -> io::Result<()> {
        let log = &self.report.parts.history;
        if self.is_exit() {
            self.write_notes(out)?;
        }
        let line = LastLine {
            ending: self.ending(),
            log,
            status: self.status(),
            finder: self
                .report
                .finding
                .map(|finding| finding.wrong.violation.finder()),
        };
        if line.is_told() {
            writeln!(out, "mte_run: {line}")?;
        }
        Ok(())
    }

    /// Writes which request was refused for its size, and what no tag finds.
    fn write_notes<W: Write>(&self, out: &mut W) -> io::Result<()> {
        let calls = &self.report.parts.history.calls;
        if let Some(bytes) = refused_bytes(calls) {
            writeln!(
                out,
                "mte_run: a request of {bytes} bytes was refused: a chunk has at most 1,048,576 \
                 (tenant-cc --large-blocks makes larger ones)"
            )?;
        }
        if self.may_be_unseen() && may_have_spare_bytes(calls) {
            writeln!(
                out,
                "mte_run: no tag differed; a tag is that of 16 bytes, so up to 15 bytes past a \
                 chunk's size are compared by --exact alone"
            )?;
        }
        Ok(())
    }

    /// Whether the tenant exited.
    fn is_exit(&self) -> bool {
        matches!(self.report.parts.history.status, Status::Exited(_))
    }

    /// Whether accesses past the sizes of chunks were not looked for.
    fn may_be_unseen(&self) -> bool {
        let output = &self.options.output;
        output.exact == Exactness::Tags && !output.check.provenance
    }
}
