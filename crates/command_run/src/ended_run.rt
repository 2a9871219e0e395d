//! A run that has ended, and its report.

use mte_backtrace::Names;
use mte_report::{FindingList, Report};
use mte_svc::{Status, TenantParts};
use run_terms::Options;
use tenant_run::Observer;

/// A run that has ended: its tenant but for the memory, what watched it, and what was requested.
#[derive(Clone, Copy)]
pub struct EndedRun<'x> {
    /// The tenant, but for its memory.
    pub parts: &'x TenantParts,
    /// What watched it.
    pub observer: &'x Observer<'x>,
    /// What was requested.
    pub options: &'x Options,
    /// The name of its image's file.
    pub image: &'x str,
    /// Its seed, where it ran alone.
    pub seed: Option<u64>,
}

impl<'x> EndedRun<'x> {
    /// Whether anything is told in which names are, besides lost chunks: of a tenant that exited
    /// only what is requested.
    pub fn is_told(&self) -> bool {
        let output = &self.options.output;
        !matches!(self.parts.history.status, Status::Exited(_))
            || self.observer.finding().is_some()
            || !self.observer.findings.is_empty()
            || output.leaks
            || output.map.is_some()
            || output.json.is_some()
            || output.sarif.is_some()
            || output.page.is_some()
    }

    /// What was found, where the run went on after it.
    fn findings(&self) -> Option<FindingList<'x>> {
        if !self.options.output.continues {
            return None;
        }
        Some(FindingList {
            findings: &self.observer.findings,
            hidden: self.observer.hidden(),
        })
    }

    /// The report of a tenant with `reserved` pages, with the names of its image.
    pub fn report(&self, names: &'x Names<'x>, reserved: u64) -> Report<'x> {
        Report {
            parts: self.parts,
            book: &self.observer.book,
            last: Some(self.observer.last()),
            last_count: self.options.output.last_lines,
            turns: self.observer.turns(),
            limit: self.options.limit(),
            names,
            image: self.image,
            seed: self.seed,
            finding: self.observer.finding(),
            findings: self.findings(),
            store: self.observer.store.as_ref(),
            statistics: self.observer.table(reserved),
            is_cut: self.observer.is_cut,
        }
    }
}
