//! What was found in a run that goes on after it.

use crate::cause::Cause;
use crate::exact::Finding;
use run_records::Book;
use run_terms::CheckKind;
use std::alloc::Global;

/// How many places are kept.
pub const MOST_FINDINGS: usize = 1_000;

/// What was found at a place, and how often.
#[derive(Clone, Copy)]
pub struct CountedFinding {
    /// The first time.
    pub finding: Finding,
    /// Its cause, by the heap calls up to then.
    pub cause: Cause,
    /// How often something of its kind was found there.
    pub count: u64,
}

impl CountedFinding {
    /// What it is of.
    fn kind(&self) -> CheckKind {
        self.finding.wrong.violation.kind()
    }

    /// Whether something is found at the same place: of the same kind, at the same instruction and
    /// the same innermost calls.
    fn is_at(&self, other: &Finding) -> bool {
        self.kind() == other.wrong.violation.kind()
            && self.finding.before.pc == other.before.pc
            && self.finding.callers.shares_innermost(&other.callers)
    }
}

/// What was found, each place once, in the order of the first times.
#[derive(Drop)]
pub struct Findings {
    all: Vec<CountedFinding>,
    /// How often something was found at a place that is not kept.
    left_out: u64,
}

impl Findings {
    /// Nothing.
    pub fn new(alloc: Global) -> Findings {
        Findings {
            all: Vec::new(alloc),
            left_out: 0,
        }
    }

    /// Enters what is found after the heap calls of a book.
    pub fn enter(&mut self, finding: &Finding, book: &Book) {
        if let Some(known) = self.all.iter_mut().find(|known| known.is_at(finding)) {
            known.count = known.count.saturating_add(1);
            return;
        }
        let first = CountedFinding {
            finding: *finding,
            cause: Cause::of_wrong(book, &finding.wrong),
            count: 1,
        };
        if self.all.len() >= MOST_FINDINGS || self.all.push(first).is_err() {
            self.left_out = self.left_out.saturating_add(1);
        }
    }

    /// Forgets all.
    pub fn clear(&mut self) {
        self.all.clear();
        self.left_out = 0;
    }

    /// Whether nothing was found.
    pub fn is_empty(&self) -> bool {
        self.all.is_empty()
    }

    /// The places, in the order of the first times.
    pub fn places(&self) -> &[CountedFinding] {
        self.all.as_slice()
    }

    /// How often something was found at a place that is not kept.
    pub fn left_out(&self) -> u64 {
        self.left_out
    }

    /// How often something was found.
    pub fn count(&self) -> u64 {
        let mut count = self.left_out;
        for place in &self.all {
            count = count.saturating_add(place.count);
        }
        count
    }
}
