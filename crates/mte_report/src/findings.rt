//! What was found in a run that went on after it.

use crate::explanation::Explanation;
use crate::report::{Report, tell_wrong};
use mte_backtrace::{CallStack, FrameAddresses};
use run_cause::{CountedFinding, Findings, MOST_FINDINGS};
use run_records::Count;
use std::alloc::{AllocError, Global};
use std::io;
use std::io::Write;

/// What was found in a run that went on after it, and how many findings were suppressed.
#[derive(Clone, Copy)]
pub struct FindingList<'a> {
    /// What was found.
    pub findings: &'a Findings,
    /// How many findings were suppressed.
    pub hidden: u64,
}

impl<'a> Report<'a> {
    /// Whether something was found in a run that went on after it.
    pub fn has_findings(&self) -> bool {
        match &self.findings {
            Some(list) => !list.findings.is_empty(),
            None => false,
        }
    }

    /// The places where something was found in a run that went on after it.
    pub fn found_places(&self) -> &'a [CountedFinding] {
        match &self.findings {
            Some(list) => list.findings.places(),
            None => &[],
        }
    }

    /// Writes what was found in a run that went on after it: each place in order, with how often
    /// something was found there, then the numbers.
    pub fn write_findings<W: Write>(&self, alloc: Global, out: &mut W) -> io::Result<()> {
        let Some(list) = &self.findings else {
            return Ok(());
        };
        for place in self.found_places() {
            self.write_place_found(alloc, out, place)?;
        }
        write_numbers(out, list)?;
        out.flush()
    }

    /// Writes what was found at a place.
    fn write_place_found<W: Write>(
        &self,
        alloc: Global,
        out: &mut W,
        place: &'a CountedFinding,
    ) -> io::Result<()> {
        let report = self.at_finding(place);
        write!(out, "mte_run: ")?;
        tell_wrong(out, &place.finding.wrong, report.here())?;
        let explanation = report.explain_found(alloc, place)?;
        report.tell_calls(alloc, out, &explanation)?;
        match place.count {
            1 => Ok(()),
            count => writeln!(out, "  found {count} times"),
        }
    }

    /// The report of a run that ends with a finding.
    pub fn at_finding(&self, place: &'a CountedFinding) -> Report<'a> {
        Report {
            finding: Some(&place.finding),
            last: None,
            turns: None,
            store: None,
            ..*self
        }
    }

    /// The explanation of a finding, by its cause as it was then.
    pub fn explain_found(
        &self,
        alloc: Global,
        place: &CountedFinding,
    ) -> Result<Explanation<'a>, AllocError> {
        let finding = &place.finding;
        let symbols = &self.names.symbols;
        let stack = CallStack::of_heap_call(alloc, finding.before.pc, &finding.callers, symbols)?;
        let mut frames = FrameAddresses::new(alloc);
        stack.push_frames(&mut frames)?;
        self.push_cause(alloc, &mut frames, &place.cause)?;
        Ok(Explanation {
            cause: Some(place.cause),
            stack,
            names: self.names.of_frames(alloc, &frames)?,
        })
    }
}

/// Writes how often something was found and suppressed, and whether places are left out.
fn write_numbers<W: Write>(out: &mut W, list: &FindingList<'_>) -> io::Result<()> {
    let findings = list.findings;
    let (count, hidden) = (count_of(findings.count(), "finding"), list.hidden);
    let places = count_of(findings.places().len() as u64, "place");
    writeln!(out, "mte_run: {count} at {places}, {hidden} suppressed")?;
    match findings.left_out() {
        0 => Ok(()),
        more => writeln!(
            out,
            "mte_run: of them {more} are at places beyond the first {MOST_FINDINGS}, and not told"
        ),
    }
}

/// A number of something.
fn count_of(number: u64, unit: &'static str) -> Count {
    Count { number, unit }
}
