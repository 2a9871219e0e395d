//! How a tenant ends under several seeds.

use crate::bench::{TenantBench, WatchLevel, Watcher};
use crate::ending::{ENDINGS, TenantEnding, ending_at};
use crate::lone::admission_of;
use crate::observer::{Observer, WatchLists, checker_of, exact_of};
use crate::output_stream::OutputStream;
use crate::seeds::seed_of_run;
use crate::slices::run_slices;
use common::Obstacle;
use mte_tenant::{Admission, AdmitError};
use run_cause::CheckTerms;
use run_terms::{Options, Suppressions};
use std::alloc::{AllocError, Global};
use std::fmt;

/// How runs under several seeds ended.
#[derive(Clone, Copy)]
pub struct Survey {
    /// How many there were.
    runs: u32,
    /// How many ended in each way, by its number.
    counts: [u32; ENDINGS],
    /// The first seed under which the tenant did not exit, if there is one.
    found: Option<u64>,
}

impl Survey {
    /// The runs of an image under the seeds that are requested.
    pub fn of<'x>(
        alloc: Global,
        options: &Options,
        image: &'x [u8],
        input: &'x [u8],
        suppressions: &'x Suppressions,
    ) -> Result<Survey, Obstacle<AdmitError>> {
        let mut survey = Survey {
            runs: 0,
            counts: [0; ENDINGS],
            found: None,
        };
        let terms = CheckTerms {
            image,
            kinds: options.output.check,
            suppressions,
            continues: false,
        };
        for number in 0..options.run.seeds {
            let seed = seed_of_run(options.run.terms.seed, number);
            let ending = ending_under(alloc, options, &terms, input, seed)?;
            survey.enter(seed, ending);
        }
        Ok(survey)
    }

    /// Enters how a run under a seed ended.
    fn enter(&mut self, seed: u64, ending: TenantEnding) {
        self.runs = self.runs.saturating_add(1);
        if let Some(count) = self.counts.get_mut(ending as usize) {
            *count = count.saturating_add(1);
        }
        if ending != TenantEnding::Exit && self.found.is_none() {
            self.found = Some(seed);
        }
    }

    /// The seed that is reported: the first under which the tenant did not exit, or the given one.
    pub fn seed(&self, given: u64) -> u64 {
        self.found.unwrap_or(given)
    }
}

/// How an image ends under a seed. The watch is made and dropped here, where nothing ends early
/// with it: that is what a proof pays for.
fn ending_under<'x>(
    alloc: Global,
    options: &Options,
    terms: &CheckTerms<'x>,
    input: &'x [u8],
    seed: u64,
) -> Result<TenantEnding, Obstacle<AdmitError>> {
    let admission = admission_of(options, terms.image, input, seed);
    let mut observer = silent_observer(alloc, options, terms)?;
    ending_by(alloc, options, &admission, &mut observer)
}

/// How a tenant ends that is watched. Where an access may have been wrong, a second run says
/// whether it was.
fn ending_by(
    alloc: Global,
    options: &Options,
    admission: &Admission<'_>,
    observer: &mut Observer<'_>,
) -> Result<TenantEnding, Obstacle<AdmitError>> {
    let mut ending = ending_of(alloc, options, admission, observer)?;
    if observer.shown == WatchLevel::Accesses && observer.is_suspicious() {
        observer.restart(alloc, u64::MAX)?;
        ending = ending_of(alloc, options, admission, observer)?;
    }
    match observer.finding() {
        Some(_) => Ok(TenantEnding::Exact),
        None => Ok(ending),
    }
}

/// The watch of a run of which only the ending, or what is found, counts.
pub(crate) fn silent_observer<'x>(
    alloc: Global,
    options: &Options,
    terms: &CheckTerms<'x>,
) -> Result<Observer<'x>, AllocError> {
    let lists = WatchLists::new(alloc, 1, 0)?;
    let checker = checker_of(alloc, terms)?;
    let exact = exact_of(alloc, options.output.exact);
    let mut observer = Observer::new(alloc, lists, exact, None, checker, None);
    observer.shown = observer.needs();
    Ok(observer)
}

/// How a tenant ends that is run to its end, whatever its watch finds. Its machine is made and
/// dropped here: an early end with two of them alive is dear to prove.
fn ending_of<O: Watcher>(
    alloc: Global,
    options: &Options,
    admission: &Admission<'_>,
    watcher: &mut O,
) -> Result<TenantEnding, Obstacle<AdmitError>> {
    let mut bench = TenantBench::new(alloc, admission)?;
    let mut out = OutputStream::silent();
    run_slices(&mut bench, watcher, &mut out, options, options.length.steps);
    Ok(TenantEnding::of(&bench.parts.history, options.limit()))
}

impl fmt::Display for Survey {
    fn fmt<W: fmt::Write>(&self, f: &mut fmt::Formatter<W>) -> fmt::Result {
        let runs = self.runs;
        write!(f, "{runs} seeds:")?;
        for (index, count) in self.counts.iter().enumerate() {
            if *count > 0 {
                let ending = ending_at(index);
                write!(f, " {count} ended by {ending},")?;
            }
        }
        match self.found {
            Some(seed) => write!(f, " told is seed {seed:016x}"),
            None => f.write_str(" none is told"),
        }
    }
}
