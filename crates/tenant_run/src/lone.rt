//! A tenant alone, from its admission to its end.

ghost use Rattle.std.specs.Prelude.{◌<◌};

use crate::bench::{TenantBench, WatchLevel, Watcher};
use crate::ending::TenantEnding;
use crate::observer::Observer;
use crate::output_stream::OutputStream;
use crate::progress::ProgressLog;
use crate::slices::run_slices;
use crate::store_watcher::StoreWatcher;
use crate::survey::Survey;
use common::Obstacle;
use mte_tenant::{Admission, AdmitError, Terms};
use run_terms::{Failure, Options, Suppressions};
use std::alloc::Global;

/// The number of a tenant that is alone.
const ID: u16 = 1;

/// The admission of an image under a seed.
pub fn admission_of<'a>(
    options: &Options,
    image: &'a [u8],
    input: &'a [u8],
    seed: u64,
) -> Admission<'a>
    ensures { 0 < result.terms.pages }
{
    Admission {
        id: ID,
        image,
        input,
        terms: Terms {
            seed,
            ..options.run.terms
        },
    }
}

/// A tenant alone: its image, what it may read, and its seed.
#[derive(Clone, Copy)]
pub struct LoneTenant<'x> {
    image: &'x [u8],
    input: &'x [u8],
    /// Its seed.
    pub seed: u64,
}

impl<'x> LoneTenant<'x> {
    /// A tenant of an image under the seed of the run that is reported: of several the first under
    /// which it does not exit. How the runs under several seeds ended, where there were some.
    pub fn chosen(
        alloc: Global,
        options: &Options,
        image: &'x [u8],
        input: &'x [u8],
        suppressions: &'x Suppressions,
    ) -> Result<(LoneTenant<'x>, Option<Survey>), Obstacle<AdmitError>> {
        let seed = options.run.terms.seed;
        if options.run.seeds < 2 {
            return Ok((LoneTenant { image, input, seed }, None));
        }
        let survey = Survey::of(alloc, options, image, input, suppressions)?;
        let seed = survey.seed(seed);
        Ok((LoneTenant { image, input, seed }, Some(survey)))
    }

    /// Such a tenant at its first instruction. A line says how the runs under several seeds ended.
    pub fn admitted(
        rt: &HostRuntime,
        options: &Options,
        image: &'x [u8],
        input: &'x [u8],
        suppressions: &'x Suppressions,
    ) -> Result<(LoneTenant<'x>, TenantBench), Obstacle<AdmitError>> {
        let (tenant, survey) = LoneTenant::chosen(rt.alloc(), options, image, input, suppressions)?;
        if let Some(survey) = survey {
            let _ = eprintln!(rt; "mte_run: {survey}");
        }
        let bench = tenant.bench(rt.alloc(), options)?;
        Ok((tenant, bench))
    }

    /// The tenant at its first instruction.
    pub fn bench(
        &self,
        alloc: Global,
        options: &Options,
    ) -> Result<TenantBench, Obstacle<AdmitError>> {
        let admission = admission_of(options, self.image, self.input, self.seed);
        TenantBench::new(alloc, &admission)
    }

    /// The tenant at its first instruction again: it was admitted before, so only memory can be
    /// missing.
    fn bench_again<'a>(
        &self,
        alloc: Global,
        options: &Options,
    ) -> Result<TenantBench, Failure<'a>> {
        match self.bench(alloc, options) {
            Ok(bench) => Ok(bench),
            Err(_) => Err(Failure::Memory),
        }
    }

    /// Runs the tenant from its first instruction again. The value is assigned in this one place,
    /// since dropping the old one is what a proof pays for.
    fn rerun<'a, O: Watcher>(
        &self,
        alloc: Global,
        options: &Options,
        bench: &mut TenantBench,
        watcher: &mut O,
        out: &mut OutputStream<'_>,
        limit: u64,
    ) -> Result<(), Failure<'a>> {
        *bench = self.bench_again(alloc, options)?;
        run_slices(bench, watcher, out, options, limit);
        Ok(())
    }

    /// Shows one more run of the tenant, whose machine is dropped in this one place.
    fn show_again<'a, O: Watcher>(
        &self,
        alloc: Global,
        options: &Options,
        watcher: &mut O,
        limit: u64,
    ) -> Result<(), Failure<'a>> {
        let mut again = self.bench_again(alloc, options)?;
        let mut out = OutputStream::silent();
        run_slices(&mut again, watcher, &mut out, options, limit);
        Ok(())
    }

    /// Runs the tenant to its end, from its first instruction, shown what is needed of it, and
    /// writes its output. An end that is explained by the last attempts, and an access that may be
    /// wrong, take a second run, which is the same.
    pub fn run<'a>(
        &self,
        rt: &HostRuntime,
        options: &'a Options,
        bench: &mut TenantBench,
        observer: &mut Observer<'_>,
    ) -> Result<(), Failure<'a>> {
        let progress = ProgressLog::open(rt, options)?;
        let mut out = OutputStream::new(rt, progress, options.output.profile.is_some());
        self.run_into(rt.alloc(), options, bench, observer, &mut out)?;
        if out.has_failed {
            return Err(Failure::Write);
        }
        if let Some(steps) = out.stopped() {
            let _ = eprintln!(rt;
                "mte_run: given up after {steps} steps: --progress takes no more lines"
            );
        }
        Ok(())
    }

    /// Runs the tenant so, and writes nothing of its output.
    pub fn run_silently<'a>(
        &self,
        alloc: Global,
        options: &Options,
        bench: &mut TenantBench,
        observer: &mut Observer<'_>,
    ) -> Result<(), Failure<'a>> {
        self.run_into(alloc, options, bench, observer, &mut OutputStream::silent())
    }

    /// Runs the tenant so, and writes its output to where it goes.
    fn run_into<'a>(
        &self,
        alloc: Global,
        options: &Options,
        bench: &mut TenantBench,
        observer: &mut Observer<'_>,
        out: &mut OutputStream<'_>,
    ) -> Result<(), Failure<'a>> {
        observer.shown = observer.needs();
        run_slices(bench, observer, out, options, options.length.steps);
        if wants_second_run(bench, options, observer) {
            self.run_again(alloc, options, bench, observer, out)?;
        }
        self.run_to_finding(alloc, options, bench, observer, out)?;
        self.find_store(alloc, options, bench, observer)?;
        self.count_branches(alloc, options, bench, observer)
    }

    /// Counts the branches of the run by one more, if that is requested and the first one did not.
    fn count_branches<'a>(
        &self,
        alloc: Global,
        options: &Options,
        bench: &TenantBench,
        observer: &mut Observer<'_>,
    ) -> Result<(), Failure<'a>> {
        let steps = bench.parts.history.steps;
        if observer.wants_branches() {
            self.show_again(alloc, options, observer, steps)?;
        }
        observer.end_profile(steps);
        Ok(())
    }

    /// The second run, which shows what the first one did not.
    fn run_again<'a>(
        &self,
        alloc: Global,
        options: &Options,
        bench: &mut TenantBench,
        observer: &mut Observer<'_>,
        out: &mut OutputStream<'_>,
    ) -> Result<(), Failure<'a>> {
        observer.restart(alloc, bench.parts.history.steps)?;
        self.rerun(alloc, options, bench, observer, out, options.length.steps)
    }

    /// Puts the tenant after the access that ends it beyond what its tags forbid, if one does: its
    /// slice went on after that.
    fn run_to_finding<'a>(
        &self,
        alloc: Global,
        options: &Options,
        bench: &mut TenantBench,
        observer: &mut Observer<'_>,
        out: &mut OutputStream<'_>,
    ) -> Result<(), Failure<'a>> {
        let step = match observer.finding() {
            Some(finding) => finding.step,
            None => return Ok(()),
        };
        observer.shown = WatchLevel::Nothing;
        self.rerun(alloc, options, bench, observer, out, step)
    }

    /// Finds what wrote the target last of the jump to no code that ended the tenant, if one did,
    /// by one more run up to the load of that target.
    fn find_store<'a>(
        &self,
        alloc: Global,
        options: &Options,
        bench: &TenantBench,
        observer: &mut Observer<'_>,
    ) -> Result<(), Failure<'a>> {
        let Some(load) = observer.target_load(&bench.parts.history.status) else {
            return Ok(());
        };
        let mut watcher = StoreWatcher::new(load);
        self.show_again(alloc, options, &mut watcher, load.step)?;
        observer.store = watcher.found();
        Ok(())
    }
}

/// Whether a second run has to show what the first one did not: the attempts before an end that is
/// explained by them, and those in which an access may have been wrong. Output that fills its
/// capacity may have been cut.
pub fn wants_second_run(bench: &TenantBench, options: &Options, observer: &Observer<'_>) -> bool {
    let (log, output) = (&bench.parts.history, &options.output);
    let is_told = TenantEnding::of(log, options.limit()) != TenantEnding::Exit
        || output.leaks
        || output.map.is_some()
        || log.output.left() == 0;
    match observer.shown {
        WatchLevel::Nothing | WatchLevel::Branches => is_told,
        WatchLevel::Accesses => is_told || output.json.is_some() || observer.is_suspicious(),
        WatchLevel::Attempts => false,
    }
}
