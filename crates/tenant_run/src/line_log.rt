//! Where the lines go that are written while a tenant runs.

use crate::observer::{Observer, WatchLists, checker_of, exact_of};
use crate::survey::silent_observer;
use crate::tracer::Tracer;
use crate::whole_file::replace_file;
use either::Either;
use elf_symbols::Symbols;
use run_cause::CheckTerms;
use run_profile::RunProfile;
use run_terms::{Failure, Options, OutputOptions, Suppressions, Traced};
use std::alloc::{AllocError, Global};
use std::fs::File;
use std::io::{BufWriter, Stderr};

/// Where the lines go that are written while a tenant runs.
pub(crate) type Log = BufWriter<Either<Stderr, File>>;

/// The records and texts of a tenant, as the options request them: with the names of an
/// image's functions, where it is known before the run, and without what is not told.
pub fn observer_of<'i>(
    rt: &HostRuntime,
    options: &Options,
    image: &'i [u8],
    suppressions: &'i Suppressions,
) -> Result<Observer<'i>, AllocError> {
    let output = &options.output;
    let tracer = match output.traced {
        Some(traced) => Some(tracer_of(rt, output, traced, image)?),
        None => None,
    };
    let terms = CheckTerms {
        image,
        kinds: output.check,
        suppressions,
        continues: output.continues,
    };
    observer_with(rt.alloc(), output, tracer, &terms)
}

/// The records of a tenant, as the options request them, of which no line is written while it runs.
pub fn quiet_observer<'i>(
    alloc: Global,
    output: &OutputOptions,
    terms: &CheckTerms<'i>,
) -> Result<Observer<'i>, AllocError> {
    observer_with(alloc, output, None, terms)
}

/// What finds, in a tenant of an image, what the options forbid beyond its tags, and remembers
/// nothing else that they request.
pub fn finder_of<'i>(
    alloc: Global,
    options: &Options,
    image: &'i [u8],
    suppressions: &'i Suppressions,
) -> Result<Observer<'i>, AllocError> {
    let terms = CheckTerms {
        image,
        kinds: options.output.check,
        suppressions,
        continues: false,
    };
    silent_observer(alloc, options, &terms)
}

/// The log with the writer of its lines.
fn observer_with<'i>(
    alloc: Global,
    output: &OutputOptions,
    tracer: Option<Tracer<'i>>,
    terms: &CheckTerms<'i>,
) -> Result<Observer<'i>, AllocError> {
    let lists = WatchLists::new(alloc, output.last, output.turns)?;
    let checker = checker_of(alloc, terms)?;
    let profile = profile_of(alloc, output, terms.image)?;
    let exact = exact_of(alloc, output.exact);
    let mut observer = Observer::new(alloc, lists, exact, tracer, checker, profile);
    observer.sees_all = output.traced.is_some();
    if output.statistics {
        observer.count();
    }
    Ok(observer)
}

/// The profile of a run of an image, where it is requested.
fn profile_of<'i>(
    alloc: Global,
    output: &OutputOptions,
    image: &'i [u8],
) -> Result<Option<RunProfile<'i>>, AllocError> {
    if output.profile.is_none() {
        return Ok(None);
    }
    let profile = RunProfile::new(alloc, image)?;
    Ok(Some(profile))
}

/// The writer of some lines, with the names of an image's functions.
fn tracer_of<'i>(
    rt: &HostRuntime,
    output: &OutputOptions,
    traced: Traced,
    image: &'i [u8],
) -> Result<Tracer<'i>, AllocError> {
    let symbols = Symbols::of(rt.alloc(), image)?;
    let (out, fault) = match &output.trace_file {
        Some(name) => match replace_file(rt, name.as_str()) {
            Ok(file) => (Either::Right(file), None),
            Err(error) => (Either::Left(rt.stderr()), Some(error.kind())),
        },
        None => (Either::Left(rt.stderr()), None),
    };
    match BufWriter::new(rt.alloc(), out) {
        Ok(log) => Ok(Tracer::new(traced, symbols, log, fault)),
        Err(_) => Err(AllocError),
    }
}

/// An empty file with a name, for lines.
pub(crate) fn create<'a>(rt: &HostRuntime, name: &'a str) -> Result<File, Failure<'a>> {
    match replace_file(rt, name) {
        Ok(file) => Ok(file),
        Err(error) => Err(Failure::of_write(&error, name)),
    }
}
