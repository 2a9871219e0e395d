//! Reports and files of a tenant at its end.

use crate::account::RunAccount;
use crate::core_dump::dump_core;
use crate::ended_run::EndedRun;
use crate::limits::{failure_of, reserved_pages};
use crate::lost::lost_chunks;
use crate::map::draw_map;
use crate::profile::write_profile;
use crate::request::{Run, RunRequest};
use debuggee::CoreSubject;
use mte_backtrace::Names;
use mte_flat::Flat;
use mte_report::Report;
use mte_svc::TenantParts;
use report_documents::Document;
use run_profile::RunProfile;
use run_terms::{Failure, Options};
use std::io;
use std::io::{BufWriter, Write};
use tenant_run::{Observer, WholeFile};

/// What a watch has for other files than the report's.
#[derive(Clone, Copy)]
struct SideFiles<'x> {
    /// The profile of the run, if it is requested.
    profile: Option<&'x RunProfile<'x>>,
    /// Why not all lines of a trace could be written.
    lines_fault: Option<io::ErrorKind>,
}

/// Writes what happened to a tenant, and returns the exit status.
pub fn tell_end<'a>(
    request: &RunRequest<'a, '_>,
    run: &Run<'_>,
    parts: &TenantParts,
    memory: &mut Flat,
    observer: &mut Observer<'_>,
) -> Result<u8, Failure<'a>> {
    observer.finish();
    end_watch(observer)?;
    tell_parts(request, run, parts, memory, observer)
}

/// What of the watch is a failure: a chunk that is missing, or that it is full.
fn end_watch<'a>(observer: &Observer<'_>) -> Result<(), Failure<'a>> {
    if !observer.is_complete() {
        return Err(Failure::Memory);
    }
    if let Some(full) = observer.full() {
        return Err(failure_of(full));
    }
    Ok(())
}

/// Writes what happened by a tenant's parts and its memory. It borrows them, so that none of its
/// ends has to drop them.
fn tell_parts<'a>(
    request: &RunRequest<'a, '_>,
    run: &Run<'_>,
    parts: &TenantParts,
    memory: &mut Flat,
    observer: &Observer<'_>,
) -> Result<u8, Failure<'a>> {
    let (alloc, options) = (request.rt.alloc(), request.options);
    let subject = CoreSubject {
        parts,
        mode: run.mode,
        name: run.image.name,
    };
    let reserved = reserved_pages(alloc, options, memory)?;
    let chunks = lost_chunks(alloc, parts, observer, memory)?;
    let ended = EndedRun {
        parts,
        observer,
        options,
        image: run.image.name,
        seed: run.seed,
    };
    let is_named = !chunks.is_empty() || ended.is_told();
    let names = Names::of(alloc, if is_named { run.image.bytes } else { &[] })?;
    let report = ended.report(&names, reserved);
    let lost = report.told_lost(alloc, chunks.as_slice(), request.suppressions)?;
    let account = RunAccount {
        report: &report,
        options,
        lost: lost.as_slice(),
    };
    let side = SideFiles {
        profile: observer.profile(),
        lines_fault: observer.lines_fault(),
    };
    tell(request, &account, &subject, memory, side)
}

/// The failure to write the lines of a trace, if there was one.
fn end_lines<'a>(
    options: &'a Options,
    lines_fault: Option<io::ErrorKind>,
) -> Result<(), Failure<'a>> {
    match (lines_fault, &options.output.trace_file) {
        (None, _) => Ok(()),
        (Some(_), None) => Err(Failure::Write),
        (Some(kind), Some(name)) => {
            Err(Failure::of_write(&io::Error::from(kind), name.as_str()))
        }
    }
}

/// Writes what happened, and what the options request, and returns the exit status.
fn tell<'a>(
    request: &RunRequest<'a, '_>,
    account: &RunAccount<'_>,
    subject: &CoreSubject<'_>,
    memory: &mut Flat,
    side: SideFiles<'_>,
) -> Result<u8, Failure<'a>> {
    let mut out = BufWriter::new(request.rt.alloc(), request.rt.stderr())?;
    tell_into(request, account, subject, memory, side, &mut out)
}

/// Writes so, with the lines to a writer.
fn tell_into<'a, W: Write>(
    request: &RunRequest<'a, '_>,
    account: &RunAccount<'_>,
    subject: &CoreSubject<'_>,
    memory: &mut Flat,
    side: SideFiles<'_>,
    out: &mut W,
) -> Result<u8, Failure<'a>> {
    let (rt, options) = (request.rt, request.options);
    let _ = account.write_cut(out);
    account.write_story(rt.alloc(), out, memory)?;
    out.flush()?;
    let status = account.status();
    write_files(rt, account.report, options, status, memory)?;
    dump_core(request, subject, memory)?;
    write_profile(request, subject.name, subject.parts, side.profile)?;
    end_lines(options, side.lines_fault)?;
    let _ = account.write_end(out);
    let _ = out.flush();
    Ok(status)
}

/// Writes the files that the options name.
fn write_files<'a>(
    rt: &HostRuntime,
    report: &Report<'_>,
    options: &'a Options,
    exit_status: u8,
    memory: &mut Flat,
) -> Result<(), Failure<'a>> {
    let document = Document {
        alloc: rt.alloc(),
        report,
        exit_status,
    };
    let named = [
        (&options.output.json, DocumentForm::Json),
        (&options.output.sarif, DocumentForm::Sarif),
        (&options.output.page, DocumentForm::Page),
    ];
    for (name, form) in named.iter() {
        if let Some(name) = name {
            let name = name.as_str();
            write_document(rt, &document, *form, name, memory).map_err(|error| Failure::of_write(
                &error, name,
            ))?;
        }
    }
    draw_map(rt, report, options, memory)
}

/// The use of a document.
#[derive(Clone, Copy)]
enum DocumentForm {
    /// A program that reads JSON.
    Json,
    /// Editors and forges, which read SARIF.
    Sarif,
    /// Browsers.
    Page,
}

/// Writes a document into the file with a name.
fn write_document(
    rt: &HostRuntime,
    document: &Document<'_>,
    form: DocumentForm,
    name: &str,
    memory: &mut Flat,
) -> io::Result<()> {
    let mut file = WholeFile::create(rt, name)?;
    let written = match form {
        DocumentForm::Json => document.write_json(&mut file, memory),
        DocumentForm::Sarif => document.write_sarif(&mut file, memory),
        DocumentForm::Page => document.write_page(&mut file, memory),
    };
    file.conclude(rt, written)
}
