//! The explanation of a run.

use crate::answer::Answer;
use crate::form::AnswerForm;
use command_run::{EndedRun, MapTitle, RunAccount, failure_of, lost_chunks, reserved_pages};
use common::Obstacle;
use mte_backtrace::Names;
use mte_flat::Flat;
use mte_report::PictureForm;
use mte_svc::TenantParts;
use report_documents::Document;
use run_cause::CheckTerms;
use run_profile::{ProfileFile, RunProfile};
use run_terms::{Failure, Options, Suppressions};
use std::alloc::Global;
use std::io;
use std::io::Write;
use tenant_run::{LoneTenant, Observer, Survey, TenantBench, quiet_observer};

/// An image, what it may read, and what is asked of it.
#[derive(Clone, Copy)]
pub(crate) struct Question<'x> {
    /// The image.
    pub image: &'x [u8],
    /// What it may read.
    pub input: &'x [u8],
    /// What is requested.
    pub options: &'x Options,
    /// The form of the answer.
    pub form: AnswerForm,
}

/// Runs an image alone, and tells why it ended.
pub(crate) fn explain<'a>(alloc: Global, question: &Question<'_>) -> Result<Answer, Failure<'a>> {
    let suppressions = Suppressions::none(alloc);
    let (image, input) = (question.image, question.input);
    match LoneTenant::chosen(alloc, question.options, image, input, &suppressions) {
        Ok((tenant, survey)) => explain_tenant(alloc, question, &suppressions, &tenant, survey),
        Err(Obstacle::OutOfMemory) => Err(Failure::Memory),
        Err(Obstacle::Refused(error)) => Ok(Answer::of_refusal(alloc, error)?),
    }
}

/// Runs a tenant under its seed.
fn explain_tenant<'a>(
    alloc: Global,
    question: &Question<'_>,
    suppressions: &Suppressions,
    tenant: &LoneTenant<'_>,
    survey: Option<Survey>,
) -> Result<Answer, Failure<'a>> {
    match tenant.bench(alloc, question.options) {
        Ok(bench) => {
            let terms = CheckTerms {
                image: question.image,
                kinds: question.options.output.check,
                suppressions,
                continues: question.options.output.continues,
            };
            let asked = Asked {
                question,
                terms: &terms,
                survey,
                seed: tenant.seed,
            };
            explain_bench(alloc, &asked, tenant, bench)
        }
        Err(Obstacle::OutOfMemory) => Err(Failure::Memory),
        Err(Obstacle::Refused(error)) => Ok(Answer::of_refusal(alloc, error)?),
    }
}

/// A question of one seed.
#[derive(Clone, Copy)]
struct Asked<'x> {
    question: &'x Question<'x>,
    terms: &'x CheckTerms<'x>,
    /// How runs under several seeds ended, where there were some.
    survey: Option<Survey>,
    seed: u64,
}

/// Runs a tenant from its first instruction.
fn explain_bench<'a>(
    alloc: Global,
    asked: &Asked<'_>,
    tenant: &LoneTenant<'_>,
    bench: TenantBench,
) -> Result<Answer, Failure<'a>> {
    let options = asked.question.options;
    let mut bench = bench;
    let mut observer = quiet_observer(alloc, &options.output, asked.terms)?;
    let ran = tenant.run_silently(alloc, options, &mut bench, &mut observer);
    let (parts, mut memory) = bench.into_machine();
    tell_run(alloc, asked, ran, &parts, &mut memory, &observer)
}

/// Tells why a tenant ended, if it ran. All is borrowed, so that no end has to drop it.
fn tell_run<'a>(
    alloc: Global,
    asked: &Asked<'_>,
    ran: Result<(), Failure<'a>>,
    parts: &TenantParts,
    memory: &mut Flat,
    observer: &Observer<'_>,
) -> Result<Answer, Failure<'a>> {
    ran?;
    if !observer.is_complete() {
        return Err(Failure::Memory);
    }
    if let Some(full) = observer.full() {
        return Err(failure_of(full));
    }
    tell_parts(alloc, asked, parts, memory, observer)
}

/// Tells why a tenant ended by its parts and its memory.
fn tell_parts<'a>(
    alloc: Global,
    asked: &Asked<'_>,
    parts: &TenantParts,
    memory: &mut Flat,
    observer: &Observer<'_>,
) -> Result<Answer, Failure<'a>> {
    let (question, options) = (asked.question, asked.question.options);
    let reserved = reserved_pages(alloc, options, memory)?;
    let chunks = lost_chunks(alloc, parts, observer, memory)?;
    let ended = EndedRun {
        parts,
        observer,
        options,
        image: options.file_name(1),
        seed: Some(asked.seed),
    };
    let is_named = !chunks.is_empty() || ended.is_told();
    let names = Names::of(alloc, if is_named { question.image } else { &[] })?;
    let report = ended.report(&names, reserved);
    let lost = report.told_lost(alloc, chunks.as_slice(), asked.terms.suppressions)?;
    let account = RunAccount {
        report: &report,
        options,
        lost: lost.as_slice(),
    };
    let mut text = Vec::new(alloc);
    let profile = observer.profile();
    write_answer(alloc, &mut text, asked, &account, memory, profile)?;
    Ok(Answer {
        text,
        steps: parts.history.steps,
        status: account.status(),
        is_refused: false,
    })
}

/// Writes the answer in its form.
fn write_answer(
    alloc: Global,
    out: &mut Vec<u8>,
    asked: &Asked<'_>,
    account: &RunAccount<'_>,
    memory: &mut Flat,
    profile: Option<&RunProfile<'_>>,
) -> io::Result<()> {
    let report = account.report;
    let document = Document {
        alloc,
        report,
        exit_status: account.status(),
    };
    match asked.question.form {
        AnswerForm::Report => write_report(alloc, out, asked, account, memory),
        AnswerForm::Output => out.write_all(report.parts.history.output.as_slice()),
        AnswerForm::Json => document.write_json(out, memory),
        AnswerForm::Sarif => document.write_sarif(out, memory),
        AnswerForm::Page => document.write_page(out, memory),
        AnswerForm::Picture => {
            let title = MapTitle(asked.question.options);
            let title = format!(in alloc; "{title}")?;
            report.draw(alloc, out, title.as_str(), PictureForm::Svg, memory)
        }
        AnswerForm::Profile => {
            let Some(profile) = profile else {
                return Ok(());
            };
            let file = ProfileFile {
                profile,
                name: asked.question.options.file_name(1),
                steps: report.parts.history.steps,
            };
            file.write(alloc, out)
        }
    }
}

/// Writes the lines of the report.
fn write_report(
    alloc: Global,
    out: &mut Vec<u8>,
    asked: &Asked<'_>,
    account: &RunAccount<'_>,
    memory: &mut Flat,
) -> io::Result<()> {
    if let Some(survey) = asked.survey {
        writeln!(out, "mte_run: {survey}")?;
    }
    account.write_cut(out)?;
    account.write_story(alloc, out, memory)?;
    account.write_end(out)
}
