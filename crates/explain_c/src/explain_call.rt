//! The export that tells why a tenant ended.

ghost use Rattle.std.specs.Prelude.{◌≡◌, drop, length};

use crate::answer::Answer;
use crate::codes::{BAD_ARGUMENT, NO_ROOM, OK, OUT_OF_MEMORY};
use crate::explaining::{Question, explain};
use crate::form::AnswerForm;
use crate::words::{wants_system, words_of};
use clap::error::ErrorKind;
use run_options::parse;
use run_terms::{Failure, Options};
use std::alloc::{AllocError, Global};
use std::str;

/// The exit status of `mte_run` where an allocation failed.
const MEMORY_STATUS: u32 = 4;

/// An image, what it may read, and what is asked of it.
#[repr(C)]
#[derive(Clone, Copy)]
pub struct LentQuestion<'a> {
    /// The image.
    pub image: &'a [u8],
    /// What it may read.
    pub input: &'a [u8],
    /// The name that is told as that of its file.
    pub name: &'a [u8],
    /// Options of a command line of `mte_run`, one word a line.
    pub options: &'a [u8],
    /// The form of the answer: 0 the lines of standard error, 1 the tenant's output, 2 JSON, 3
    /// SARIF, 4 the page of the heap step by step, 5 the picture of the heap.
    pub form: u32,
}

/// How an explanation ended.
#[repr(C)]
#[derive(Clone, Copy)]
pub struct ExplainEnd {
    /// How many bytes the whole answer has.
    pub length: u64,
    /// How many instructions the tenant attempted.
    pub steps: u64,
    /// OK, NO_ROOM, BAD_ARGUMENT or OUT_OF_MEMORY.
    pub code: u32,
    /// The status that `mte_run` exits with.
    pub status: u32,
}

/// Runs an image alone, and copies as much as the buffer holds of what `mte_run` tells of it.
/// BAD_ARGUMENT where the options are no command line or no text, where they name files, and for
/// any other form: the answer says what is wrong.
#[unsafe(no_mangle)]
pub extern "C" fn tb_explain(
    alloc: Global,
    question: &LentQuestion<'_>,
    answer: &mut [u8],
    end: &mut ExplainEnd,
) -> u32
    ensures code { result ≡ end.new.code }
    ensures room { length answer.new ≡ length answer.old }
    ensures behind { drop end.new.length answer.new ≡ drop end.new.length answer.old }
{
    *end = match told(alloc, question) {
        Ok(told) => copied(&told, answer),
        Err(_) => ExplainEnd {
            length: 0,
            steps: 0,
            code: OUT_OF_MEMORY,
            status: MEMORY_STATUS,
        },
    };
    end.code
}

/// Copies as much of an answer as the buffer holds.
fn copied(told: &Answer, answer: &mut [u8]) -> ExplainEnd
    ensures room { length answer.new ≡ length answer.old }
    ensures behind { drop result.length answer.new ≡ drop result.length answer.old }
{
    let bytes = told.text.as_slice();
    let count = bytes.len().min(answer.len());
    answer[..count].copy_from_slice(&bytes[..count]);
    let code = if told.is_refused { BAD_ARGUMENT } else { OK };
    ExplainEnd {
        length: bytes.len() as u64,
        steps: told.steps,
        code: if bytes.len() <= answer.len() {
            code
        } else {
            NO_ROOM
        },
        status: u32::from(told.status),
    }
}

/// What is told of a run.
fn told(alloc: Global, question: &LentQuestion<'_>) -> Result<Answer, AllocError> {
    let Some(form) = AnswerForm::of(question.form) else {
        return Answer::of_words(alloc, "the form is none of 0 to 5\n", true);
    };
    let Ok(name) = str::from_utf8(question.name) else {
        return Answer::of_words(alloc, "the name is no text\n", true);
    };
    let Ok(options) = str::from_utf8(question.options) else {
        return Answer::of_words(alloc, "the options are no text\n", true);
    };
    let words = words_of(alloc, form, options, name)?;
    match parse(alloc, words.as_slice()) {
        Ok(Some(options)) => told_by(alloc, question, &options, form),
        Ok(None) => Err(AllocError),
        Err(error) if error.kind() == ErrorKind::OutOfMemory => Err(AllocError),
        Err(error) => match format!(in alloc; "{error}") {
            Ok(text) => Answer::of_words(alloc, text.as_str(), error.use_stderr()),
            Err(_) => Err(AllocError),
        },
    }
}

/// What is told of a run by options that were read.
fn told_by(
    alloc: Global,
    lent: &LentQuestion<'_>,
    options: &Options,
    form: AnswerForm,
) -> Result<Answer, AllocError> {
    if wants_system(options) {
        let text = "options that name files, --trace, --services, --script and --gdb are not to \
                    be had here\n";
        return Answer::of_words(alloc, text, true);
    }
    let question = Question {
        image: lent.image,
        input: lent.input,
        options,
        form,
    };
    match explain(alloc, &question) {
        Ok(answer) => Ok(answer),
        Err(Failure::Memory) => Err(AllocError),
        Err(failure) => Answer::of_failure(alloc, &failure),
    }
}
