//! The words of a command line.

use crate::form::AnswerForm;
use run_terms::Options;
use std::alloc::{AllocError, Global};

/// The name of the file that an answer would be written into.
const ANSWER: &str = "answer of tb_explain";

/// The words that ask for a form: the program's name, the form's option, those of the caller, one a
/// line, and the image's name.
pub(crate) fn words_of(
    alloc: Global,
    form: AnswerForm,
    options: &str,
    name: &str,
) -> Result<Vec<String>, AllocError> {
    let mut words = Vec::new(alloc);
    words.push(String::from_str(alloc, "mte_run")?)?;
    if let Some(option) = form.option() {
        words.push(String::from_str(alloc, option)?)?;
        words.push(String::from_str(alloc, ANSWER)?)?;
    }
    for line in options.lines() {
        words.push(String::from_str(alloc, line)?)?;
    }
    words.push(String::from_str(alloc, "--")?)?;
    words.push(String::from_str(alloc, name)?)?;
    Ok(words)
}

/// Whether options ask for a file, for lines while the tenant runs, for a session or for GDB, which
/// are not to be had here.
pub(crate) fn wants_system(options: &Options) -> bool {
    let output = &options.output;
    let reads = options.run.input.is_some() || output.suppressions.is_some();
    let writes = output.core.is_some()
        || output.trace_file.is_some()
        || options.length.progress.is_some()
        || is_file(&output.json)
        || is_file(&output.sarif)
        || is_file(&output.page)
        || is_file(&output.map)
        || is_file(&output.profile);
    let has_lines = output
        .traced
        .is_some_and(|traced| traced.services || traced.from <= traced.to);
    reads || writes || has_lines || options.replay.is_some() || options.is_debugged
}

/// Whether a name is that of a file, and not of the answer.
fn is_file(name: &Option<String>) -> bool {
    match name {
        Some(name) => name.as_str() != ANSWER,
        None => false,
    }
}
