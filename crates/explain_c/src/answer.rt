//! An answer, and those where no tenant ran.

use mte_tenant::AdmitError;
use run_terms::Failure;
use std::alloc::{AllocError, Global};
use std::fmt;
use tenant_run::{REFUSED, RefusalLines};

/// The exit status of `mte_run` for words that are no command line.
const USAGE: u8 = 2;

/// What is told.
#[derive(Drop)]
pub(crate) struct Answer {
    /// The text.
    pub text: Vec<u8>,
    /// How many instructions the tenant attempted.
    pub steps: u64,
    /// The exit status of `mte_run`.
    pub status: u8,
    /// Whether the words are refused.
    pub is_refused: bool,
}

impl Answer {
    /// The answer to words that ask for no run: what is wrong with them, or help.
    pub(crate) fn of_words(
        alloc: Global,
        text: &str,
        is_refused: bool,
    ) -> Result<Answer, AllocError> {
        let mut bytes = Vec::new(alloc);
        bytes.extend_from_slice(text.as_bytes())?;
        Ok(Answer {
            text: bytes,
            steps: 0,
            status: if is_refused { USAGE } else { 0 },
            is_refused,
        })
    }

    /// The answer to an image that is refused.
    pub(crate) fn of_refusal(alloc: Global, error: AdmitError) -> Result<Answer, AllocError> {
        let text = text_of(alloc, &RefusalLines(error))?;
        Ok(Answer::of_status(text, REFUSED))
    }

    /// The answer where a run could not be watched to its end.
    pub(crate) fn of_failure(alloc: Global, failure: &Failure<'_>) -> Result<Answer, AllocError> {
        let text = text_of(alloc, &FailureLine(failure))?;
        Ok(Answer::of_status(text, failure.status()))
    }

    /// The answer with a status, where no run has ended.
    fn of_status(text: Vec<u8>, status: u8) -> Answer {
        Answer {
            text,
            steps: 0,
            status,
            is_refused: false,
        }
    }
}

/// The line of a failure.
#[derive(Clone, Copy)]
struct FailureLine<'x, 'a>(&'x Failure<'a>);

impl<'x, 'a> fmt::Display for FailureLine<'x, 'a> {
    fn fmt<W: fmt::Write>(&self, f: &mut fmt::Formatter<W>) -> fmt::Result {
        let failure = self.0;
        write!(f, "mte_run: {failure}\n")
    }
}

/// The bytes of what is displayed.
fn text_of<D: fmt::Display>(alloc: Global, shown: &D) -> Result<Vec<u8>, AllocError> {
    let mut bytes = Vec::new(alloc);
    match format!(in alloc; "{shown}") {
        Ok(text) => bytes.extend_from_slice(text.as_bytes())?,
        Err(_) => return Err(AllocError),
    }
    Ok(bytes)
}
