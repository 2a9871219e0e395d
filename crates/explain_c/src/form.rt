//! The forms of an answer.

/// The form of an answer, by its number.
#[derive(Clone, Copy, PartialEq, Eq)]
pub enum AnswerForm {
    /// The lines that `mte_run` writes on standard error.
    Report = 0,
    /// The tenant's output.
    Output = 1,
    /// A document in JSON.
    Json = 2,
    /// A log in SARIF.
    Sarif = 3,
    /// A page that shows the heap step by step.
    Page = 4,
    /// A picture of the heap.
    Picture = 5,
    /// The counts of a profile.
    Profile = 6,
}

impl AnswerForm {
    /// The form with a number.
    pub fn of(number: u32) -> Option<AnswerForm> {
        match number {
            0 => Some(AnswerForm::Report),
            1 => Some(AnswerForm::Output),
            2 => Some(AnswerForm::Json),
            3 => Some(AnswerForm::Sarif),
            4 => Some(AnswerForm::Page),
            5 => Some(AnswerForm::Picture),
            6 => Some(AnswerForm::Profile),
            _ => None,
        }
    }

    /// The option of `mte_run` that asks for it, where one does.
    pub fn option(self) -> Option<&'static str> {
        match self {
            AnswerForm::Report | AnswerForm::Output => None,
            AnswerForm::Json => Some("--json"),
            AnswerForm::Sarif => Some("--sarif"),
            AnswerForm::Page => Some("--html"),
            AnswerForm::Picture => Some("--map"),
            AnswerForm::Profile => Some("--profile"),
        }
    }
}
