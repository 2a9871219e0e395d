//! The first wrong word of a line.

use crate::form::{ExpectedWord, LineForm};
use crate::word::Shown;
use mte_script::ScriptFault;
use std::fmt;

/// The fault of a line of a script.
#[derive(Clone, Copy)]
pub struct WrongWord {
    fault: ScriptFault,
    form: LineForm,
    /// The number of the first wrong word from 0, or how many there are where one is missing.
    number: usize,
    /// That word.
    word: Option<Shown>,
}

impl WrongWord {
    /// The meaning of a fault of the line with a number from 1, with `files` files named.
    pub fn of(script: &[u8], line: u64, fault: ScriptFault, files: usize) -> WrongWord {
        let line = line_of(script, line);
        let form = form_of(line);
        let mut count = 0usize;
        for (number, word) in line
            .split(|byte| *byte == b' ')
            .filter(|it| !it.is_empty())
            .enumerate()
        {
            if is_wrong(form.wanted(number), word, fault, files as u64) {
                return WrongWord {
                    fault,
                    form,
                    number,
                    word: Some(Shown::of(word)),
                };
            }
            count = number.saturating_add(1);
        }
        WrongWord {
            fault,
            form,
            number: count,
            word: None,
        }
    }
}

/// The line with a number from 1.
fn line_of(script: &[u8], number: u64) -> &[u8] {
    let index = number.saturating_sub(1) as usize;
    script
        .split(|byte| *byte == b'\n')
        .nth(index)
        .unwrap_or(&[])
}

/// The form of a line, by its first word.
fn form_of(line: &[u8]) -> LineForm {
    match line.split(|byte| *byte == b' ').find(|it| !it.is_empty()) {
        Some(name) => LineForm::of(name),
        None => LineForm::Unknown,
    }
}

/// Whether a word is the wrong one.
fn is_wrong(wanted: Option<ExpectedWord>, word: &[u8], fault: ScriptFault, files: u64) -> bool {
    match wanted {
        Some(wanted) => wanted.is_wrong(word, fault, files),
        None => true,
    }
}

impl fmt::Display for WrongWord {
    fn fmt<W: fmt::Write>(&self, f: &mut fmt::Formatter<W>) -> fmt::Result {
        if let ScriptFault::TooManyEvents = self.fault {
            return f.write_str("a script has at most 10,000 events");
        }
        self.write_word(f)?;
        let form = self.form.text();
        write!(f, "; the form is {form}")?;
        f.write_str(self.remark())
    }
}

impl WrongWord {
    /// Writes the word, and what should be there.
    fn write_word<W: fmt::Write>(&self, f: &mut fmt::Formatter<W>) -> fmt::Result {
        let number = self.number.saturating_add(1);
        match &self.word {
            Some(word) => write!(f, "word {number}, `{word}`, should be ")?,
            None => write!(f, "the line ends where word {number} should be ")?,
        }
        match self.form.wanted(self.number) {
            Some(wanted) => write!(f, "{wanted}"),
            None => f.write_str("the end of the line"),
        }
    }

    /// The meaning of a byte of the word for the whole line.
    fn remark(&self) -> &'static str {
        let Some(word) = &self.word else {
            return "";
        };
        if word.ends_with(b'\r') {
            "; the line ends by CR LF, where LF alone should end it"
        } else if word.has(b'\t') {
            "; blanks separate words, and a tab does not"
        } else if word.has(b'#') {
            "; the # of a comment is the first byte of its line"
        } else {
            ""
        }
    }
}
