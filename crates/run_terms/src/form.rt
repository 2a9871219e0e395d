//! The forms of a script's lines.

use crate::word::{decimal, is_seed};
use mte_script::ScriptFault;
use std::fmt;

/// The form of a word of a line.
#[derive(Clone, Copy)]
pub enum ExpectedWord {
    /// The name of an event.
    Event,
    /// This word.
    Word(&'static str),
    /// `async`, or none.
    Mode,
    /// The number of a tenant.
    Tenant,
    /// A number of steps.
    Steps,
    /// A number of pages or bytes.
    Number,
    /// A seed.
    Seed,
    /// The number of a file.
    File,
    /// The same, or 0 for none.
    FileOrNone,
}

/// The words of an admission; `async` may follow.
static ADMIT: [ExpectedWord; 12] = [
    ExpectedWord::Word("admit"),
    ExpectedWord::Tenant,
    ExpectedWord::Word("image"),
    ExpectedWord::File,
    ExpectedWord::Word("input"),
    ExpectedWord::FileOrNone,
    ExpectedWord::Word("seed"),
    ExpectedWord::Seed,
    ExpectedWord::Word("frames"),
    ExpectedWord::Number,
    ExpectedWord::Word("out"),
    ExpectedWord::Number,
];

/// The form of an event's line.
#[derive(Clone, Copy)]
pub enum LineForm {
    /// An admission's.
    Admit,
    /// A slice's.
    Slice,
    /// A stop's.
    Stop,
    /// The form of no event.
    Unknown,
}

impl LineForm {
    /// The form of the event with a name.
    pub fn of(name: &[u8]) -> LineForm {
        match name {
            b"admit" => LineForm::Admit,
            b"slice" => LineForm::Slice,
            b"stop" => LineForm::Stop,
            _ => LineForm::Unknown,
        }
    }

    /// The form of the word with a number from 0; `None` where the line should have ended.
    pub fn wanted(self, number: usize) -> Option<ExpectedWord> {
        match (self, number) {
            (LineForm::Admit, 12) => Some(ExpectedWord::Mode),
            (LineForm::Admit, _) => ADMIT.get(number).copied(),
            (LineForm::Slice, 2) => Some(ExpectedWord::Steps),
            (LineForm::Slice | LineForm::Stop, 1) => Some(ExpectedWord::Tenant),
            (LineForm::Slice | LineForm::Stop, 0) => Some(ExpectedWord::Event),
            (LineForm::Slice | LineForm::Stop, _) => None,
            (LineForm::Unknown, _) => Some(ExpectedWord::Event),
        }
    }

    /// The form as a text.
    pub fn text(self) -> &'static str {
        match self {
            LineForm::Admit => "admit ID image I input J seed HEX16 frames R out O [async]",
            LineForm::Slice => "slice ID STEPS",
            LineForm::Stop => "stop ID",
            LineForm::Unknown => {
                "admit ID image I input J seed HEX16 frames R out O [async], slice ID STEPS or \
                 stop ID"
            }
        }
    }
}

impl ExpectedWord {
    /// Whether a word is what a fault names.
    pub fn is_wrong(self, word: &[u8], fault: ScriptFault, files: u64) -> bool {
        match fault {
            ScriptFault::Syntax => !self.has_form(word),
            ScriptFault::BadNumber => decimal(word).is_some_and(|number| number > self.most()),
            ScriptFault::NoSuchFile => !self.names_file(word, files),
            ScriptFault::TooManyEvents => false,
        }
    }

    /// Whether a word has the form of what is requested.
    fn has_form(self, word: &[u8]) -> bool {
        match self {
            ExpectedWord::Event => matches!(word, b"admit" | b"slice" | b"stop"),
            ExpectedWord::Word(text) => word == text.as_bytes(),
            ExpectedWord::Mode => matches!(word, b"async"),
            ExpectedWord::Seed => is_seed(word),
            _ => decimal(word).is_some(),
        }
    }

    /// The largest number that is allowed there.
    fn most(self) -> u64 {
        match self {
            ExpectedWord::Tenant => 65_535,
            ExpectedWord::Steps => 1_048_576,
            ExpectedWord::Number | ExpectedWord::File | ExpectedWord::FileOrNone => 4_294_967_295,
            ExpectedWord::Event | ExpectedWord::Word(_) | ExpectedWord::Mode | ExpectedWord::Seed =>
                u64::MAX,
        }
    }

    /// Whether a word names a file that is there, if it is to name one.
    fn names_file(self, word: &[u8], files: u64) -> bool {
        let number = decimal(word).unwrap_or(0);
        match self {
            ExpectedWord::File => 0 < number && number <= files,
            ExpectedWord::FileOrNone => number <= files,
            _ => true,
        }
    }
}

impl fmt::Display for ExpectedWord {
    fn fmt<W: fmt::Write>(&self, f: &mut fmt::Formatter<W>) -> fmt::Result {
        f.write_str(match self {
            ExpectedWord::Event => "admit, slice or stop",
            ExpectedWord::Word(text) => return write!(f, "the word {text}"),
            ExpectedWord::Mode => "the word async, or the end of the line",
            ExpectedWord::Tenant => "a tenant's number, 0 to 65535",
            ExpectedWord::Steps => "a number of steps, 0 to 1048576",
            ExpectedWord::Number => "a number, 0 to 4294967295",
            ExpectedWord::Seed => "16 hexadecimal digits",
            ExpectedWord::File => "a file's number, from 1 as they follow the options",
            ExpectedWord::FileOrNone => {
                "a file's number, from 1 as they follow the options, or 0 for none"
            }
        })
    }
}
