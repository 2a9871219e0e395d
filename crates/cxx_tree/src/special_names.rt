//! Names of what a compiler makes (`<special-name>`).

use crate::nodes::Node;
use crate::parser::{Parser, Task};

impl<'a> Parser<'a> {
    /// Reads a special name.
    pub(crate) fn special_name(&mut self) -> Option<()> {
        let letters = self.reader.take(2)?;
        match letters {
            "TV" => self.special_type("vtable for "),
            "TT" => self.special_type("VTT for "),
            "TI" => self.special_type("typeinfo for "),
            "TS" => self.special_type("typeinfo name for "),
            "TW" => self.special_variable("TLS wrapper function for "),
            "TH" => self.special_variable("TLS init function for "),
            "GV" => self.special_variable("guard variable for "),
            "GR" => self.schedule(&[Task::Name(false), Task::ReferenceTail]),
            "GT" => self.transaction_clone(),
            "GA" => self.thunk("hidden alias for "),
            "TC" => { self.schedule(&[Task::Type, Task::SkipNumber, Task::Type, Task::InScope]) }
            _ => self.thunk_name(letters),
        }
    }

    /// Reads the name of a thunk, by its letters.
    fn thunk_name(&mut self, letters: &str) -> Option<()> {
        match letters {
            "Th" => {
                self.reader.offset()?;
                self.thunk("non-virtual thunk to ")
            }
            "Tv" => {
                self.reader.offset()?;
                self.reader.offset()?;
                self.thunk("virtual thunk to ")
            }
            "Tc" => {
                self.reader.call_offset()?;
                self.reader.call_offset()?;
                self.thunk("covariant return thunk to ")
            }
            _ => None,
        }
    }

    /// Reads the name of a copy of a function for transactions (`GTt`), or of one next to it
    /// (`GTn`).
    fn transaction_clone(&mut self) -> Option<()> {
        if self.reader.eat("t") {
            return self.thunk("transaction clone for ");
        }
        self.reader.expect("n")?;
        self.thunk("non-transaction clone for ")
    }

    fn special_type(&mut self, words: &'static str) -> Option<()> {
        self.schedule(&[Task::Type, Task::Between(words, "")])
    }

    fn special_variable(&mut self, words: &'static str) -> Option<()> {
        self.schedule(&[Task::Name(false), Task::Between(words, "")])
    }

    fn thunk(&mut self, words: &'static str) -> Option<()> {
        self.schedule(&[Task::Encoding, Task::Between(words, "")])
    }

    /// Reads what is after the name of a temporary's variable.
    pub(crate) fn reference_tail(&mut self) -> Option<()> {
        let number = self.reader.sequence()?;
        let variable = self.values.pop()?;
        self.put(Node::Temporary(variable, number))
    }
}
