//! Texts of heap calls, chunks and numbers of bytes.

use crate::book::{BookChunk, BookEntry};
use heap_bounds::CallText;
use std::fmt;

/// A heap call: its number, its arguments and result, and when it was made.
#[derive(Clone, Copy)]
pub struct EntryText<'a>(pub &'a BookEntry);

impl<'a> fmt::Display for EntryText<'a> {
    fn fmt<W: fmt::Write>(&self, f: &mut fmt::Formatter<W>) -> fmt::Result {
        let (number, step) = (self.0.number, self.0.step);
        let (call, answer) = (CallText(self.0.call.call), self.0.call.answer);
        write!(f, "call {number}, {call} = {answer:#018x}, step {step}")
    }
}

impl fmt::Display for BookChunk {
    fn fmt<W: fmt::Write>(&self, f: &mut fmt::Formatter<W>) -> fmt::Result {
        write!(f, "{}-byte allocation at {:#018x}", self.size, self.pointer)
    }
}

/// A number of things of one kind.
#[derive(Clone, Copy)]
pub struct Count {
    /// How many.
    pub number: u64,
    /// The name of one of them; more have an `s` after it.
    pub unit: &'static str,
}

impl fmt::Display for Count {
    fn fmt<W: fmt::Write>(&self, f: &mut fmt::Formatter<W>) -> fmt::Result {
        let Count { number, unit } = self;
        let plural = if *number == 1 { "" } else { "s" };
        write!(f, "{number} {unit}{plural}")
    }
}

/// A number of bytes.
#[derive(Clone, Copy)]
pub struct Bytes(pub u64);

impl fmt::Display for Bytes {
    fn fmt<W: fmt::Write>(&self, f: &mut fmt::Formatter<W>) -> fmt::Result {
        let count = Count {
            number: self.0,
            unit: "byte",
        };
        write!(f, "{count}")
    }
}
