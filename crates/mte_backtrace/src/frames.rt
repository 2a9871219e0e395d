//! The frames of an address: one for each inlined call that it is in, and one for the function that
//! its code is in.

ghost use Rattle.std.specs.Iterator.{at_most};

use debug_info::{CallsAt, DEEPEST};
use debug_lines::SourceLine;
use elf_symbols::{SymbolName, SymbolOffset};
use std::fmt;

/// The name of a frame.
#[derive(Clone, Copy)]
pub enum FrameName<'a> {
    /// The name of a function that was inlined, where it has one.
    Inlined(Option<SymbolName<'a>>),
    /// The place in a function that was called.
    Own(SymbolOffset<'a>),
}

/// A function, inlined or not, and the source line in it.
#[derive(Clone, Copy)]
pub struct StackFrame<'a> {
    pub name: FrameName<'a>,
    pub line: Option<SourceLine<'a>>,
}

/// `NAME at FILE:LINE (inlined)`, with `??` for a name that is not known, or `NAME+OFFSET at
/// FILE:LINE`, with the address where it has no name. The line is left out where none is known.
impl<'a> fmt::Display for StackFrame<'a> {
    fn fmt<W: fmt::Write>(&self, f: &mut fmt::Formatter<W>) -> fmt::Result {
        match &self.name {
            FrameName::Inlined(name) => write_inlined(f, name)?,
            FrameName::Own(place) => write_label(f, place)?,
        }
        if let Some(line) = &self.line {
            write!(f, " at {line}")?;
        }
        match &self.name {
            FrameName::Inlined(_) => f.write_str(" (inlined)"),
            FrameName::Own(_) => Ok(()),
        }
    }
}

fn write_inlined<W: fmt::Write>(
    f: &mut fmt::Formatter<W>,
    name: &Option<SymbolName<'_>>,
) -> fmt::Result {
    match name {
        Some(name) => write!(f, "{name}"),
        None => f.write_str("??"),
    }
}

fn write_label<W: fmt::Write>(f: &mut fmt::Formatter<W>, place: &SymbolOffset<'_>) -> fmt::Result {
    let label = place.label();
    write!(f, "{label}")
}

/// The frames of an address, the innermost first: a call's line is that of the frame after it.
#[derive(Clone, Copy)]
pub struct FramesAt<'n, 'a> {
    calls: CallsAt<'n, 'a>,
    place: SymbolOffset<'a>,
    /// The line of the next frame.
    line: Option<SourceLine<'a>>,
    /// How many more there may be.
    left: u32,
}

impl<'n, 'a> FramesAt<'n, 'a> {
    /// The frames of an address, by the inlined calls that it is in, its place and its line.
    pub(crate) fn new(
        calls: CallsAt<'n, 'a>,
        place: SymbolOffset<'a>,
        line: Option<SourceLine<'a>>,
    ) -> FramesAt<'n, 'a> {
        FramesAt {
            calls,
            place,
            line,
            left: DEEPEST + 1,
        }
    }
}

impl<'n, 'a> Iterator for FramesAt<'n, 'a> {
    type Item = StackFrame<'a>;

    ghost remaining = { λ s. at_most s.left };

    fn next(&mut self) -> Option<StackFrame<'a>> {
        self.left = self.left.checked_sub(1)?;
        let line = self.line;
        let name = match self.calls.next() {
            Some(call) => {
                self.line = call.line();
                FrameName::Inlined(call.name().map(|name| SymbolName::of(name)))
            }
            None => {
                self.left = 0;
                FrameName::Own(self.place)
            }
        };
        Some(StackFrame { name, line })
    }
}
