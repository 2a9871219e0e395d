//! Calls as JSON (RFC 8259).

use crate::call_stack::CallStack;
use crate::frames::{FrameName, FramesAt, StackFrame};
use crate::names::FrameNames;
use debug_lines::SourceLine;
use elf_symbols::{SymbolName, SymbolOffset};
use std::io::Write;
use std::{fmt, io};

/// A text as a string of JSON.
#[derive(Clone, Copy)]
pub struct Quoted<'a>(pub &'a str);

impl<'a> fmt::Display for Quoted<'a> {
    fn fmt<W: fmt::Write>(&self, f: &mut fmt::Formatter<W>) -> fmt::Result {
        f.write_str("\"")?;
        for character in self.0.chars() {
            write_character(f, character)?;
        }
        f.write_str("\"")
    }
}

/// Writes a character of a string, with an escape where it needs one.
fn write_character<W: fmt::Write>(f: &mut fmt::Formatter<W>, character: char) -> fmt::Result {
    match character {
        '"' => f.write_str("\\\""),
        '\\' => f.write_str("\\\\"),
        '\0'..='\x1f' => write!(f, "\\u{:04x}", character as u32),
        _ => write!(f, "{character}"),
    }
}

/// A frame of an instruction or a call: the address, and the function and the source line where
/// they are known.
#[derive(Clone, Copy)]
struct FrameObject<'a> {
    address: u64,
    frame: StackFrame<'a>,
}

impl<'a> fmt::Display for FrameObject<'a> {
    fn fmt<W: fmt::Write>(&self, f: &mut fmt::Formatter<W>) -> fmt::Result {
        let address = self.address;
        write!(f, "{{\"address\":\"{address:#x}\"")?;
        match &self.frame.name {
            FrameName::Inlined(name) => write_inlined(f, name)?,
            FrameName::Own(place) => write_function(f, place)?,
        }
        if let Some(line) = &self.frame.line {
            write_line(f, line)?;
        }
        f.write_str("}")
    }
}

/// Writes the name of a function whose code was inlined.
fn write_inlined<W: fmt::Write>(
    f: &mut fmt::Formatter<W>,
    name: &Option<SymbolName<'_>>,
) -> fmt::Result {
    if let Some(name) = name {
        let shown = name.shown();
        let name = Quoted(shown.as_str());
        write!(f, ",\"function\":{name}")?;
    }
    f.write_str(",\"inlined\":true")
}

/// Writes the name of a function, and an address's offset in it.
fn write_function<W: fmt::Write>(
    f: &mut fmt::Formatter<W>,
    place: &SymbolOffset<'_>,
) -> fmt::Result {
    let Some(name) = place.name() else {
        return Ok(());
    };
    let shown = name.shown();
    let (name, offset) = (Quoted(shown.as_str()), place.offset());
    write!(f, ",\"function\":{name},\"offset\":{offset}")
}

/// Writes a source line.
fn write_line<W: fmt::Write>(f: &mut fmt::Formatter<W>, line: &SourceLine<'_>) -> fmt::Result {
    let (file, path, number) = (Quoted(line.file), Quoted(line.path), line.line);
    write!(f, ",\"file\":{file},\"path\":{path},\"line\":{number}")
}

impl CallStack {
    /// Writes an array of the instruction and its calls, inlined or not, the innermost first.
    pub fn write_json<W: Write>(&self, out: &mut W, names: &FrameNames<'_>) -> io::Result<()> {
        let frames = names.instruction_frames(self.pc);
        write_frames(out, self.pc, frames, "[")?;
        for caller in &self.callers {
            let frames = names.call_frames(*caller);
            write_frames(out, *caller, frames, ",")?;
        }
        write!(out, "]")
    }

    /// Writes the number of the user's frame in that array as a key, after a comma.
    pub fn write_json_user<W: Write>(&self, out: &mut W, names: &FrameNames<'_>) -> io::Result<()> {
        match self.user_frame(names) {
            Some(found) => {
                let number = found.number;
                write!(out, ",\"user\":{number}")
            }
            None => Ok(()),
        }
    }
}

/// Writes an object for each frame of an address, with what is in front of the first.
fn write_frames<W: Write>(
    out: &mut W,
    address: u64,
    frames: FramesAt<'_, '_>,
    front: &str,
) -> io::Result<()> {
    let mut is_first = true;
    for frame in frames {
        let front = if is_first { front } else { "," };
        let object = FrameObject { address, frame };
        write!(out, "{front}{object}")?;
        is_first = false;
    }
    Ok(())
}
