//! Calls as parts of a log in the Static Analysis Results Interchange Format (SARIF 2.1.0, 3.28
//! "location object", 3.45 "stackFrame object").

use crate::call_stack::CallStack;
use crate::frames::{FrameName, FramesAt, StackFrame};
use crate::json::Quoted;
use crate::names::FrameNames;
use debug_lines::SourceLine;
use std::io::Write;
use std::{fmt, io};

/// The path of a source line as the reference of a URI (RFC 3986, 4.1): an absolute one is of the
/// scheme `file`, and each byte of a path that may not be there as it is is `%HH`.
#[derive(Clone, Copy)]
struct PathUri<'a>(SourceLine<'a>);

impl<'a> fmt::Display for PathUri<'a> {
    fn fmt<W: fmt::Write>(&self, f: &mut fmt::Formatter<W>) -> fmt::Result {
        let SourceLine {
            path,
            directory,
            ..
        } = self.0;
        match directory {
            Some(directory) if directory.starts_with('/') => {
                write_absolute(f, directory)?;
                f.write_str("/")?;
                write_encoded(f, path)
            }
            _ if path.starts_with('/') => write_absolute(f, path),
            _ => write_encoded(f, path),
        }
    }
}

/// Writes an absolute path.
fn write_absolute<W: fmt::Write>(f: &mut fmt::Formatter<W>, path: &str) -> fmt::Result {
    f.write_str("file://")?;
    write_encoded(f, path)
}

/// Writes a path.
fn write_encoded<W: fmt::Write>(f: &mut fmt::Formatter<W>, path: &str) -> fmt::Result {
    for byte in path.as_bytes() {
        match byte {
            b'a'..=b'z' | b'A'..=b'Z' | b'0'..=b'9' | b'-' | b'.' | b'_' | b'~' | b'/' => {
                write!(f, "{}", *byte as char)?;
            }
            _ => write!(f, "%{byte:02X}")?,
        }
    }
    Ok(())
}

/// The parts of a location that a frame has, each after the comma of the one in front.
#[derive(Clone, Copy)]
struct FrameParts<'a>(StackFrame<'a>);

impl<'a> fmt::Display for FrameParts<'a> {
    fn fmt<W: fmt::Write>(&self, f: &mut fmt::Formatter<W>) -> fmt::Result {
        if let Some(line) = &self.0.line {
            let (uri, number) = (PathUri(*line), line.line);
            write!(
                f,
                ",\"physicalLocation\":{{\"artifactLocation\":{{\"uri\":\"{uri}\"}}"
            )?;
            write!(f, ",\"region\":{{\"startLine\":{number}}}}}")?;
        }
        let name = match &self.0.name {
            FrameName::Inlined(name) => *name,
            FrameName::Own(place) => place.name(),
        };
        match name {
            Some(name) => {
                let shown = name.shown();
                let name = Quoted(shown.as_str());
                write!(
                    f,
                    ",\"logicalLocations\":[{{\"name\":{name},\"kind\":\"function\"}}]"
                )
            }
            None => Ok(()),
        }
    }
}

/// A stack frame.
#[derive(Clone, Copy)]
struct FrameObject<'a>(StackFrame<'a>);

impl<'a> fmt::Display for FrameObject<'a> {
    fn fmt<W: fmt::Write>(&self, f: &mut fmt::Formatter<W>) -> fmt::Result {
        let parts = FrameParts(self.0);
        write!(f, "{{\"location\":{{\"id\":-1{parts}}}}}")
    }
}

impl CallStack {
    /// Writes an array of stack frames, inlined or not, the innermost first.
    pub fn write_sarif_frames<W: Write>(
        &self,
        out: &mut W,
        names: &FrameNames<'_>,
    ) -> io::Result<()> {
        write_frames(out, names.instruction_frames(self.pc), "[")?;
        for caller in &self.callers {
            write_frames(out, names.call_frames(*caller), ",")?;
        }
        write!(out, "]")
    }

    /// Writes the location of the user's frame, with a message.
    pub fn write_sarif_location<W: Write>(
        &self,
        out: &mut W,
        names: &FrameNames<'_>,
        message: &str,
    ) -> io::Result<()> {
        let message = Quoted(message);
        write!(out, "{{\"message\":{{\"text\":{message}}}")?;
        if let Some(found) = self.user_frame(names) {
            let parts = FrameParts(found.frame);
            write!(out, "{parts}")?;
        }
        write!(out, "}}")
    }
}

/// Writes an object for each frame of an address, with what is in front of the first.
fn write_frames<W: Write>(out: &mut W, frames: FramesAt<'_, '_>, front: &str) -> io::Result<()> {
    let mut is_first = true;
    for frame in frames {
        let front = if is_first { front } else { "," };
        let object = FrameObject(frame);
        write!(out, "{front}{object}")?;
        is_first = false;
    }
    Ok(())
}
