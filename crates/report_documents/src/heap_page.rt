//! A page that shows a tenant's heap step by step: one file in HTML, which a browser opens without
//! a network.
//!
//! It is the same text for each run, a frame with a style and a script, but for one value of JSON
//! in it (RFC 8259), which the script shows. So what a tenant or a file is called is in that value
//! alone, in which each `<` is written as `\u003c`: nothing in it ends the value.

mod calls;
mod code;
mod frame;
mod rows;
mod script;
mod step;
mod style;

use crate::document::Document;
use calls::{push_frames, shown_calls, write_calls};
use code::Code;
use frame::{BEFORE_DATA, BEFORE_SCRIPT, BEFORE_STYLE, END};
use mte_backtrace::{FrameAddresses, FrameNames};
use mte_flat::Flat;
use mte_report::{Context, Report};
use rows::write_rows;
use run_records::BookEntry;
use script::SCRIPT;
use std::alloc::Global;
use std::io;
use std::io::Write;
use style::STYLE;

impl<'a> Document<'a> {
    /// Writes it as a page, in ASCII but for the letters of names.
    pub fn write_page<W: Write>(&self, out: &mut W, memory: &mut Flat) -> io::Result<()> {
        let mut data = Vec::new(self.alloc);
        self.write_data(&mut data, memory)?;
        write!(out, "{BEFORE_STYLE}{STYLE}{BEFORE_DATA}")?;
        write_inside(out, data.as_slice())?;
        write!(out, "{BEFORE_SCRIPT}{SCRIPT}{END}")?;
        out.flush()
    }

    /// Writes the data: the run, and what happened to the heap.
    fn write_data<W: Write>(&self, out: &mut W, memory: &mut Flat) -> io::Result<()> {
        let (alloc, report) = (self.alloc, self.report);
        write!(out, "{{\"run\":")?;
        self.write_json(out, memory)?;
        let entries = shown_calls(alloc, report.book)?;
        let code = Code::of(alloc, report)?;
        let mut frames = FrameAddresses::new(alloc);
        push_frames(alloc, report, entries.as_slice(), &mut frames)?;
        code.push_frames(&mut frames)?;
        let names = report.names.of_frames(alloc, &frames)?;
        write_events(alloc, out, report, &names, entries.as_slice(), &code)?;
        write_rows(alloc, out, report, entries.as_slice(), memory)?;
        write!(out, "}}")
    }
}

/// Writes the heap calls and the instructions, by what their addresses are called.
fn write_events<W: Write>(
    alloc: Global,
    out: &mut W,
    report: &Report<'_>,
    names: &FrameNames<'_>,
    entries: &[BookEntry],
    code: &Code,
) -> io::Result<()> {
    let context = Context {
        alloc,
        report,
        names,
    };
    write_calls(out, &context, entries)?;
    code.write(out, &context)
}

/// Writes JSON as it may be inside an element of a page: each `<` by its number.
fn write_inside<W: Write>(out: &mut W, data: &[u8]) -> io::Result<()> {
    let mut is_first = true;
    for part in data.split(|byte| *byte == b'<') {
        if !is_first {
            write!(out, "\\u003c")?;
        }
        out.write_all(part)?;
        is_first = false;
    }
    Ok(())
}
