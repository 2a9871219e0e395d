//! The picture of the heap, in a file.

use crate::title::MapTitle;
use common::Printable;
use mte_flat::Flat;
use mte_report::{PictureForm, Report};
use run_terms::{Failure, Options};
use std::io;
use std::io::{BufWriter, Write};
use tenant_run::WholeFile;

/// The name for which the heap is written as text, on standard error.
const TEXT: &str = "text";

/// Draws the heap and its tags into the file that is named, if one is.
pub fn draw_map<'a>(
    rt: &HostRuntime,
    report: &Report<'_>,
    options: &'a Options,
    memory: &mut Flat,
) -> Result<(), Failure<'a>> {
    match &options.output.map {
        Some(name) => {
            let name = name.as_str();
            draw_file(rt, report, options, name, memory).map_err(|error| Failure::of_write(
                &error, name,
            ))
        }
        None => Ok(()),
    }
}

/// Draws the heap and its tags into the file with a name, or to standard output for `-`; for `text`
/// they are written as text.
fn draw_file(
    rt: &HostRuntime,
    report: &Report<'_>,
    options: &Options,
    name: &str,
    memory: &mut Flat,
) -> io::Result<()> {
    let subject = MapTitle(options);
    let title = format!(in rt.alloc(); "{subject}")?;
    if name == TEXT {
        return write_text(rt, report, title.as_str(), memory);
    }
    if name == "-" {
        let mut out = BufWriter::new(rt.alloc(), rt.stdout())?;
        return draw_into(rt, report, &mut out, title.as_str(), memory);
    }
    let mut file = WholeFile::create(rt, name)?;
    let drawn = draw_into(rt, report, &mut file, title.as_str(), memory);
    file.conclude(rt, drawn)
}

/// Draws the heap and its tags as a picture.
fn draw_into<W: Write>(
    rt: &HostRuntime,
    report: &Report<'_>,
    out: &mut W,
    title: &str,
    memory: &mut Flat,
) -> io::Result<()> {
    report.draw(rt.alloc(), out, title, PictureForm::Svg, memory)
}

/// Writes the heap and its tags as text, on standard error, under a title of characters that a
/// terminal shows.
fn write_text(
    rt: &HostRuntime,
    report: &Report<'_>,
    title: &str,
    memory: &mut Flat,
) -> io::Result<()> {
    let shown = Printable(title);
    let title = format!(in rt.alloc(); "{shown}")?;
    let mut out = BufWriter::new(rt.alloc(), rt.stderr())?;
    report.draw(
        rt.alloc(),
        &mut out,
        title.as_str(),
        PictureForm::Text,
        memory,
    )
}
