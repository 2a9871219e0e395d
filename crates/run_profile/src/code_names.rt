//! The functions, lines and inlined calls of an image's code.

use crate::bounded_lines::BoundedLines;
use debug_info::{CallsAt, InlinedCalls};
use debug_lines::{SourceLine, SourceLines};
use elf_sections::Sections;
use elf_symbols::SymbolName;
use mte_backtrace::Names;
use std::alloc::{AllocError, Global};
use std::io;
use std::io::Write;

/// The most sections that are looked at.
const MOST_SECTIONS: u32 = 65_536;

/// The most instructions that are named.
const MOST_INSTRUCTIONS: usize = 1_048_576;

/// Of how many instructions the inlined calls are looked for in one pass.
const INSTRUCTIONS: usize = 16_384;

/// The addresses of the instructions of an image's sections with code.
pub fn code_addresses(alloc: Global, image: &[u8]) -> Result<Vec<u64>, AllocError> {
    let sections = Sections::of(image);
    let mut addresses = Vec::new(alloc);
    for index in 0..MOST_SECTIONS {
        let Some(section) = sections.at(index) else {
            break;
        };
        if let Some((start, bytes)) = section.code() {
            push_code(&mut addresses, start, bytes)?;
        }
    }
    addresses.as_mut_slice().sort_unstable();
    addresses.dedup();
    Ok(addresses)
}

/// Adds the addresses of a section, up to the most.
fn push_code(addresses: &mut Vec<u64>, start: u64, bytes: u64) -> Result<(), AllocError> {
    let left = MOST_INSTRUCTIONS.saturating_sub(addresses.len()) as u64;
    for number in 0..(bytes / 4).min(left) {
        addresses.push(start.wrapping_add(number.wrapping_mul(4)))?;
    }
    Ok(())
}

/// Writes the names of an image's code.
#[derive(Clone, Copy)]
pub struct CodeNames<'n, 'a> {
    /// The names.
    pub names: &'n Names<'a>,
    /// The addresses of its instructions, the lowest first.
    pub addresses: &'n [u64],
}

impl<'n, 'a> CodeNames<'n, 'a> {
    /// Writes a line for each function: its first address in the code, and its name.
    pub fn write_functions<W: Write>(&self, out: &mut BoundedLines<'_, W>) -> io::Result<()> {
        let mut last = None;
        for address in self.addresses {
            if out.is_full() {
                break;
            }
            let place = self.names.symbols.place(*address);
            let start = address.wrapping_sub(place.offset());
            if let Some(name) = place.name() {
                if last != Some(start) {
                    writeln!(out, "function\t{address:x}\t{name}")?;
                }
                last = Some(start);
            } else {
                last = None;
            }
        }
        Ok(())
    }

    /// Writes a line for each address from which on the line or the inlined calls are others.
    pub fn write_lines<W: Write>(
        &self,
        alloc: Global,
        out: &mut BoundedLines<'_, W>,
    ) -> io::Result<()> {
        let lines = self.names.lines.lines_of(alloc, self.addresses)?;
        for some in self.addresses.chunks(INSTRUCTIONS) {
            let inlined = self.names.info.inlined_calls(alloc, some)?;
            write_some(out, some, &lines, &inlined)?;
        }
        Ok(())
    }
}

/// Writes the lines of some addresses.
fn write_some<W: Write>(
    out: &mut BoundedLines<'_, W>,
    addresses: &[u64],
    lines: &SourceLines<'_>,
    inlined: &InlinedCalls<'_>,
) -> io::Result<()> {
    let mut last: Option<(Option<SourceLine<'_>>, Option<usize>)> = None;
    for address in addresses {
        let (line, calls) = (lines.line_of(*address), inlined.at(*address));
        let is_known = match &last {
            Some((same, innermost)) => *innermost == calls.innermost() && is_same(same, &line),
            None => false,
        };
        if out.is_full() {
            break;
        }
        if !is_known {
            write_address(out, *address, line, calls)?;
            last = Some((line, calls.innermost()));
        }
    }
    Ok(())
}

/// Whether both are one line of one file.
fn is_same(one: &Option<SourceLine<'_>>, other: &Option<SourceLine<'_>>) -> bool {
    let (Some(one), Some(other)) = (one, other) else {
        return one.is_none() && other.is_none();
    };
    if one.line != other.line {
        return false;
    }
    if one.path != other.path {
        return false;
    }
    one.directory == other.directory
}

/// Writes the line of an address, and the inlined calls that it is in, the innermost first.
fn write_address<W: Write>(
    out: &mut BoundedLines<'_, W>,
    address: u64,
    line: Option<SourceLine<'_>>,
    calls: CallsAt<'_, '_>,
) -> io::Result<()> {
    write!(out, "line\t{address:x}")?;
    write_line(out, line)?;
    for call in calls {
        let name = SymbolName::of(call.name().unwrap_or("??"));
        write!(out, "inlined\t{name}")?;
        write_line(out, call.line())?;
    }
    Ok(())
}

/// Writes the rest of a line: a source line and its file, or 0.
fn write_line<W: Write>(
    out: &mut BoundedLines<'_, W>,
    line: Option<SourceLine<'_>>,
) -> io::Result<()> {
    let Some(
        SourceLine {
            path,
            directory,
            line,
            ..
        },
    ) = line
    else {
        return writeln!(out, "\t0");
    };
    match directory {
        Some(directory) => writeln!(out, "\t{line}\t{directory}/{path}"),
        None => writeln!(out, "\t{line}\t{path}"),
    }
}
