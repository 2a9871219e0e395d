//! The rows of a page: 512 bytes each, with the tags of their granules at the end.

use a64_bits::plain;
use common::GRANULE_SIZE;
use mte_flat::Flat;
use mte_report::Report;
use run_records::{BookChunk, BookEntry};
use std::alloc::{AllocError, Global};
use std::collections::BTreeMap;
use std::io;
use std::io::Write;
use tenant_map::tag_at;

/// The granules of a row.
const GRANULES: u64 = 32;

/// The bytes of a row.
const ROW_SIZE: u64 = GRANULES * GRANULE_SIZE;

/// The bytes of a chunk that may be the stack.
const LEAST_STACK: u64 = 8_192;

/// How many rows of a chunk there are at most.
const MOST_OF_CHUNK: u64 = 8;

/// How many rows there are at most, beside that of the address which ended it.
const MOST_ROWS: usize = 1_024;

/// ShownRows by their addresses.
#[derive(Drop)]
struct ShownRows {
    /// The stack pointer at the end, without its tag.
    sp: u64,
    starts: BTreeMap<u64, ()>,
}

impl ShownRows {
    /// The rows of the address that ended it, and of the chunks of heap calls but for that of the
    /// stack, the newest first.
    fn of(
        alloc: Global,
        address: Option<u64>,
        sp: u64,
        entries: &[BookEntry],
    ) -> Result<ShownRows, AllocError> {
        let mut rows = ShownRows {
            sp,
            starts: BTreeMap::new(alloc),
        };
        if let Some(address) = address {
            rows.add(address)?;
        }
        for entry in entries.iter().rev() {
            if rows.starts.len() > MOST_ROWS {
                break;
            }
            rows.add_entry(entry)?;
        }
        Ok(rows)
    }

    /// Adds the row that an address is in.
    fn add(&mut self, address: u64) -> Result<(), AllocError> {
        self.starts.insert(address / ROW_SIZE * ROW_SIZE, ())?;
        Ok(())
    }

    /// Adds the rows of the chunk that a heap call made, with the granule of its header and the one
    /// after it, and of a chunk that it freed the first.
    fn add_entry(&mut self, entry: &BookEntry) -> Result<(), AllocError> {
        if let Some(start) = entry.ended() {
            self.add(start)?;
        }
        match entry.made() {
            Some(chunk) if !self.is_stack(&chunk) => self.add_range(
                chunk.start().saturating_sub(GRANULE_SIZE),
                chunk.granules_end(),
            ),
            _ => Ok(()),
        }
    }

    /// Whether a chunk is the stack: a large one that the stack pointer is in or at the end of.
    fn is_stack(&self, chunk: &BookChunk) -> bool {
        chunk.size >= LEAST_STACK && chunk.start() <= self.sp && self.sp <= chunk.end()
    }

    /// Adds the first rows of a range, its last address among them.
    fn add_range(&mut self, first: u64, last: u64) -> Result<(), AllocError> {
        let rows = (last / ROW_SIZE).saturating_sub(first / ROW_SIZE);
        for number in 0..rows.saturating_add(1).min(MOST_OF_CHUNK) {
            self.add(first.saturating_add(number.saturating_mul(ROW_SIZE)))?;
        }
        Ok(())
    }
}

/// Writes the rows: the address, and a digit a granule, or `.` where it has no tag.
pub(crate) fn write_rows<W: Write>(
    alloc: Global,
    out: &mut W,
    report: &Report<'_>,
    entries: &[BookEntry],
    memory: &mut Flat,
) -> io::Result<()> {
    let address = report.address().map(|address| plain(address));
    let sp = plain(report.parts.regs.sp);
    let rows = ShownRows::of(alloc, address, sp, entries)?;
    write!(out, "\"rows\":[")?;
    let mut is_first = true;
    for start in rows.starts.keys() {
        let front = if is_first { "" } else { "," };
        write!(out, "{front}\n[\"{start:#x}\",\"")?;
        write_tags(out, *start, memory)?;
        write!(out, "\"]")?;
        is_first = false;
    }
    write!(out, "]")
}

/// Writes the tags of a row.
fn write_tags<W: Write>(out: &mut W, start: u64, memory: &mut Flat) -> io::Result<()> {
    for number in 0..GRANULES {
        match tag_at(memory, start, number) {
            Some(tag) => write!(out, "{tag:x}")?,
            None => write!(out, ".")?,
        }
    }
    Ok(())
}
