//! The heap calls of a page.

use heap_bounds::{Block, CallText};
use mte_backtrace::{FrameAddresses, Quoted};
use mte_report::{Context, Report};
use run_records::{Book, BookChunk, BookEntry};
use std::alloc::{AllocError, Global};
use std::collections::BTreeMap;
use std::io;
use std::io::Write;

/// How many of the last heap calls a page has at most, and as many from before them.
const MOST_CALLS: usize = 4_096;

/// The last heap calls, and in front of them those that made a chunk which was live then, the
/// oldest first.
pub(crate) fn shown_calls(alloc: Global, book: &Book) -> Result<Vec<BookEntry>, AllocError> {
    let older = book.entries().len().saturating_sub(MOST_CALLS);
    let mut shown = live_before(alloc, book, older)?;
    for entry in book.entries().iter().skip(older) {
        shown.push(*entry)?;
    }
    Ok(shown)
}

/// The calls, of the first `count`, that made a chunk which was live after these.
fn live_before(alloc: Global, book: &Book, count: usize) -> Result<Vec<BookEntry>, AllocError> {
    let mut live: BTreeMap<u64, BookEntry> = BTreeMap::new(alloc);
    for entry in book.entries().iter().take(count) {
        if let Some(start) = entry.ended() {
            live.remove(&start);
        }
        if let Some(chunk) = entry.made() {
            live.insert(chunk.start(), *entry)?;
        }
    }
    newest_of(alloc, &live)
}

/// The newest of some calls, the oldest first.
fn newest_of(alloc: Global, live: &BTreeMap<u64, BookEntry>) -> Result<Vec<BookEntry>, AllocError> {
    let mut entries: Vec<BookEntry> = live.values().copied().collect(alloc)?;
    entries.sort_unstable_by_key(|entry| entry.number);
    let left_out = entries.len().saturating_sub(MOST_CALLS);
    entries.iter().skip(left_out).copied().collect(alloc)
}

/// Adds the addresses of the calls that led to heap calls.
pub(crate) fn push_frames(
    alloc: Global,
    report: &Report<'_>,
    entries: &[BookEntry],
    frames: &mut FrameAddresses,
) -> Result<(), AllocError> {
    for entry in entries {
        let stack = report.stack_of(alloc, entry)?;
        stack.push_frames(frames)?;
    }
    Ok(())
}

/// Writes how many heap calls there were, and those of the page.
pub(crate) fn write_calls<W: Write>(
    out: &mut W,
    context: &Context<'_>,
    entries: &[BookEntry],
) -> io::Result<()> {
    let made = context.report.parts.history.calls.count();
    write!(out, ",\"made\":{made},\n\"calls\":[")?;
    let mut front = "";
    for entry in entries {
        write!(out, "{front}")?;
        write_call(out, context, entry)?;
        front = ",";
    }
    writeln!(out, "],")
}

/// Writes a heap call: what it was, where it was made, and what it did to granules.
fn write_call<W: Write>(out: &mut W, context: &Context<'_>, entry: &BookEntry) -> io::Result<()> {
    let (number, step) = (entry.number, entry.step);
    let (call, answer) = (CallText(entry.call.call), entry.call.answer);
    write!(
        out,
        "\n{{\"number\":{number},\"step\":{step},\"text\":\"{call} = {answer:#018x}\""
    )?;
    write_where(out, context, entry)?;
    if let Some(chunk) = entry.made() {
        write_made(out, &chunk)?;
    }
    if let Some(start) = entry.ended() {
        let tag = entry.drawn;
        write!(out, ",\"ended\":\"{start:#x}\",\"drawn\":{tag}")?;
    }
    write!(out, "}}")
}

/// Writes which function had a heap call made, and its source line, where they are known.
fn write_where<W: Write>(out: &mut W, context: &Context<'_>, entry: &BookEntry) -> io::Result<()> {
    let stack = context.report.stack_of(context.alloc, entry)?;
    let Some(found) = stack.user_frame(context.names) else {
        return Ok(());
    };
    let frame = found.frame;
    let text = format!(in context.alloc; "{frame}")?;
    let text = Quoted(text.as_str());
    write!(out, ",\"where\":{text}")
}

/// Writes a chunk that a call made: its pointer, its size and its block, if it is in one.
fn write_made<W: Write>(out: &mut W, chunk: &BookChunk) -> io::Result<()> {
    let (pointer, size) = (chunk.pointer, chunk.size);
    write!(out, ",\"made\":\"{pointer:#x}\",\"size\":{size}")?;
    match Block::of(chunk.start()) {
        Some(block) => {
            let (start, room) = (block.start, block.size);
            write!(out, ",\"block\":\"{start:#x}\",\"room\":{room}")
        }
        None => Ok(()),
    }
}
