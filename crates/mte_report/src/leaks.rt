//! The chunks that are live at the end, by the calls that made them.

use crate::context::Context;
use crate::report::Report;
use mte_backtrace::{FrameAddresses, FrameNames};
use pointer_provenance::LostChunk;
use run_cause::is_hidden;
use run_records::{BookChunk, BookEntry, Bytes, Count};
use run_terms::{CheckKind, Suppressions};
use std::alloc::{AllocError, Global};
use std::io;
use std::io::Write;

/// How many places are written.
const PLACES: usize = 256;

/// Chunks that were made at one place, by the same calls.
#[derive(Clone, Copy)]
struct LeakPlace {
    /// The call that made the first of them.
    entry: BookEntry,
    chunks: u64,
    bytes: u64,
    /// How many of the chunks are reached from those alone that they lead to.
    in_cycles: u64,
}

/// All places, and what no longer has room among them.
#[derive(Drop)]
struct Places {
    places: Vec<LeakPlace>,
    chunks: u64,
    bytes: u64,
}

impl Places {
    /// No places.
    fn new(alloc: Global) -> Places {
        Places {
            places: Vec::new(alloc),
            chunks: 0,
            bytes: 0,
        }
    }

    /// Enters chunks.
    fn enter_all(&mut self, chunks: &[BookChunk]) -> Result<(), AllocError> {
        for chunk in chunks {
            self.enter(&chunk.made, chunk.size, false)?;
        }
        Ok(())
    }

    /// Enters a chunk of some bytes that a call made; `is_in_cycle` where it is reached from those
    /// alone that it leads to.
    fn enter(
        &mut self,
        entry: &BookEntry,
        bytes: u64,
        is_in_cycle: bool,
    ) -> Result<(), AllocError> {
        self.chunks = self.chunks.saturating_add(1);
        self.bytes = self.bytes.saturating_add(bytes);
        if let Some(place) = find(self.places.as_mut_slice(), entry) {
            place.chunks = place.chunks.saturating_add(1);
            place.bytes = place.bytes.saturating_add(bytes);
            place.in_cycles = place.in_cycles.saturating_add(u64::from(is_in_cycle));
            return Ok(());
        }
        if self.places.len() >= PLACES {
            return Ok(());
        }
        self.places.push(LeakPlace {
            entry: *entry,
            chunks: 1,
            bytes,
            in_cycles: u64::from(is_in_cycle),
        })?;
        Ok(())
    }
}

/// A number of chunks.
fn chunk_count(number: u64) -> Count {
    Count {
        number,
        unit: "chunk",
    }
}

/// The place of a call.
fn find<'a>(places: &'a mut [LeakPlace], entry: &BookEntry) -> Option<&'a mut LeakPlace> {
    places.iter_mut().find(|place| place.entry.pc == entry.pc
        && place.entry.callers == entry.callers)
}

/// Writes places, by what their addresses are called.
fn write_named<W: Write>(
    alloc: Global,
    out: &mut W,
    report: &Report<'_>,
    names: &FrameNames<'_>,
    places: &[LeakPlace],
) -> io::Result<()> {
    let context = Context {
        alloc,
        report,
        names,
    };
    context.write_places(out, places)
}

impl<'a> Report<'a> {
    /// Writes the chunks that are live at the end, by the calls that made them: the first 256
    /// places.
    pub fn write_leaks<W: Write>(&self, alloc: Global, out: &mut W) -> io::Result<()> {
        let places = self.live_places(alloc)?;
        let (chunks, bytes) = (chunk_count(places.chunks), Bytes(places.bytes));
        writeln!(out, "live at the end: {chunks}, {bytes}")?;
        let places = places.places.as_slice();
        let frames = self.frames(alloc, places)?;
        let names = self.names.of_frames(alloc, &frames)?;
        write_named(alloc, out, self, &names, places)
    }

    /// Writes the chunks that nothing reaches at the end, by the calls that made them: the first
    /// 256 places. Those that only other lost chunks lead to are counted.
    pub fn write_lost<W: Write>(
        &self,
        alloc: Global,
        out: &mut W,
        lost: &[LostChunk],
    ) -> io::Result<()> {
        let (places, led_to) = self.lost_places(alloc, lost)?;
        let (chunks, bytes) = (chunk_count(places.chunks), Bytes(places.bytes));
        write!(out, "lost at the end: {chunks}, {bytes}")?;
        let (chunks, bytes) = (chunk_count(led_to.chunks), Bytes(led_to.bytes));
        writeln!(out, "; by these alone was led to {chunks}, {bytes}")?;
        let places = places.places.as_slice();
        let frames = self.frames(alloc, places)?;
        let names = self.names.of_frames(alloc, &frames)?;
        write_named(alloc, out, self, &names, places)
    }

    /// The lost chunks that are told: those of which no call is one of what is not told.
    pub fn told_lost(
        &self,
        alloc: Global,
        lost: &[LostChunk],
        suppressions: &Suppressions,
    ) -> Result<Vec<LostChunk>, AllocError> {
        let frames = self.lost_frames(alloc, lost, suppressions)?;
        let names = self.names.of_frames(alloc, &frames)?;
        let mut told = Vec::new(alloc);
        for chunk in lost {
            if !self.is_hidden_chunk(alloc, chunk, suppressions, &names)? {
                told.push(*chunk)?;
            }
        }
        Ok(told)
    }

    /// The addresses of the calls that made lost chunks, where something is not told.
    fn lost_frames(
        &self,
        alloc: Global,
        lost: &[LostChunk],
        suppressions: &Suppressions,
    ) -> Result<FrameAddresses, AllocError> {
        let mut frames = FrameAddresses::new(alloc);
        if suppressions.is_empty() {
            return Ok(frames);
        }
        for chunk in lost {
            if let Some(entry) = self.entry(chunk.number) {
                self.push_entry(alloc, &mut frames, entry)?;
            }
        }
        Ok(frames)
    }

    /// Whether a lost chunk is not told, by the calls that made it.
    fn is_hidden_chunk(
        &self,
        alloc: Global,
        chunk: &LostChunk,
        suppressions: &Suppressions,
        names: &FrameNames<'_>,
    ) -> Result<bool, AllocError> {
        let Some(entry) = self.entry(chunk.number) else {
            return Ok(false);
        };
        if suppressions.is_empty() {
            return Ok(false);
        }
        let stack = self.stack_of(alloc, entry)?;
        Ok(is_hidden(suppressions, CheckKind::Leaks, &stack, names))
    }

    /// The places of lost chunks whose calls are kept, and those of chunks that they lead to.
    fn lost_places(
        &self,
        alloc: Global,
        lost: &[LostChunk],
    ) -> Result<(Places, Places), AllocError> {
        let (mut places, mut led_to) = (Places::new(alloc), Places::new(alloc));
        for chunk in lost {
            let target = if chunk.is_indirect {
                &mut led_to
            } else {
                &mut places
            };
            if let Some(entry) = self.entry(chunk.number) {
                target.enter(entry, chunk.size, chunk.is_in_cycle)?;
            }
        }
        Ok((places, led_to))
    }

    /// The heap call with a number, where it is kept.
    fn entry(&self, number: u64) -> Option<&'a BookEntry> {
        let entries = self.book.entries();
        let oldest = entries.front()?.number;
        entries.get(usize::try_from(number.checked_sub(oldest)?).ok()?)
    }

    /// The places of the chunks that are live.
    fn live_places(&self, alloc: Global) -> Result<Places, AllocError> {
        let live = self.book.live(alloc)?;
        let mut places = Places::new(alloc);
        places.enter_all(live.as_slice())?;
        Ok(places)
    }

    /// The addresses of the calls that led to places.
    fn frames(&self, alloc: Global, places: &[LeakPlace]) -> Result<FrameAddresses, AllocError> {
        let mut frames = FrameAddresses::new(alloc);
        for place in places {
            self.push_entry(alloc, &mut frames, &place.entry)?;
        }
        Ok(frames)
    }
}

impl<'a> Context<'a> {
    /// Writes places, each with the calls that led there.
    fn write_places<W: Write>(&self, out: &mut W, places: &[LeakPlace]) -> io::Result<()> {
        for place in places {
            self.write_place(out, place)?;
        }
        out.flush()
    }

    /// Writes a place: the user's frame, then all calls.
    fn write_place<W: Write>(&self, out: &mut W, place: &LeakPlace) -> io::Result<()> {
        let (chunks, bytes) = (chunk_count(place.chunks), Bytes(place.bytes));
        let number = place.entry.number;
        let stack = self.report.stack_of(self.alloc, &place.entry)?;
        write!(out, "  {chunks}, {bytes}, the first by call {number}")?;
        match place.in_cycles {
            0 => {}
            all if all == place.chunks => write!(out, ", in a cycle")?,
            some => write!(out, ", {some} in a cycle")?,
        }
        if let Some(user) = stack.user_frame(self.names) {
            let frame = user.frame;
            write!(out, ", in {frame}")?;
        }
        writeln!(out)?;
        stack.write(out, self.names, "    ")
    }
}
