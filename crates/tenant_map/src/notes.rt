//! Notes of a picture about chunks.

use crate::extent::Extent;
use heap_picture::Note;
use mte_backtrace::{FrameNames, NumberedFrame};
use run_records::{Bytes, EntryText};
use std::alloc::Global;
use std::io::Write;
use std::{fmt, io};

/// The notes about the chunks of a picture.
#[derive(Clone, Copy)]
pub struct Notes<'e, 'n> {
    /// The granules of the chunks.
    pub extents: &'e [Extent],
    /// The names of the image's addresses.
    pub names: &'n FrameNames<'n>,
    /// The number of the call that made the chunk that the cause names.
    pub cause: Option<u64>,
}

impl<'e, 'n> Notes<'e, 'n> {
    /// Writes what is said of the chunks in the row with a number, by the row's address.
    pub fn write<W: Write>(
        &self,
        alloc: Global,
        out: &mut W,
        address: u64,
        row: usize,
    ) -> io::Result<()> {
        for extent in self.extents {
            if extent.is_newest {
                if let Some(place) = extent.in_row(address) {
                    self.write_note(alloc, out, extent, place, row)?;
                }
            }
        }
        Ok(())
    }

    /// Writes what is said of a chunk at its place in a row.
    fn write_note<W: Write>(
        &self,
        alloc: Global,
        out: &mut W,
        extent: &Extent,
        place: (usize, usize),
        row: usize,
    ) -> io::Result<()> {
        let number = extent.chunk.made.number;
        let label = format!(in alloc; "#{number} {}", ChunkSize(extent.chunk.size))?;
        let made = &extent.chunk.made;
        let stack = self.names.heap_call_stack(alloc, made.pc, &made.callers)?;
        let title = Title {
            extent,
            user: stack.user_frame(self.names),
        };
        let title = format!(in alloc; "{title}")?;
        let note = Note {
            row,
            start: place.0,
            end: place.1,
            label: label.as_str(),
            title: title.as_str(),
            is_cause: self.cause == Some(number),
        };
        write!(out, "{note}")
    }
}

/// A number of bytes: `57 B`, and from 10 KB on `196 KB`.
#[derive(Clone, Copy)]
struct ChunkSize(u64);

impl fmt::Display for ChunkSize {
    fn fmt<W: fmt::Write>(&self, f: &mut fmt::Formatter<W>) -> fmt::Result {
        let bytes = self.0;
        if bytes < 10_240 {
            write!(f, "{bytes} B")
        } else {
            write!(f, "{} KB", bytes / 1024)
        }
    }
}

/// The note of a chunk: its size, its calls, where it was made, and that its block had another
/// chunk before.
#[derive(Clone, Copy)]
struct Title<'a> {
    extent: &'a Extent,
    user: Option<NumberedFrame<'a>>,
}

impl<'a> fmt::Display for Title<'a> {
    fn fmt<W: fmt::Write>(&self, f: &mut fmt::Formatter<W>) -> fmt::Result {
        let chunk = &self.extent.chunk;
        let (size, call) = (Bytes(chunk.size), EntryText(&chunk.made));
        write!(f, "{size}, {call}")?;
        if let Some(user) = &self.user {
            let frame = user.frame;
            write!(f, ", {frame}")?;
        }
        if let Some(entry) = &chunk.freed {
            let number = entry.number;
            write!(f, "; freed by call {number}")?;
        }
        match self.extent.earlier {
            Some(number) => write!(f, "; its block was given before, by call {number}"),
            None => Ok(()),
        }
    }
}
