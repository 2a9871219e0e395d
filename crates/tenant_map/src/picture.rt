//! The heap of a tenant and its tags, as a picture.

use crate::extent::{Extent, ROW_SIZE};
use crate::notes::Notes;
use crate::pages::{MappedPages, page_map};
use crate::selection::{CandidateRow, Window, place_of, places, row_at};
use common::{GRANULE_SIZE, PAGE_SIZE};
use heap_bounds::RangeUse;
use heap_picture::{Arrow, END, Gap, Heading, Kind, Mark, PictureLine, Spot};
use mte_backtrace::FrameNames;
use mte_flat::Flat;
use std::alloc::{AllocError, Global};
use std::io::Write;
use std::{fmt, io};

/// The format of a picture.
#[derive(Clone, Copy)]
pub enum PictureForm {
    /// A drawing in SVG.
    Svg,
    /// Lines of text: of tags, and of whose the granules are where a chunk or the mark is there.
    Text,
}

/// A picture of a tenant's heap and its tags.
#[derive(Clone, Copy)]
pub struct Picture<'a> {
    /// The title above it, a line.
    pub title: &'a str,
    /// The event that it shows, a line that may be empty.
    pub story: &'a str,
    /// The granules of the chunks.
    pub extents: &'a [Extent],
    /// The names of the image's addresses.
    pub names: &'a FrameNames<'a>,
    /// The number of the call that made the chunk that the cause names.
    pub cause: Option<u64>,
    /// The granules with a frame.
    pub mark: Option<Mark>,
}

impl<'a> Picture<'a> {
    /// Writes it: the rows of the heap's pages, and the mark's row. Rows in which nothing changes
    /// are left out after the first, and in SVG those farthest from the mark where there are more
    /// than [`heap_picture::ROWS`].
    pub fn write<W: Write>(
        &self,
        alloc: Global,
        out: &mut W,
        form: PictureForm,
        memory: &mut Flat,
    ) -> io::Result<()> {
        let map = page_map(alloc, memory)?;
        self.write_on(alloc, out, form, memory, map.as_slice())
    }

    /// Writes the chunks on the pages of a map.
    fn write_on<W: Write>(
        &self,
        alloc: Global,
        out: &mut W,
        form: PictureForm,
        memory: &mut Flat,
        map: &[MappedPages],
    ) -> io::Result<()> {
        let addr = self.mark.map(|mark| mark.addr);
        let places = places(alloc, memory, map, self.extents, addr)?;
        let rows = Rows {
            picture: self,
            places: places.as_slice(),
            window: Window::around(places.as_slice(), addr),
        };
        match form {
            PictureForm::Svg => rows.draw(alloc, out, memory, map),
            PictureForm::Text => rows.write_text(out, memory),
        }
    }

    /// The granules of the chunk that the cause names.
    fn cause_extent(&self) -> Option<&'a Extent> {
        let number = self.cause?;
        self.extents
            .iter()
            .find(|extent| extent.chunk.made.number == number)
    }

    /// The notes about its chunks.
    fn notes(&self) -> Notes<'a, 'a> {
        Notes {
            extents: self.extents,
            names: self.names,
            cause: self.cause,
        }
    }
}

/// The rows of a picture.
#[derive(Clone, Copy)]
pub(crate) struct Rows<'a> {
    /// Of what.
    pub(crate) picture: &'a Picture<'a>,
    /// The rows that may be shown.
    pub(crate) places: &'a [CandidateRow],
    /// Those that are.
    pub(crate) window: Window,
}

impl<'a> Rows<'a> {
    /// How many of them are shown, where not all are.
    fn left_out(&self) -> LeftOut {
        LeftOut {
            shown: self.window.shown(self.places),
            rows: self.places.len(),
        }
    }

    /// Draws what is above them, and those that are shown.
    fn draw<W: Write>(
        &self,
        alloc: Global,
        out: &mut W,
        memory: &mut Flat,
        map: &[MappedPages],
    ) -> io::Result<()> {
        self.write_heading(alloc, out, map)?;
        self.write(alloc, out, memory)
    }

    /// Writes what is above them.
    fn write_heading<W: Write>(
        &self,
        alloc: Global,
        out: &mut W,
        map: &[MappedPages],
    ) -> io::Result<()> {
        let title = Title {
            text: self.picture.title,
            left_out: self.left_out(),
        };
        let title = format!(in alloc; "{title}")?;
        let titles = [title.as_str(), self.picture.story];
        write_titled(alloc, out, titles, map, self.window.count)
    }

    /// Writes those that are shown, and the end of the picture.
    fn write<W: Write>(&self, alloc: Global, out: &mut W, memory: &mut Flat) -> io::Result<()> {
        let notes = self.picture.notes();
        let mut before = None;
        for place in self.places {
            if let Some(number) = self.window.number(place) {
                self.write_gap(out, before, place)?;
                before = Some(place);
                self.write_row(out, memory, place.address, number)?;
                notes.write(alloc, out, place.address, number)?;
            }
        }
        if let Some(arrow) = self.arrow() {
            write!(out, "{arrow}")?;
        }
        write!(out, "{END}")?;
        out.flush()
    }

    /// Writes what is left out between a row and the one before, which is shown, if anything is.
    fn write_gap<W: Write>(
        &self,
        out: &mut W,
        before: Option<&CandidateRow>,
        place: &CandidateRow,
    ) -> io::Result<()> {
        let Some(before) = before else {
            return Ok(());
        };
        let start = before.address.saturating_add(ROW_SIZE);
        if start == place.address {
            return Ok(());
        }
        let number = self.window.number(before).unwrap_or(0);
        let gap = Gap {
            number: number.saturating_add(1),
            start,
            end: place.address,
        };
        write!(out, "{gap}")
    }

    /// An arrow from the chunk that the cause names to what is framed, where that is outside.
    fn arrow(&self) -> Option<Arrow> {
        let (addr, chunk) = (self.picture.mark?.addr, self.picture.cause_extent()?);
        let edge = if addr < chunk.start {
            chunk.start
        } else if addr >= chunk.end {
            chunk.end.saturating_sub(GRANULE_SIZE)
        } else {
            return None;
        };
        Some(Arrow {
            from: self.spot(edge)?,
            to: self.spot(addr)?,
        })
    }

    /// Where the granule of an address is, if it is shown.
    fn spot(&self, addr: u64) -> Option<Spot> {
        let place = place_of(self.places, addr)?;
        Some(Spot {
            row: self.window.number(place)?,
            granule: (addr.saturating_sub(place.address) / GRANULE_SIZE) as usize,
        })
    }

    /// Writes the row at an address, under a number.
    fn write_row<W: Write>(
        &self,
        out: &mut W,
        memory: &mut Flat,
        address: u64,
        number: usize,
    ) -> io::Result<()> {
        let line = PictureLine {
            row: row_at(memory, self.picture.extents, address),
            number,
            mark: self.picture.mark,
        };
        write!(out, "{line}")
    }
}

/// Writes what is above a number of rows, under a title and a story.
fn write_titled<W: Write>(
    alloc: Global,
    out: &mut W,
    [title, story]: [&str; 2],
    map: &[MappedPages],
    rows: usize,
) -> io::Result<()> {
    let pages = listed(alloc, map)?;
    let heading = Heading {
        title,
        story,
        pages: pages.as_slice(),
        rows,
    };
    write!(out, "{heading}")
}

/// The pages as a picture lists them.
fn listed(
    alloc: Global,
    map: &[MappedPages],
) -> Result<Vec<heap_picture::MappedRange>, AllocError> {
    let mut list = Vec::new(alloc);
    for pages in map {
        if let Some(kind) = kind_of(pages.range) {
            list.push(heap_picture::MappedRange {
                start: pages.start,
                count: pages.end.saturating_sub(pages.start) / PAGE_SIZE,
                kind,
            })?;
        }
    }
    Ok(list)
}

/// The use of the pages of a range.
fn kind_of(range: RangeUse) -> Option<Kind> {
    match range {
        RangeUse::Image => Some(Kind::Image),
        RangeUse::Class(class) => Some(Kind::Class(class)),
        RangeUse::Large => Some(Kind::Large),
        RangeUse::Stack => Some(Kind::Stack),
        RangeUse::Nothing => None,
    }
}

/// The title of a picture, and how many rows are shown, where not all are.
#[derive(Clone, Copy)]
struct Title<'a> {
    text: &'a str,
    left_out: LeftOut,
}

impl<'a> fmt::Display for Title<'a> {
    fn fmt<W: fmt::Write>(&self, f: &mut fmt::Formatter<W>) -> fmt::Result {
        let Title { text, left_out } = self;
        write!(f, "{text}{left_out}")
    }
}

/// How many rows are shown, where not all are.
#[derive(Clone, Copy)]
struct LeftOut {
    /// How many rows are shown.
    shown: usize,
    /// How many rows there are.
    rows: usize,
}

impl fmt::Display for LeftOut {
    fn fmt<W: fmt::Write>(&self, f: &mut fmt::Formatter<W>) -> fmt::Result {
        let LeftOut { shown, rows } = self;
        if shown >= rows {
            return Ok(());
        }
        write!(f, " ({shown} of {rows} rows)")
    }
}
