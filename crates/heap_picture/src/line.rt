//! A line of a picture: a row, its address, and above it what was refused where that is in the row.

use crate::cell::{CELL_WIDTH, Cell};
use crate::layout::{GRANULES, PITCH};
use crate::part::Part::{Hexadecimal, Number, Text};
use crate::part::write_parts;
use crate::row::{Boundaries, Cells, FirstGranules, PictureRow};
use crate::run::RowChunks;
use std::fmt;

/// The mark of a granule.
#[derive(Clone, Copy)]
pub enum Marked {
    /// An access that faulted.
    Access,
    /// A pointer that was handed to the heap and refused.
    Pointer,
}

impl fmt::Display for Marked {
    fn fmt<W: fmt::Write>(&self, f: &mut fmt::Formatter<W>) -> fmt::Result {
        f.write_str(match self {
            Marked::Access => "access at ",
            Marked::Pointer => "pointer ",
        })
    }
}

/// An access or a pointer that was refused.
#[derive(Clone, Copy)]
pub struct Mark {
    /// Which of them it is.
    pub marked: Marked,
    /// Its address, without a tag.
    pub addr: u64,
    /// The tag of its pointer, 0 to 15.
    pub tag: u8,
}

/// A line of a picture, as `{}` writes it. Where the mark is in its row, what is said of that is in
/// the line above, which is to be left free.
#[derive(Clone, Copy)]
pub struct PictureLine {
    /// The row that it shows.
    pub row: PictureRow,
    /// Its number in the picture, from 0.
    pub number: usize,
    /// The refused access, which is drawn where its address is in the row.
    pub mark: Option<Mark>,
}

impl PictureLine {
    /// The mark of the row, if its address is there.
    fn frame(&self) -> Option<ChunkFrame> {
        let mark = self.mark?;
        let index = self.row.index_of(mark.addr)?;
        let memory = self.row.granules.get(index)?.tag;
        Some(ChunkFrame {
            mark,
            index,
            memory,
        })
    }
}

impl fmt::Display for PictureLine {
    fn fmt<W: fmt::Write>(&self, f: &mut fmt::Formatter<W>) -> fmt::Result {
        let row = &self.row;
        let y = Number(PITCH.saturating_mul(self.number as u64));
        write_parts(f, &[Text("<g transform=\"translate(0 "), y, Text(")\">")])?;
        let frame = self.frame();
        if frame.is_some() {
            f.write_str(BAND)?;
        }
        let start = Text("<text class=\"at\" x=\"-10\" y=\"13\">");
        write_parts(f, &[start, Hexadecimal(row.address), Text("</text>")])?;
        if let Some(class) = row.class {
            let start = Text("<text class=\"of\" x=\"-110\" y=\"13\">class ");
            write_parts(f, &[start, Number(u64::from(class)), Text("</text>")])?;
            let start = Text("<text class=\"size\" x=\"-110\" y=\"24\">");
            write_parts(f, &[start, Number(row.size), Text(" B</text>")])?;
        }
        let shown = row.shown(frame.map(|frame| frame.index));
        let granules = FirstGranules { row, shown };
        let (cells, boundaries) = (Cells(granules), Boundaries(granules));
        let chunks = RowChunks(row);
        write!(f, "{cells}{boundaries}{chunks}")?;
        if let Some(frame) = frame {
            write!(f, "{frame}")?;
        }
        f.write_str("</g>\n")
    }
}

/// The text after the row with the mark, and after the notes above it.
const BAND: &str = "<rect class=\"band\" x=\"-166\" y=\"-34\" width=\"1220\" height=\"64\"/>";

/// How far above its row what is said of a mark begins.
const ABOVE: &str = "-32";

/// A frame round a granule, and above it the tag of the pointer and what it says.
#[derive(Clone, Copy)]
struct ChunkFrame {
    mark: Mark,
    /// The number of the granule.
    index: usize,
    /// The granule's tag; none where no page is mapped.
    memory: Option<u8>,
}

impl ChunkFrame {
    /// Writes the granule's frame, and a line to the cell of the pointer's tag above it.
    fn write_frame<W: fmt::Write>(&self, f: &mut fmt::Formatter<W>, left: u64) -> fmt::Result {
        let start = Text("<rect class=\"mark\" x=\"");
        let end = Text("\" y=\"-1\" width=\"16\" height=\"20\"/>");
        write_parts(f, &[start, Number(left), end])?;
        let middle = Number(left.saturating_add(CELL_WIDTH / 2));
        let start = Text("<path class=\"mark\" d=\"M");
        write_parts(f, &[start, middle, Text(",-2v-12\"/>")])?;
        let cell = Cell {
            x: left,
            tag: Some(self.mark.tag),
        };
        write!(f, "<g transform=\"translate(0 {ABOVE})\">{cell}</g>")
    }

    /// Writes where what is said begins: after the cell above the granule, or before it where the
    /// row has more room there.
    fn write_start<W: fmt::Write>(&self, f: &mut fmt::Formatter<W>, left: u64) -> fmt::Result {
        let (end, y) = (Text("\" y=\"-19\">"), Text("\" x=\""));
        if self.index < GRANULES / 2 {
            let x = Number(left.saturating_add(CELL_WIDTH + 6));
            write_parts(f, &[Text("<text class=\"says"), y, x, end])
        } else {
            let x = Number(left.saturating_sub(6));
            write_parts(f, &[Text("<text class=\"says at"), y, x, end])
        }
    }
}

impl fmt::Display for ChunkFrame {
    fn fmt<W: fmt::Write>(&self, f: &mut fmt::Formatter<W>) -> fmt::Result {
        let left = CELL_WIDTH.saturating_mul(self.index as u64);
        self.write_frame(f, left)?;
        self.write_start(f, left)?;
        let Mark { marked, addr, tag } = self.mark;
        write!(f, "{marked}")?;
        let (addr, tag) = (Hexadecimal(addr), Hexadecimal(u64::from(tag % 16)));
        write_parts(f, &[addr, Text(" with tag "), tag])?;
        match self.memory {
            Some(tag) => {
                let tag = Hexadecimal(u64::from(tag % 16));
                write_parts(f, &[Text(", memory has "), tag, Text("</text>")])
            }
            None => f.write_str(", not mapped</text>"),
        }
    }
}
