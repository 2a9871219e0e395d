//! The heap of a tenant and its tags, as text.

use crate::extent::Extent;
use crate::picture::{Picture, Rows};
use crate::selection::{CandidateRow, row_at};
use heap_picture::{GranuleOwner, Mark, PictureGranule, PictureRow};
use mte_flat::Flat;
use run_records::Bytes;
use std::io::Write;
use std::{fmt, io};

/// The text above the rows.
const HEAD: &str =
    "each sign is a granule of 16 bytes: its tag in hexadecimal, or . where no page is mapped; \
    below it = in a live chunk, x in a freed one, ^ what was refused";

/// Writes what is above the rows: a title, a story where there is one, and what the signs mean.
fn write_head<W: Write>(out: &mut W, title: &str, story: &str) -> io::Result<()> {
    writeln!(out, "{title}")?;
    if !story.is_empty() {
        writeln!(out, "{story}")?;
    }
    writeln!(out, "{HEAD}")
}

impl<'a> Rows<'a> {
    /// Writes what is above them and those that are shown as text.
    pub(crate) fn write_text<W: Write>(&self, out: &mut W, memory: &mut Flat) -> io::Result<()> {
        write_head(out, self.picture.title, self.picture.story)?;
        for place in self.places {
            if self.window.number(place).is_some() {
                self.picture.write_row(out, memory, place)?;
            }
        }
        out.flush()
    }
}

impl<'a> Picture<'a> {
    /// Writes a row, and whose its granules are.
    fn write_row<W: Write>(
        &self,
        out: &mut W,
        memory: &mut Flat,
        place: &CandidateRow,
    ) -> io::Result<()> {
        let row = row_at(memory, self.extents, place.address);
        let tags = RowTags(&row);
        writeln!(out, "{tags}")?;
        let owners = Owners {
            row: &row,
            mark: self.mark,
        };
        if !owners.is_empty() {
            write!(out, "{owners}")?;
            self.write_chunks(out, place.address)?;
            writeln!(out)?;
        }
        Ok(())
    }

    /// Writes the chunks that begin in the row at an address.
    fn write_chunks<W: Write>(&self, out: &mut W, address: u64) -> io::Result<()> {
        for extent in self.extents {
            if extent.begins_in_row(address) && extent.is_newest {
                let label = ExtentLabel(extent);
                write!(out, "  {label}")?;
            }
        }
        Ok(())
    }
}

/// The call that made a chunk, and its size.
#[derive(Clone, Copy)]
struct ExtentLabel<'a>(&'a Extent);

impl<'a> fmt::Display for ExtentLabel<'a> {
    fn fmt<W: fmt::Write>(&self, f: &mut fmt::Formatter<W>) -> fmt::Result {
        let chunk = &self.0.chunk;
        let (number, size) = (chunk.made.number, Bytes(chunk.size));
        write!(f, "#{number} {size}")?;
        f.write_str(if self.0.live { "" } else { " freed" })
    }
}

/// The tags of a row, after its address and its class.
#[derive(Clone, Copy)]
struct RowTags<'a>(&'a PictureRow);

impl<'a> fmt::Display for RowTags<'a> {
    fn fmt<W: fmt::Write>(&self, f: &mut fmt::Formatter<W>) -> fmt::Result {
        let PictureRow { address, size, .. } = self.0;
        match self.0.class {
            Some(class) => write!(f, "{address:#010x}  class {class:>2} {size:>5} B  ")?,
            None => write!(f, "{address:#010x}{:20}", "")?,
        }
        for granule in &self.0.granules {
            match granule.tag {
                Some(tag) => write!(f, "{tag:x}")?,
                None => f.write_str(".")?,
            }
        }
        Ok(())
    }
}

/// Whose the granules of a row are, and what was refused there.
#[derive(Clone, Copy)]
struct Owners<'a> {
    row: &'a PictureRow,
    mark: Option<Mark>,
}

impl<'a> Owners<'a> {
    /// The number of the granule that was refused, if it is in the row.
    fn refused(&self) -> Option<usize> {
        self.row.index_of(self.mark?.addr)
    }

    /// Whether there is nothing to say of the row.
    fn is_empty(&self) -> bool {
        self.refused().is_none()
            && self
                .row
                .granules
                .iter()
                .all(|granule| sign_of(granule) == ' ')
    }
}

impl<'a> fmt::Display for Owners<'a> {
    fn fmt<W: fmt::Write>(&self, f: &mut fmt::Formatter<W>) -> fmt::Result {
        let refused = self.refused();
        write!(f, "{:30}", "")?;
        for (index, granule) in self.row.granules.iter().enumerate() {
            let sign = if refused == Some(index) {
                '^'
            } else {
                sign_of(granule)
            };
            f.write_char(sign)?;
        }
        Ok(())
    }
}

/// Whose a granule is.
fn sign_of(granule: &PictureGranule) -> char {
    match granule.owner {
        GranuleOwner::Nothing => ' ',
        GranuleOwner::Live => '=',
        GranuleOwner::Freed => 'x',
    }
}
