//! The heading above the rows: the title, what the colours and lines mean, and the pages.

use crate::layout::{PITCH, ROWS};
use crate::legend::{Definitions, Legend};
use crate::pages::{List, MappedRange};
use crate::part::Part::{Number, Text};
use crate::part::{Escaped, write_parts};
use std::fmt;

/// The heading above the rows: the title, what the colours and lines mean, and the pages.
#[derive(Clone, Copy)]
pub struct Heading<'a> {
    /// The title, any text of one line.
    pub title: &'a str,
    /// The title, any text of one line.
    pub story: &'a str,
    /// The pages that are mapped; the first 60 ranges are listed.
    pub pages: &'a [MappedRange],
    /// The rows that follow; what is beyond the first [`ROWS`] is below the picture.
    pub rows: usize,
}

impl<'a> fmt::Display for Heading<'a> {
    fn fmt<W: fmt::Write>(&self, f: &mut fmt::Formatter<W>) -> fmt::Result {
        let list = List(self.pages);
        let top = ABOVE_PAGES
            .saturating_add(list.height())
            .saturating_add(ABOVE_ROWS);
        let rows = PITCH * self.rows.min(ROWS) as u64;
        let height = top.saturating_add(rows);
        let (title, definitions, legend) = (Escaped(self.title), Definitions, Legend);
        let height = Number(height);
        write_parts(f, &[Text(OPEN), height, Text(BOX), height, Text(FONT)])?;
        write!(f, "{definitions}")?;
        f.write_str("<rect width=\"100%\" height=\"100%\" fill=\"#fff\"/>\n")?;
        let fit = if self.title.len() > LONGEST { FIT } else { "" };
        write!(
            f,
            "<text class=\"title\" x=\"20\" y=\"32\"{fit}>{title}</text>\n"
        )?;
        let fit = if self.story.len() > LONGEST_STORY {
            FIT
        } else {
            ""
        };
        let story = Escaped(self.story);
        write!(
            f,
            "<text class=\"story\" x=\"20\" y=\"56\"{fit}>{story}</text>\n"
        )?;
        write!(f, "<g transform=\"translate(170 74)\">{legend}</g>\n")?;
        write!(
            f,
            "<g transform=\"translate(170 {ABOVE_PAGES})\">{PAGES}{list}</g>\n"
        )?;
        write!(f, "<g transform=\"translate(170 {top})\">\n")?;
        f.write_str(RULER)
    }
}

/// The text before the height of the picture.
const OPEN: &str = "<svg xmlns=\"http://www.w3.org/2000/svg\" width=\"1600\" height=\"";

/// The text between the height and the height of the box that is seen.
const BOX: &str = "\" viewBox=\"0 0 1600 ";

/// The rest of the element.
const FONT: &str = "\" font-family=\"monospace\" font-size=\"12\">\n";

/// The most letters of a title that has its usual width.
const LONGEST: usize = 130;

/// The most letters of a story that has its usual width.
const LONGEST_STORY: usize = 180;

/// The text that makes a longer title as wide as the picture.
const FIT: &str = " textLength=\"1560\" lengthAdjust=\"spacingAndGlyphs\"";

/// The label of the list of pages.
const PAGES: &str = "<text class=\"at\" x=\"-10\">pages</text>\n";

/// From the top of a picture to the bottom of the first line of pages.
const ABOVE_PAGES: u64 = 178;

/// From the bottom of the last line of pages to the first row.
const ABOVE_ROWS: u64 = 34;

/// The distances from the address at the left of a row.
const RULER: &str = "<text class=\"ruler\" y=\"-8\">+0</text>\
    <text class=\"ruler\" x=\"256\" y=\"-8\">+0x100</text>\
    <text class=\"ruler\" x=\"512\" y=\"-8\">+0x200</text>\
    <text class=\"ruler\" x=\"768\" y=\"-8\">+0x300</text>\n";

/// The text after the last line.
pub const END: &str = "</g>\n</svg>\n";
