//! A heap and its tags as a picture in SVG: rows of granules, each in the colour of its tag, with
//! the blocks, the chunks that are live or freed, and the access or pointer that was refused.
//!
//! A picture is the text of a [`Heading`], of its [`PictureLine`]s in order, each with its
//! [`Note`]s after it, of an [`Arrow`] where there is one, and [`END`]. A [`Gap`] is between
//! rows that do not follow each other.
#![tactic(auto)]

mod arrow;
mod cell;
mod gap;
mod heading;
mod layout;
mod legend;
mod line;
mod note;
mod pages;
mod part;
mod row;
mod run;

pub use arrow::{Arrow, Spot};
pub use gap::Gap;
pub use heading::{END, Heading};
pub use layout::{GRANULES, ROWS};
pub use line::{Mark, Marked, PictureLine};
pub use note::Note;
pub use pages::{Kind, MappedRange};
pub use row::{GranuleOwner, PictureGranule, PictureRow};
