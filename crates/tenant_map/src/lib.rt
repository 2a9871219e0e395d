//! A tenant's memory as a map: its pages, the tags around an address, and its heap with its tags as
//! a picture.
#![tactic(auto)]

mod attributes;
mod extent;
mod history;
mod notes;
mod pages;
mod picture;
mod selection;
mod tags;
mod text;

pub use attributes::Letters;
pub use extent::Extent;
pub use history::extents;
pub use pages::{MappedPages, attrs_at, page_map};
pub use picture::{Picture, PictureForm};
pub use tags::{GRANULES, first_granule, tag_at, tell_tags};
