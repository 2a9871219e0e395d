//! Whether a tenant uses a pointer to a variable within the variable's bytes, and while its
//! function runs: which variable a pointer is to, where the image's symbols and its DWARF say it,
//! and how long frames last. Where nothing is known nothing is said.
#![tactic(auto)]

mod access_form;
mod blocks;
mod frames;
mod judgement;
mod marks;
mod notes;
mod place;
mod places;
mod quick;
mod scope;
mod selection;
mod table;

pub use judgement::{PlaceMisuse, PlaceMisuseKind};
pub use notes::NotedInstruction;
pub use place::{PlaceKind, PlaceText};
pub use places::NamedPlaces;
