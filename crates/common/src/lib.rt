//! Definitions that all crates may use: where a tenant's image, heap and stack lie, and the limits
//! of what it is given, each number once; why a call has no result; a copy of a list; names that
//! others chose, as text for a terminal; and how a program was built.
#![tactic(auto)]

pub mod build_info;
mod limits;
mod list_copy;
mod obstacle;
mod printable;
mod ranges;
mod shell_word;

pub use limits::{
    GRANULE_SIZE, MAX_FRAMES, MAX_OUTPUT, MAX_PAGES, MAX_STEPS, PAGE_SIZE, limits_in_digits,
};
pub use list_copy::copy_list;
pub use obstacle::Obstacle;
pub use printable::{Printable, PrintableLines};
pub use ranges::{
    ADDRESS_END, IMAGE_END, IMAGE_START, REGION_SIZE, REGIONS_START, SECONDARY_END,
    SECONDARY_START, STACK_END, STACK_PAGES, STACK_START, ranges_in_digits,
};
pub use shell_word::ShellWord;
