//! The facts that the heap's parts share: the size classes of Scudo's primary allocator, their
//! regions, and the header in front of each chunk.
#![tactic(auto)]

mod classes;
mod config;
mod headers;

pub use classes::{class_of, is_multiple, region_start, size_of_class};
pub use config::{
    CLASSES, LARGEST_CLASS_SIZE, MAX_ALIGNMENT, MAX_COUNT, MAX_COUNT_ABOVE, MAX_REQUEST,
    MIN_ALIGNMENT, SMALL_SIZE, settings_in_digits,
};
pub use headers::{Header, Origin, State, checksum, pack, unpack};
