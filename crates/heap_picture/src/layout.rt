//! The size of a picture.

/// The granules of a row.
pub const GRANULES: usize = 64;

/// The most rows of a picture, which is then at most 4,100 pixels high.
pub const ROWS: usize = 105;

/// The pixels from the top of a row to the top of the next: its cells, and labels below them.
pub const PITCH: u64 = 34;
