//! The plan by which the loader loads an image.

/// A loadable segment: `memsz` bytes from `vaddr` on, of which the first `filesz` are in the file
/// from `offset` on and the others are 0. Its flags are execute 1, write 2 and read 4.
#[derive(Clone, Copy)]
pub struct Segment {
    /// The first address.
    pub vaddr: u64,
    /// How many bytes it has in memory, at least 1.
    pub memsz: u64,
    /// Where its bytes begin in the file.
    pub offset: u64,
    /// How many of its bytes are in the file, at most `memsz`.
    pub filesz: u64,
    /// Execute 1, write 2, read 4; other bits count for nothing.
    pub flags: u32,
}

/// The plan of an image: the pages and bytes of its segments, and where its program
/// begins.
#[derive(Drop)]
pub struct Plan {
    /// The first instruction's address.
    pub entry: u64,
    /// How many pages of 4096 bytes the segments touch.
    pub pages: u64,
    /// The loadable segments with bytes in memory, in the order of the program headers. No two
    /// touch one page.
    pub segments: Vec<Segment>,
}
