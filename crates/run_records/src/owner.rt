//! Whose granule an address is in.

use crate::book::BookChunk;
use heap_bounds::{Block, RangeUse};
use std::fmt;

/// Whose granule an address is in.
#[derive(Clone, Copy)]
pub struct ChunkOwner {
    /// Its plain address.
    pub addr: u64,
    /// Whether its page is mapped.
    pub mapped: bool,
    /// The newest chunk of whose granules it is one.
    pub chunk: Option<BookChunk>,
}

impl fmt::Display for ChunkOwner {
    fn fmt<W: fmt::Write>(&self, f: &mut fmt::Formatter<W>) -> fmt::Result {
        let ChunkOwner { addr, mapped, .. } = *self;
        let (spot, inside) = (AddressUse(addr), Inside(self));
        let page = if mapped { "" } else { ", in no mapped page" };
        write!(f, "{addr:#018x} is in {spot}{page}, {inside}")
    }
}

/// The block that an address is in, or what its range is for.
#[derive(Clone, Copy)]
struct AddressUse(u64);

impl fmt::Display for AddressUse {
    fn fmt<W: fmt::Write>(&self, f: &mut fmt::Formatter<W>) -> fmt::Result {
        match Block::of(self.0) {
            Some(Block { class, start, size }) => {
                write!(
                    f,
                    "the block of {size} bytes at {start:#018x} (class {class})"
                )
            }
            None => write!(f, "the range of: {}", RangeUse::of(self.0)),
        }
    }
}

/// Where in its chunk an address is.
#[derive(Clone, Copy)]
struct Inside<'a>(&'a ChunkOwner);

impl<'a> fmt::Display for Inside<'a> {
    fn fmt<W: fmt::Write>(&self, f: &mut fmt::Formatter<W>) -> fmt::Result {
        let Some(chunk) = &self.0.chunk else {
            return f.write_str("of no chunk");
        };
        let state = if chunk.freed.is_some() {
            "freed"
        } else {
            "live"
        };
        let from_start = self.0.addr.saturating_sub(chunk.start());
        write!(f, "{from_start} bytes from the start of a {state} {chunk}")
    }
}
