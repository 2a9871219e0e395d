//! The tags around an address.

use common::GRANULE_SIZE;
use mte_tags::Tagged;
use std::io::Write;
use std::{fmt, io};

/// How many granules are shown in front of an address, and how many from it on.
pub const GRANULES: u64 = 8;

/// The address of the first granule that is shown around an address.
pub fn first_granule(addr: u64) -> u64 {
    granule_of(addr).saturating_sub(GRANULES * GRANULE_SIZE)
}

/// The address of the granule that an address is in.
fn granule_of(addr: u64) -> u64 {
    addr / GRANULE_SIZE * GRANULE_SIZE
}

/// The tag of the granule of a number from the one at an address on, if it can be read.
pub fn tag_at<M: Tagged>(memory: &mut M, first: u64, number: u64) -> Option<u8> {
    let at = first.wrapping_add(number.wrapping_mul(GRANULE_SIZE));
    memory.load_tag(at).ok()
}

/// Writes the tags of the granules around an address, its own in brackets.
pub fn tell_tags<W: Write, M: Tagged>(out: &mut W, memory: &mut M, addr: u64) -> io::Result<()> {
    let (own, first) = (granule_of(addr), first_granule(addr));
    write!(out, "tags from {first:#018x}, of 16 bytes each:")?;
    for number in 0..2 * GRANULES {
        let is_own = first.wrapping_add(number * GRANULE_SIZE) == own;
        tell_tag(out, Tag(tag_at(memory, first, number)), is_own)?;
    }
    writeln!(out)
}

/// Writes the tag of a granule, in brackets where it is the address's own.
fn tell_tag<W: Write>(out: &mut W, tag: Tag, is_own: bool) -> io::Result<()> {
    if is_own {
        write!(out, " [{tag}]")
    } else {
        write!(out, " {tag}")
    }
}

/// A granule's tag, or a dash where it has none.
#[derive(Clone, Copy)]
struct Tag(Option<u8>);

impl fmt::Display for Tag {
    fn fmt<W: fmt::Write>(&self, f: &mut fmt::Formatter<W>) -> fmt::Result {
        match self.0 {
            Some(tag) => write!(f, "{tag:x}"),
            None => f.write_str("-"),
        }
    }
}
