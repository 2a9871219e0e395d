//! The chunks that an address was in.

use crate::calls::{Made, made_calls};
use crate::traveller::Traveller;
use a64_bits::plain;
use heap_bounds::{Allocation, freed_by, made_by};
use std::alloc::Global;
use std::io;
use std::io::Write;

/// How many granules are written before an address, and how many from it on.
const AROUND: u64 = 8;

/// Writes the chunks whose header or bytes an address was in, the oldest first, and the tags of the
/// granules around it.
pub fn tell_chunks<W: Write>(
    alloc: Global,
    out: &mut W,
    tenant: &mut Traveller<'_>,
    address: u64,
) -> io::Result<()> {
    let calls = made_calls(alloc, tenant)?;
    write_chunks(out, calls.as_slice(), plain(address))?;
    tell_tags(out, tenant, address)
}

/// Writes the chunks whose header or bytes a plain address was in.
fn write_chunks<W: Write>(out: &mut W, calls: &[Made], address: u64) -> io::Result<()> {
    let mut is_told = false;
    for (index, made) in calls.iter().enumerate() {
        if let Some(chunk) = made_by(&made.call).filter(|chunk| is_in(chunk, address)) {
            let freed = freed_after(calls, index, plain(chunk.pointer));
            tell_chunk(out, &chunk, address, made, freed)?;
            is_told = true;
        }
    }
    if is_told {
        return Ok(());
    }
    writeln!(out, "no chunk there")
}

/// Whether an address is one of a chunk's or of its header's.
fn is_in(chunk: &Allocation, address: u64) -> bool {
    let start = plain(chunk.pointer);
    start <= address.saturating_add(16) && address < start.saturating_add(chunk.size.max(16))
}

/// The first call after an index that freed the chunk at an address.
fn freed_after(calls: &[Made], index: usize, start: u64) -> Option<Made> {
    calls
        .iter()
        .skip(index.saturating_add(1))
        .find(|made| freed_by(&made.call) == Some(start))
        .copied()
}

/// Writes a chunk and the calls that made and freed it.
fn tell_chunk<W: Write>(
    out: &mut W,
    chunk: &Allocation,
    address: u64,
    made: &Made,
    freed: Option<Made>,
) -> io::Result<()> {
    let state = if freed.is_some() { "freed" } else { "live" };
    let Allocation { pointer, size } = chunk;
    write!(out, "{state} {size}-byte chunk at {pointer:#018x}, ")?;
    tell_distance(out, plain(*pointer), address)?;
    writeln!(out, "  allocated by {made}")?;
    match freed {
        Some(call) => writeln!(out, "  freed by {call}"),
        None => Ok(()),
    }
}

/// Writes where an address is in a chunk.
fn tell_distance<W: Write>(out: &mut W, start: u64, address: u64) -> io::Result<()> {
    if address < start {
        return writeln!(out, "{} bytes in front of it", start - address);
    }
    writeln!(out, "{} bytes into it", address - start)
}

/// Writes the tags of the granules around an address, its own granule's in brackets.
fn tell_tags<W: Write>(out: &mut W, tenant: &mut Traveller<'_>, address: u64) -> io::Result<()> {
    let own = plain(address) / 16;
    let first = own.saturating_sub(AROUND);
    write!(out, "tags from {:#018x}:", first.saturating_mul(16))?;
    for granule in first..own.saturating_add(AROUND) {
        let tag = tenant.tag_at(granule.saturating_mul(16));
        if granule == own {
            write!(out, " [")?;
            tell_tag(out, tag)?;
            write!(out, "]")?;
        } else {
            write!(out, " ")?;
            tell_tag(out, tag)?;
        }
    }
    writeln!(out, "")
}

/// Writes a tag, or `-` where there is none.
fn tell_tag<W: Write>(out: &mut W, tag: Option<u8>) -> io::Result<()> {
    match tag {
        Some(tag) => write!(out, "{tag:x}"),
        None => write!(out, "-"),
    }
}
