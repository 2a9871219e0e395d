//! The regions of a memory as Linux writes them (proc(5)).

use crate::text::TextBuffer;
use debuggee::MappedRegion;
use mte_tags::Attrs;

/// Where chunks of size classes begin, and where those with pages of their own end.
const HEAP: u64 = 0x1100_0000;

const HEAP_END: u64 = 0x3F00_0000;

/// Where the stack begins.
const STACK: u64 = 0x3FFF_C000;

/// Appends the text of `/proc/PID/maps`.
pub fn put_maps(text: &mut TextBuffer, all: &[MappedRegion], image: &[u8]) {
    for region in all {
        put_line(text, region, image);
    }
}

/// Appends the text of `/proc/PID/smaps`: of its lines those that GDB reads.
pub fn put_smaps(text: &mut TextBuffer, all: &[MappedRegion], image: &[u8]) {
    for region in all {
        put_line(text, region, image);
        text.put(b"Size: ");
        text.put_decimal(region.len() / 1024);
        text.put(b" kB\nRss: 0 kB\nVmFlags: ");
        put_flags(text, region.attrs);
        text.put(b"\n");
    }
}

/// `12000000-12001000 rw-p 00000000 00:00 0 [heap]`
fn put_line(text: &mut TextBuffer, region: &MappedRegion, image: &[u8]) {
    text.put_number(region.start);
    text.put(b"-");
    text.put_number(region.end);
    text.put(b" ");
    put_attr(text, region.attrs, Attrs::READ, b"r");
    put_attr(text, region.attrs, Attrs::WRITE, b"w");
    put_attr(text, region.attrs, Attrs::EXEC, b"x");
    text.put(b"p 00000000 00:00 0 ");
    text.put(name_of(region, image));
    text.put(b"\n");
}

/// An attribute's letter, or `-`.
fn put_attr(text: &mut TextBuffer, attrs: Attrs, attr: Attrs, letter: &[u8]) {
    text.put(if attrs.contains(attr) { letter } else { b"-" });
}

/// `rd wr ex mt `, each where a region has it.
fn put_flags(text: &mut TextBuffer, attrs: Attrs) {
    put_flag(text, attrs, Attrs::READ, b"rd ");
    put_flag(text, attrs, Attrs::WRITE, b"wr ");
    put_flag(text, attrs, Attrs::EXEC, b"ex ");
    put_flag(text, attrs, Attrs::TAGGED, b"mt ");
}

/// A flag, where a region has it.
fn put_flag(text: &mut TextBuffer, attrs: Attrs, attr: Attrs, word: &[u8]) {
    if attrs.contains(attr) {
        text.put(word);
    }
}

/// The use of a region.
fn name_of<'a>(region: &MappedRegion, image: &'a [u8]) -> &'a [u8] {
    if region.start >= STACK {
        b"[stack]"
    } else if region.start >= HEAP && region.start < HEAP_END {
        b"[heap]"
    } else {
        image
    }
}
