//! The core file (ELF64, "ELF Header", "Program Header"; the ABI for memory tags in core files:
//! Linux, "Memory Tagging Extension (MTE) in AArch64 Linux", "Core dump support").

use crate::core_notes::{Noted, write_double_words, write_words};
use crate::memory_map::{MappedRegion, regions};
use crate::signal::Signal;
use common::{GRANULE_SIZE, PAGE_SIZE};
use mte_flat::Flat;
use mte_svc::TenantParts;
use mte_tags::{Attrs, TagMode, Tagged};
use std::alloc::Global;
use std::io;
use std::io::Write;

/// The bytes of the ELF header, and of a program header.
const HEADER_SIZE: u64 = 64;

const PROGRAM_HEADER_SIZE: u64 = 56;

/// ELF64, little endian, version 1.
static IDENTIFICATION: [u8; 16] = [0x7F, b'E', b'L', b'F', 2, 1, 1, 0, 0, 0, 0, 0, 0, 0, 0, 0];

/// ET_CORE and EM_AARCH64.
const CORE_FOR_AARCH64: u32 = 4 + (183 << 16);

/// PT_LOAD, PT_NOTE and PT_AARCH64_MEMTAG_MTE.
const LOAD: u32 = 1;

const NOTE: u32 = 4;

const TAGS: u32 = 0x7000_0002;

/// A tenant that a core file is of.
#[derive(Clone, Copy)]
pub struct CoreSubject<'a> {
    /// All of its machine but the memory.
    pub parts: &'a TenantParts,
    /// The mode of tag checks.
    pub mode: TagMode,
    /// Its program's name, of which 15 bytes are written.
    pub name: &'a str,
}

/// Writes a core file of a tenant: notes, a segment for each region of its memory, and its tags.
pub fn write_core<W: Write>(
    alloc: Global,
    out: &mut W,
    subject: &CoreSubject<'_>,
    memory: &mut Flat,
) -> io::Result<()> {
    let noted = Noted {
        regs: &subject.parts.regs,
        signal: Signal::of(&subject.parts.history.status),
        mode: subject.mode,
        name: subject.name,
    };
    let notes = noted.notes(alloc)?;
    let all = regions(alloc, memory)?;
    write_headers(alloc, out, notes.len() as u64, all.as_slice())?;
    write_padded(out, notes.as_slice())?;
    for region in &all {
        write_region(out, memory, region)?;
    }
    out.flush()
}

/// A part of the file and of the memory.
#[derive(Clone, Copy)]
struct CoreSegment {
    kind: u32,
    flags: u32,
    address: u64,
    file_size: u64,
    memory_size: u64,
    alignment: u64,
}

impl CoreSegment {
    /// The notes.
    fn of_notes(size: u64) -> CoreSegment {
        CoreSegment {
            kind: NOTE,
            flags: 0,
            address: 0,
            file_size: size,
            memory_size: 0,
            alignment: 4,
        }
    }

    /// The bytes of a region.
    fn of_bytes(region: &MappedRegion) -> CoreSegment {
        CoreSegment {
            kind: LOAD,
            flags: flags_of(region.attrs),
            address: region.start,
            file_size: region.len(),
            memory_size: region.len(),
            alignment: PAGE_SIZE,
        }
    }

    /// The tags of a region.
    fn of_tags(region: &MappedRegion) -> CoreSegment {
        CoreSegment {
            kind: TAGS,
            flags: 0,
            address: region.start,
            file_size: region.len() / (2 * GRANULE_SIZE),
            memory_size: region.len(),
            alignment: 0,
        }
    }
}

/// PF_R 4, PF_W 2, PF_X 1.
fn flags_of(attrs: Attrs) -> u32 {
    let read = if attrs.contains(Attrs::READ) { 4 } else { 0 };
    let write = if attrs.contains(Attrs::WRITE) { 2 } else { 0 };
    let exec = if attrs.contains(Attrs::EXEC) { 1 } else { 0 };
    read | write | exec
}

/// The next multiple of a page's size, where each part of the file begins.
fn padded(size: u64) -> u64 {
    size.saturating_add(PAGE_SIZE - 1) / PAGE_SIZE * PAGE_SIZE
}

/// The ELF header and the program headers, up to the notes.
fn write_headers<W: Write>(
    alloc: Global,
    out: &mut W,
    notes_size: u64,
    all: &[MappedRegion],
) -> io::Result<()> {
    let mut headers = Headers {
        text: Vec::new(alloc),
        count: 0,
        offset: padded(first_offset(all)),
    };
    headers.append(&CoreSegment::of_notes(notes_size))?;
    for region in all {
        headers.append(&CoreSegment::of_bytes(region))?;
        if region.is_tagged() {
            headers.append(&CoreSegment::of_tags(region))?;
        }
    }
    let mut text = Vec::new(alloc);
    write_elf_header(&mut text, headers.count)?;
    text.write_all(headers.text.as_slice())?;
    write_padded(out, text.as_slice())
}

/// How many bytes the headers have: of the notes, and of each region one or two.
fn first_offset(all: &[MappedRegion]) -> u64 {
    let tagged = all.iter().filter(|region| region.is_tagged()).count() as u64;
    let count = (all.len() as u64).saturating_add(tagged).saturating_add(1);
    PROGRAM_HEADER_SIZE
        .saturating_mul(count)
        .saturating_add(HEADER_SIZE)
}

/// Program headers so far, and where in the file the next segment begins.
#[derive(Drop)]
struct Headers {
    text: Vec<u8>,
    count: u16,
    offset: u64,
}

impl Headers {
    /// Appends the header of a segment.
    fn append(&mut self, segment: &CoreSegment) -> io::Result<()> {
        write_words(&mut self.text, &[segment.kind, segment.flags])?;
        let values = [
            self.offset,
            segment.address,
            0,
            segment.file_size,
            segment.memory_size,
            segment.alignment,
        ];
        write_double_words(&mut self.text, &values)?;
        self.count = self.count.saturating_add(1);
        self.offset = padded(self.offset.saturating_add(segment.file_size));
        Ok(())
    }
}

/// The ELF header of a file with `count` program headers, which follow it.
fn write_elf_header(out: &mut Vec<u8>, count: u16) -> io::Result<()> {
    out.write_all(&IDENTIFICATION)?;
    write_words(out, &[CORE_FOR_AARCH64, 1])?;
    write_double_words(out, &[0, HEADER_SIZE, 0])?;
    let sizes = (PROGRAM_HEADER_SIZE as u32) << 16 | HEADER_SIZE as u32;
    write_words(out, &[0, sizes, u32::from(count), 0])
}

/// Bytes, and zeros up to the next multiple of a page's size.
fn write_padded<W: Write>(out: &mut W, bytes: &[u8]) -> io::Result<()> {
    out.write_all(bytes)?;
    let size = bytes.len() as u64;
    let missing = padded(size).saturating_sub(size);
    for _ in 0..missing {
        out.write_all(&[0])?;
    }
    Ok(())
}

/// The bytes of a region's pages, and then their tags.
fn write_region<M: Tagged, W: Write>(
    out: &mut W,
    memory: &mut M,
    region: &MappedRegion,
) -> io::Result<()> {
    write_pages(out, memory, region)?;
    if region.is_tagged() {
        write_tags(out, memory, region)?;
    }
    Ok(())
}

/// The bytes of a region's pages.
fn write_pages<M: Tagged, W: Write>(
    out: &mut W,
    memory: &mut M,
    region: &MappedRegion,
) -> io::Result<()> {
    for number in region.start / PAGE_SIZE..region.end / PAGE_SIZE {
        write_page(out, memory, number.saturating_mul(PAGE_SIZE))?;
    }
    Ok(())
}

/// The bytes of a page with READ or EXEC; zeros for another one.
fn write_page<M: Tagged, W: Write>(out: &mut W, memory: &mut M, start: u64) -> io::Result<()> {
    let mut page = [0; PAGE_SIZE as usize];
    if memory.read(start, &mut page, false).is_ok() {
        return out.write_all(&page);
    }
    for index in 0..PAGE_SIZE / 4 {
        let word = word_at(memory, start.saturating_add(index.saturating_mul(4)));
        out.write_all(&word.to_le_bytes())?;
    }
    Ok(())
}

/// The word at an address of a page with EXEC; 0 where it has none.
fn word_at<M: Tagged>(memory: &mut M, addr: u64) -> u32 {
    match memory.fetch(addr) {
        Ok(word) => word,
        Err(_) => 0,
    }
}

/// The tags of a region's granules, two in a byte, the lower one first.
fn write_tags<M: Tagged, W: Write>(
    out: &mut W,
    memory: &mut M,
    region: &MappedRegion,
) -> io::Result<()> {
    let pair = 2 * GRANULE_SIZE;
    for number in region.start / pair..region.end / pair {
        let low = tag_at(memory, number.saturating_mul(pair));
        let high = tag_at(
            memory,
            number.saturating_mul(pair).saturating_add(GRANULE_SIZE),
        );
        out.write_all(&[low | high << 4])?;
    }
    let size = region.len() / pair;
    for _ in size..padded(size) {
        out.write_all(&[0])?;
    }
    Ok(())
}

/// The tag of the granule at an address, below 16; 0 where it has none.
fn tag_at<M: Tagged>(memory: &mut M, addr: u64) -> u8 {
    match memory.load_tag(addr) {
        Ok(tag) => tag % 16,
        Err(_) => 0,
    }
}
