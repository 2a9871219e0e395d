//! The file header and the program headers.

ghost use Rattle.std.specs.Prelude.{◌≡◌, ◌+◌, ◌≤◌, length, IfOk, IfErr, map, filter, true};
ghost use Rattle.mte_elf.specs.Images.{has_table};
ghost use Rattle.mte_elf.specs.Headers.{number_at, header_at, headers_of, is_loaded, segment_of};
ghost use Rattle.mte_elf.specs.Headers.{HasField, HasFileHeader, is_interpreter};
ghost use Rattle.std.specs.List.{list_any};

use crate::image::Segment;
use byteorder::{ByteOrder, LittleEndian};
use std::alloc::{AllocError, Global};

/// The fields of a program header (Elf64_Phdr) that the loader reads.
#[derive(Clone, Copy)]
pub struct ProgramHeader {
    /// `p_type`.
    pub kind: u32,
    /// `p_flags`: execute 1, write 2, read 4.
    pub flags: u32,
    /// `p_offset`: where its bytes begin in the file.
    pub offset: u64,
    /// `p_vaddr`: its first address.
    pub vaddr: u64,
    /// `p_filesz`: how many of its bytes are in the file.
    pub filesz: u64,
    /// `p_memsz`: how many bytes it has in memory.
    pub memsz: u64,
}

/// PT_LOAD.
const LOAD: u32 = 1;

/// PT_INTERP.
const INTERPRETER: u32 = 3;

/// The bytes of a program header.
pub const HEADER_BYTES: usize = 56;

#[tactic(auto, unfolding(crate::specs::Headers::number_at))]
fn half_at(file: &[u8], at: usize) -> u16
    requires { HasField file.now 2 at }
    ensures { result ≡ number_at file.now 2 at }
{
    LittleEndian::read_u16(&file[at..])
}

#[tactic(auto, unfolding(crate::specs::Headers::number_at))]
fn word_at(file: &[u8], at: usize) -> u32
    requires { HasField file.now 4 at }
    ensures { result ≡ number_at file.now 4 at }
{
    LittleEndian::read_u32(&file[at..])
}

#[tactic(auto, unfolding(crate::specs::Headers::number_at))]
fn double_word_at(file: &[u8], at: usize) -> u64
    requires { HasField file.now 8 at }
    ensures { result ≡ number_at file.now 8 at }
{
    LittleEndian::read_u64(&file[at..])
}

/// `e_type`.
pub fn file_type(file: &[u8]) -> u16
    requires { HasFileHeader file.now }
    ensures { result ≡ number_at file.now 2 16 }
{
    half_at(file, 16)
}

/// `e_machine`.
pub fn machine(file: &[u8]) -> u16
    requires { HasFileHeader file.now }
    ensures { result ≡ number_at file.now 2 18 }
{
    half_at(file, 18)
}

/// `e_entry`.
pub fn entry(file: &[u8]) -> u64
    requires { HasFileHeader file.now }
    ensures { result ≡ number_at file.now 8 24 }
{
    double_word_at(file, 24)
}

/// `e_phoff`.
pub fn table_offset(file: &[u8]) -> u64
    requires { HasFileHeader file.now }
    ensures { result ≡ number_at file.now 8 32 }
{
    double_word_at(file, 32)
}

/// `e_phentsize`.
pub fn header_size(file: &[u8]) -> u16
    requires { HasFileHeader file.now }
    ensures { result ≡ number_at file.now 2 54 }
{
    half_at(file, 54)
}

/// `e_phnum`.
pub fn header_count(file: &[u8]) -> u16
    requires { HasFileHeader file.now }
    ensures { result ≡ number_at file.now 2 56 }
{
    half_at(file, 56)
}

/// The program header that begins at a place of the file.
#[tactic(auto, unfolding(crate::specs::Headers::header_at))]
fn program_header(file: &[u8], at: usize) -> ProgramHeader
    requires { HasField file.now 56 at }
    ensures { result ≡ header_at file.now at }
{
    ProgramHeader {
        kind: word_at(file, at),
        flags: word_at(file, at + 4),
        offset: double_word_at(file, at + 8),
        vaddr: double_word_at(file, at + 16),
        filesz: double_word_at(file, at + 32),
        memsz: double_word_at(file, at + 40),
    }
}

/// Whether some program header is PT_INTERP.
pub fn has_interpreter(file: &[u8]) -> bool
    requires file_header { HasFileHeader file.now }
    requires table { has_table file.now ≡ true }
    ensures { result ≡ list_any is_interpreter (headers_of file.now) }
{
    let at = table_offset(file) as usize;
    let count = header_count(file) as usize;
    for i in 0..count {
        if program_header(file, at + HEADER_BYTES * i).kind == INTERPRETER {
            return true;
        }
    }
    false
}

/// The table of program headers.
pub fn program_headers(alloc: Global, file: &[u8]) -> Result<Vec<ProgramHeader>, AllocError>
    requires file_header { HasFileHeader file.now }
    requires table { has_table file.now ≡ true }
    ensures { IfOk result (λ headers. headers.items ≡ headers_of file.now) }
{
    let at = table_offset(file) as usize;
    let count = header_count(file) as usize;
    let mut headers = Vec::with_capacity(alloc, count)?;
    for i in 0..count {
        headers.push(program_header(file, at + HEADER_BYTES * i))?;
    }
    Ok(headers)
}

/// Whether a program header is a loadable segment with bytes in memory.
fn is_loadable(header: &ProgramHeader) -> bool
    ensures { result ≡ is_loaded header.now }
{
    header.kind == LOAD && header.memsz > 0
}

/// The segment that a program header describes.
fn segment_of(header: &ProgramHeader) -> Segment
    ensures { result ≡ segment_of header.now }
{
    Segment {
        vaddr: header.vaddr,
        memsz: header.memsz,
        offset: header.offset,
        filesz: header.filesz,
        flags: header.flags,
    }
}

/// The loadable segments with bytes in memory, in the order of the headers.
pub fn segments(alloc: Global, headers: &[ProgramHeader]) -> Result<Vec<Segment>, AllocError>
    ensures { IfOk result
        (λ segments. segments.items ≡ map segment_of (filter is_loaded headers.now)) }
{
    let mut segments = Vec::with_capacity(alloc, headers.len())?;
    for header in headers {
        if is_loadable(header) {
            segments.push(segment_of(header))?;
        }
    }
    Ok(segments)
}
