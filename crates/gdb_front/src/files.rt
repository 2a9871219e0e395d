//! The files that GDB reads: the maps of the tenant's memory, and its image.

use crate::front::Front;
use crate::mappings::{put_maps, put_smaps};
use crate::parts::{put_file_part, put_file_status};
use crate::reply::Reply;
use crate::text::TextBuffer;
use debuggee::MappedRegion;
use gdb_packets::{FileCall, read_hex};
use std::alloc::Global;

/// The descriptor of a map, one of which is open at a time.
const MAP: u64 = 3;

/// The descriptor of the image, which is open always: GDB opens it several times at once.
const IMAGE: u64 = 4;

/// The most bytes of a path.
const PATH_LIMIT: usize = 4096;

/// The map that GDB has open, or had.
#[derive(Drop)]
pub struct File {
    text: TextBuffer,
    /// Which map the text is, as long as the tenant is where it was.
    kept: Option<Map>,
    is_open: bool,
}

impl File {
    /// None.
    pub fn new(alloc: Global) -> File {
        File {
            text: TextBuffer::new(alloc),
            kept: None,
            is_open: false,
        }
    }

    /// Forgets what the text is: the tenant was moved.
    pub fn forget(&mut self) {
        self.kept = None;
    }
}

impl File {
    /// Makes the map of a memory's regions.
    fn make_map(&mut self, map: Map, all: &[MappedRegion], image: &[u8]) {
        self.text.clear();
        match map {
            Map::Maps => put_maps(&mut self.text, all, image),
            Map::Smaps => put_smaps(&mut self.text, all, image),
        }
        self.kept = Some(map);
    }
}

/// Which map a path names.
#[derive(Clone, Copy, PartialEq, Eq)]
enum Map {
    /// `/proc/1/maps`, or that of a task.
    Maps,
    /// `/proc/1/smaps`
    Smaps,
}

/// Which file a path names.
#[derive(Clone, Copy)]
enum Named {
    /// A map of the memory.
    Map(Map),
    /// The image, by the name that it was started with.
    Image,
}

impl Front<'_> {
    /// Answers an operation on a file.
    pub(crate) fn answer_file(&mut self, alloc: Global, call: &FileCall<'_>, reply: &mut Reply) {
        match *call {
            FileCall::SetFilesystem { .. } => reply.answer.put(b"F0"),
            FileCall::Open { path, .. } => self.open_file(alloc, path, reply),
            FileCall::Read {
                descriptor,
                count,
                offset,
            } => self.put_file(descriptor, offset, count, reply),
            FileCall::Status { descriptor } => self.put_status(descriptor, reply),
            FileCall::Close { descriptor } => self.close_file(descriptor, reply),
            FileCall::ReadLink { .. } => reply.answer.put(b"F-1,2"),
        }
    }

    /// Opens the file with a path, which is in digits.
    fn open_file(&mut self, alloc: Global, path: &[u8], reply: &mut Reply) {
        match named_by(path, self.subject.name.as_bytes()) {
            Some(Named::Map(map)) => self.open_map(alloc, map, reply),
            Some(Named::Image) => reply.answer.put(b"F4"),
            None => reply.answer.put(b"F-1,2"),
        }
    }

    /// Opens a map of the memory. It is made once where the tenant is: GDB opens it several times.
    fn open_map(&mut self, alloc: Global, map: Map, reply: &mut Reply) {
        if self.file.kept != Some(map) {
            self.make_map(alloc, map, reply);
        }
        self.file.is_open = true;
        reply.answer.put(b"F3");
    }

    /// Makes a map of the memory.
    fn make_map(&mut self, alloc: Global, map: Map, reply: &mut Reply) {
        let Ok(all) = self.tenant.regions(alloc) else {
            reply.answer.fail();
            return;
        };
        let image = self.subject.name.as_bytes();
        self.file.make_map(map, all.as_slice(), image);
        if self.file.text.is_short() {
            reply.answer.fail();
        }
    }

    /// The bytes of the file with a descriptor, where it is open.
    fn content(&self, descriptor: u64) -> Option<&[u8]> {
        match descriptor {
            MAP if self.file.is_open => Some(self.file.text.as_slice()),
            IMAGE => Some(self.subject.image),
            _ => None,
        }
    }

    /// Answers a part of a file.
    fn put_file(&self, descriptor: u64, offset: u64, count: u64, reply: &mut Reply) {
        match self.content(descriptor) {
            Some(bytes) => put_file_part(&mut reply.answer, bytes, offset, count),
            None => reply.answer.put(b"F-1,9"),
        }
    }

    /// Answers how many bytes a file has.
    fn put_status(&self, descriptor: u64, reply: &mut Reply) {
        match self.content(descriptor) {
            Some(bytes) => put_file_status(&mut reply.answer, bytes.len() as u64),
            None => reply.answer.put(b"F-1,9"),
        }
    }

    /// Closes a file.
    fn close_file(&mut self, descriptor: u64, reply: &mut Reply) {
        if self.content(descriptor).is_none() {
            reply.answer.put(b"F-1,9");
            return;
        }
        if descriptor == MAP {
            self.file.is_open = false;
        }
        reply.answer.put(b"F0");
    }
}

/// The file that a path in digits names, if it is one of these.
fn named_by(path: &[u8], image: &[u8]) -> Option<Named> {
    if path.len() > 2 * PATH_LIMIT {
        return None;
    }
    let mut room = [0; PATH_LIMIT];
    let len = read_hex(path, &mut room)?;
    let name = room.get(..len)?;
    if name == image {
        return Some(Named::Image);
    }
    if !name.starts_with(b"/proc/1/") {
        return None;
    }
    if name.ends_with(b"/smaps") {
        Some(Named::Map(Map::Smaps))
    } else if name.ends_with(b"/maps") {
        Some(Named::Map(Map::Maps))
    } else {
        None
    }
}
