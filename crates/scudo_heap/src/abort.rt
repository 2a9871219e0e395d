//! How a check of a pointer fails.

ghost use Rattle.std.specs.Prelude.{◌≡◌, Some};
ghost use Rattle.scudo_heap.specs.AbortNames.{abort_name};

use std::error::Error;
use std::fmt;

/// The first check that a pointer fails. A call that ends so has changed nothing.
#[derive(Clone, Copy, Debug, PartialEq, Eq)]
pub enum HeapAbort {
    /// Its plain address is not a multiple of 16.
    Misaligned,
    /// The granule before it is in no mapped page with WRITE.
    Unmapped,
    /// The checksum of its header differs.
    HeaderCorrupt,
    /// Its header's state says that it is not handed out.
    InvalidState,
    /// Its header names no block or mapping of the heap, or a size that this does not hold.
    NotABlock,
    /// Its block is free.
    AlreadyFree,
}

impl HeapAbort {
    /// Its name in a report.
    pub fn name(self) -> &'static str
        ensures { result.now ≡ abort_name self }
    {
        match self {
            HeapAbort::Misaligned => "Misaligned",
            HeapAbort::Unmapped => "Unmapped",
            HeapAbort::HeaderCorrupt => "HeaderCorrupt",
            HeapAbort::InvalidState => "InvalidState",
            HeapAbort::NotABlock => "NotABlock",
            HeapAbort::AlreadyFree => "AlreadyFree",
        }
    }
}

impl fmt::Display for HeapAbort {
    ghost output = { λ abort. Some (abort_name abort) };

    fn fmt<W: fmt::Write>(&self, f: &mut fmt::Formatter<W>) -> fmt::Result {
        f.write_str(self.name())
    }
}

impl Error for HeapAbort {}
