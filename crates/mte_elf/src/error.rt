//! Why an image is refused.

ghost use Rattle.std.specs.Prelude.{◌≡◌, Some};
ghost use Rattle.mte_elf.specs.ErrorNames.{image_name};

use std::error::Error;
use std::fmt;

/// The refusals of an image, in the order in which they are tested over the whole file.
#[derive(Clone, Copy, Debug, PartialEq, Eq)]
pub enum ElfError {
    /// The file has less than the 64 bytes of a file header.
    Short,
    /// The identification isn't that of a little-endian ELF64 file of version 1.
    NotElf64,
    /// `e_machine` isn't EM_AARCH64 (183).
    NotAarch64,
    /// `e_type` isn't ET_EXEC (2).
    NotExec,
    /// `e_phentsize` isn't 56, `e_phnum` isn't 1 to 64, or the table of program headers passes the
    /// file's end.
    BadHeaders,
    /// A program header is PT_INTERP (3).
    Interpreter,
    /// A segment's file size exceeds its memory size, its bytes pass the file's end, or its
    /// addresses are not in 0x1000 to 0x10000000.
    SegmentRange,
    /// Two segments touch one page of 4096 bytes.
    Overlap,
    /// `e_entry` is in no executable segment.
    NoEntry,
}

impl ElfError {
    /// Its name in a report.
    pub fn name(self) -> &'static str
        ensures { result.now ≡ image_name self }
    {
        match self {
            ElfError::Short => "Short",
            ElfError::NotElf64 => "NotElf64",
            ElfError::NotAarch64 => "NotAarch64",
            ElfError::NotExec => "NotExec",
            ElfError::BadHeaders => "BadHeaders",
            ElfError::Interpreter => "Interpreter",
            ElfError::SegmentRange => "SegmentRange",
            ElfError::Overlap => "Overlap",
            ElfError::NoEntry => "NoEntry",
        }
    }
}

impl fmt::Display for ElfError {
    ghost output = { λ error. Some (image_name error) };

    fn fmt<W: fmt::Write>(&self, f: &mut fmt::Formatter<W>) -> fmt::Result {
        f.write_str(self.name())
    }
}

impl Error for ElfError {}
