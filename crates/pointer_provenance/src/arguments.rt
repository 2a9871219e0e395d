//! Whether a function of C or C++ allows the arguments that it is called with.

ghost use Rattle.std.specs.Prelude.{◌≡◌};

use crate::shadow::Shadow;
use a64_bits::plain;
use a64_registers::Regs;
use mte_tags::Tagged;
use shadow_memory::CalledFunction;

/// What is wrong with the arguments of a call.
#[derive(Clone, Copy, Debug, PartialEq, Eq)]
pub enum ArgumentFaultKind {
    /// A size that is negative as a signed number.
    NegativeSize,
    /// A source and a destination that overlap, of a function that copies between others.
    Overlap,
}

/// Bytes that a function reads or writes.
#[derive(Clone, Copy, Debug, PartialEq, Eq)]
pub struct CopiedRange {
    /// The first plain address.
    pub start: u64,
    /// How many there are.
    pub bytes: u64,
}

impl CopiedRange {
    /// Whether it has a byte that another range has.
    fn overlaps(&self, other: &CopiedRange) -> bool {
        self.has(other.start) && other.bytes > 0 || other.has(self.start) && self.bytes > 0
    }

    /// Whether it has the byte at an address.
    fn has(&self, addr: u64) -> bool {
        addr >= self.start && addr - self.start < self.bytes
    }
}

/// Arguments that a function does not allow.
#[derive(Clone, Copy, Debug, PartialEq, Eq)]
pub struct ArgumentFault {
    /// What is wrong with them.
    pub kind: ArgumentFaultKind,
    /// The function.
    pub function: CalledFunction,
    /// The size that is negative, else 0.
    pub size: i64,
    /// What the function writes, if they overlap.
    pub written: CopiedRange,
    /// What it reads, if they overlap.
    pub read: CopiedRange,
}

/// How far apart strings may begin that overlap, where it is not known that they are in one chunk.
const NEAR_STRINGS: u64 = 64;

/// How many bytes of a string are read.
const LONGEST_STRING: u64 = 1 << 20;

impl ArgumentFault {
    /// The size of a call that is negative, by the registers at the call.
    pub fn of_size(function: CalledFunction, regs: &Regs) -> Option<ArgumentFault> {
        let nothing = CopiedRange { start: 0, bytes: 0 };
        Some(ArgumentFault {
            kind: ArgumentFaultKind::NegativeSize,
            function,
            size: function.negative_size(regs)?,
            written: nothing,
            read: nothing,
        })
    }

    /// The plain address that it is about; `None` where it is about no memory.
    pub fn place(&self) -> Option<u64> {
        match self.kind {
            ArgumentFaultKind::NegativeSize => None,
            ArgumentFaultKind::Overlap => Some(self.written.start),
        }
    }

    /// The ranges of a call, by the registers there; those of strings from their starts on, as long
    /// as they may be.
    fn of_ranges(function: CalledFunction, regs: &Regs) -> ArgumentFault {
        let bytes = if function.copies_string() {
            LONGEST_STRING
        } else {
            regs.x[2]
        };
        ArgumentFault {
            kind: ArgumentFaultKind::Overlap,
            function,
            size: 0,
            written: CopiedRange {
                start: plain(regs.x[0]),
                bytes,
            },
            read: CopiedRange {
                start: plain(regs.x[1]),
                bytes,
            },
        }
    }

    /// The same, where it holds by the lengths of the strings that are there; `bound` is how many
    /// bytes are asked for.
    pub fn confirmed<M: Tagged>(self, bound: u64, memory: &mut M) -> Option<ArgumentFault>
        ensures memory { M.memory memory.new ≡ M.memory memory.old }
        ensures kept { M.kept memory.old memory.new }
    {
        let is_bounded = matches!(
            self.function,
            CalledFunction::Strncpy | CalledFunction::Strncat
        );
        if self.kind == ArgumentFaultKind::NegativeSize || !self.function.copies_string() {
            return Some(self);
        }
        let most = if is_bounded {
            bound.min(LONGEST_STRING)
        } else {
            LONGEST_STRING
        };
        let source = length_of_string(memory, self.read.start, most)?;
        let before = if self.extends() {
            length_of_string(memory, self.written.start, LONGEST_STRING)?
        } else {
            0
        };
        self.with_lengths(source, before, bound)
    }

    /// Whether the function adds a string to another.
    fn extends(&self) -> bool {
        matches!(
            self.function,
            CalledFunction::Strcat | CalledFunction::Strncat
        )
    }

    /// The same with the lengths of the source, of which at most `bound` bytes are looked at, and
    /// of the string that it is added to; `None` where the ranges do not overlap.
    fn with_lengths(self, source: u64, before: u64, bound: u64) -> Option<ArgumentFault> {
        let whole = source.saturating_add(1);
        let (read, written) = match self.function {
            CalledFunction::Strncpy => (bound.min(whole), bound),
            CalledFunction::Strncat => (bound.min(whole), before.saturating_add(whole)),
            _ => (whole, before.saturating_add(whole)),
        };
        let fault = ArgumentFault {
            written: CopiedRange {
                bytes: written,
                ..self.written
            },
            read: CopiedRange {
                bytes: read,
                ..self.read
            },
            ..self
        };
        Some(fault).filter(|fault| fault.written.overlaps(&fault.read))
    }
}

impl Shadow {
    /// What is wrong with the arguments of a call, by the registers there. Of strings it says what
    /// may be wrong, whatever their lengths.
    pub fn judge_call(&self, function: CalledFunction, regs: &Regs) -> Option<ArgumentFault> {
        let negative = ArgumentFault::of_size(function, regs);
        if negative.is_some() || !function.forbids_overlap() {
            return negative;
        }
        let fault = ArgumentFault::of_ranges(function, regs);
        let is_wrong = if function.copies_string() {
            self.may_share_string(&fault)
        } else {
            fault.written.start != fault.read.start && fault.written.overlaps(&fault.read)
        };
        if is_wrong { Some(fault) } else { None }
    }

    /// Whether strings begin so near to one another, or in one chunk, that they may overlap.
    fn may_share_string(&self, fault: &ArgumentFault) -> bool {
        let distance = fault.written.start.abs_diff(fault.read.start);
        let chunk = self.pointer(0).chunk();
        distance <= NEAR_STRINGS || chunk.is_some() && chunk == self.pointer(1).chunk()
    }
}

/// The length of the string at a plain address, or `most` where none of as many bytes is its end;
/// `None` where a byte cannot be read.
fn length_of_string<M: Tagged>(memory: &mut M, start: u64, most: u64) -> Option<u64>
    ensures memory { M.memory memory.new ≡ M.memory memory.old }
    ensures kept { M.kept memory.old memory.new }
{
    for length in 0..most {
        match byte_at(memory, start.wrapping_add(length)) {
            Some(0) => return Some(length),
            Some(_) => {}
            None => return None,
        }
    }
    Some(most)
}

/// The byte at an address, whatever its tag.
fn byte_at<M: Tagged>(memory: &mut M, addr: u64) -> Option<u8>
    ensures memory { M.memory memory.new ≡ M.memory memory.old }
    ensures kept { M.kept memory.old memory.new }
{
    let mut bytes = [0; 1];
    if memory.read(addr, &mut bytes, false).is_ok() {
        Some(bytes[0])
    } else {
        None
    }
}
