//! The most likely cause of an end, in the manner of the reports of Android's memory tagging.

use crate::argument_text::ArgumentText;
use crate::cause_words::CauseKind;
use crate::evidence::{Evidence, NEAR};
use crate::exact::ForbiddenAccess;
use crate::violation::Violation;
use a64_bits::plain;
use common::{IMAGE_START, PAGE_SIZE, STACK_END, STACK_START};
use heap_bounds::{Block, Trespass};
use mte_svc::{FREE, Record, Status};
use mte_tags::{FaultKind, MemFault, tag_of};
use named_places::{PlaceKind, PlaceMisuse, PlaceMisuseKind, PlaceText};
use pointer_provenance::{
    ArgumentFault, ArgumentFaultKind, ChunkSource, Misuse, MisuseKind, TracedChunk,
};
use run_records::{Book, BookChunk, BookEntry, Bytes, ChunkQuery};
use scudo_heap::HeapCall;
use shadow_memory::{FreeingFunction, HeapFunction};
use std::fmt;
use undefined_bits::{ArithmeticFault, ArithmeticKind};
use undefined_values::{UndefinedOrigin, UndefinedPlace};

/// Up to which step a program for Linux has looked for its arguments.
const FIRST: u64 = 100;

/// The most likely cause.
#[derive(Clone, Copy)]
pub struct Cause {
    /// Its kind.
    pub kind: CauseKind,
    /// How many bytes are between what was named and what it belongs to, where that is written.
    distance: Option<u64>,
    /// The chunk that it names.
    pub chunk: Option<BookChunk>,
    /// The chunk that its block was given to again.
    pub young: Option<BookChunk>,
    /// The variable that it names.
    pub place: Option<PlaceText>,
    detail: CauseDetail,
}

/// The details of a cause.
#[derive(Clone, Copy)]
enum CauseDetail {
    Nothing,
    /// The pointer to an older chunk of its block by which the chunk was freed.
    Pointer(u64),
    /// The functions that made and freed the chunk.
    Functions(HeapFunction, FreeingFunction),
    /// The address of the instruction that moved SP to the place on the stack.
    Frame(u64),
    /// A chunk that the program made of its own memory.
    OwnChunk(TracedChunk),
    /// The same, by the address of the instruction that said so.
    OwnPart(u64),
    /// The operation whose operands give it no result.
    Operation(ArithmeticFault),
    /// The arguments that a function does not allow.
    Argument(ArgumentFault),
}

impl Cause {
    /// One that names nothing.
    fn of_kind(kind: CauseKind) -> Cause {
        Cause {
            kind,
            distance: None,
            chunk: None,
            young: None,
            place: None,
            detail: CauseDetail::Nothing,
        }
    }

    /// One at a distance.
    fn at(kind: CauseKind, distance: u64) -> Cause {
        Cause {
            distance: Some(distance),
            ..Cause::of_kind(kind)
        }
    }

    /// One that names a chunk.
    fn of_chunk(kind: CauseKind, chunk: BookChunk) -> Cause {
        Cause {
            chunk: Some(chunk),
            ..Cause::of_kind(kind)
        }
    }

    /// One at a distance from a chunk, or some bytes into it.
    fn near(kind: CauseKind, chunk: BookChunk, distance: u64) -> Cause {
        Cause {
            distance: Some(distance),
            ..Cause::of_chunk(kind, chunk)
        }
    }

    /// The cause of how a record says that its tenant ended.
    pub fn of(evidence: &Evidence<'_>, log: &Record) -> Cause {
        let kind = match &log.status {
            Status::Faulted(fault, pc) if fault.addr == plain(*pc) => CauseKind::WildJump,
            Status::Faulted(fault, _) => match fault.kind {
                FaultKind::Translation | FaultKind::TagCheck => {
                    return Cause::of_access(evidence, fault, log.steps);
                }
                FaultKind::Permission if fault.write => CauseKind::ReadOnly,
                _ => CauseKind::Unknown,
            },
            Status::Aborted(_, pointer, _) => {
                return Cause::of_pointer(evidence.book, *pointer, evidence.regs.x[8]);
            }
            _ => CauseKind::Unknown,
        };
        Cause::of_kind(kind)
    }

    /// The cause of an access that failed at a step.
    fn of_access(evidence: &Evidence<'_>, fault: &MemFault, step: u64) -> Cause {
        let (addr, tag) = (fault.addr, fault.ptr_tag);
        if addr < IMAGE_START {
            return Cause::of_kind(CauseKind::NullPointer);
        }
        if let Some(chunk) = evidence.book.newest(&ChunkQuery::Tagged(addr, tag)) {
            return Cause::of_own(evidence.book, addr, chunk);
        }
        if let Some(distance) = evidence.below_stack(addr) {
            return Cause::at(CauseKind::StackOverflow, distance);
        }
        if let Some(chunk) = evidence.meant(addr, tag) {
            return Cause::of_neighbour(addr, chunk);
        }
        if let Some(cause) = Cause::of_stack(fault, step) {
            return cause;
        }
        match evidence.book.newest(&ChunkQuery::Holding(addr)) {
            Some(chunk) => Cause::of_chunk(CauseKind::ForeignPointer, chunk),
            None => Cause::of_kind(CauseKind::Unknown),
        }
    }

    /// The cause of an access that a chunk's bounds forbid.
    pub fn of_wrong(book: &Book, wrong: &ForbiddenAccess) -> Cause {
        match &wrong.violation {
            Violation::Bounds(trespass) => Cause::of_trespass(book, wrong.addr, *trespass),
            Violation::Provenance(misuse) => Cause::of_misuse(book, misuse),
            Violation::Undefined(used) => Cause::of_undefined(book, used.origin),
            Violation::Place(misuse) => Cause::of_place(misuse),
            Violation::Arithmetic(fault) => Cause::of_operation(fault),
            Violation::Argument(fault) => Cause::of_argument(fault),
        }
    }

    /// The cause of arguments that a function does not allow.
    fn of_argument(fault: &ArgumentFault) -> Cause {
        let kind = match fault.kind {
            ArgumentFaultKind::NegativeSize => CauseKind::NegativeSize,
            ArgumentFaultKind::Overlap => CauseKind::OverlappingRanges,
        };
        Cause {
            detail: CauseDetail::Argument(*fault),
            ..Cause::of_kind(kind)
        }
    }

    /// The cause of a use of a pointer to a variable that the variable does not allow.
    fn of_place(misuse: &PlaceMisuse) -> Cause {
        let PlaceMisuse { addr, place, .. } = *misuse;
        let is_global = place.kind == PlaceKind::Object;
        let kind = match misuse.kind {
            PlaceMisuseKind::Overflow if is_global => CauseKind::GlobalOverflow,
            PlaceMisuseKind::Overflow => CauseKind::LocalOverflow,
            PlaceMisuseKind::Underflow if is_global => CauseKind::GlobalUnderflow,
            PlaceMisuseKind::Underflow => CauseKind::LocalUnderflow,
            PlaceMisuseKind::AfterReturn => CauseKind::AfterReturn,
            PlaceMisuseKind::AfterScope => CauseKind::AfterScope,
            PlaceMisuseKind::Free => CauseKind::PlaceFreed,
        };
        let distance = match misuse.kind {
            PlaceMisuseKind::Overflow => Some(addr.saturating_sub(place.end)),
            PlaceMisuseKind::Underflow => Some(place.start.saturating_sub(addr)),
            _ => None,
        };
        Cause {
            place: Some(place),
            distance,
            ..Cause::of_kind(kind)
        }
    }

    /// The cause of an operation whose operands give it no result.
    fn of_operation(fault: &ArithmeticFault) -> Cause {
        let kind = match fault.kind {
            ArithmeticKind::Division => CauseKind::Division,
            ArithmeticKind::Shift => CauseKind::Shift,
        };
        Cause {
            detail: CauseDetail::Operation(*fault),
            ..Cause::of_kind(kind)
        }
    }

    /// The cause of a use of bits that were never given a value, by what they are a part of.
    fn of_undefined(book: &Book, origin: UndefinedOrigin) -> Cause {
        let detail = match origin.place() {
            UndefinedPlace::Chunk(number) => match numbered(book, number) {
                Some(chunk) => return Cause::of_chunk(CauseKind::UndefinedChunk, chunk),
                None => CauseDetail::Nothing,
            },
            UndefinedPlace::Frame(pc) => CauseDetail::Frame(pc),
            UndefinedPlace::OwnChunk(pc) => {
                return Cause {
                    detail: CauseDetail::OwnPart(pc),
                    ..Cause::of_kind(CauseKind::UndefinedOwnChunk)
                };
            }
            UndefinedPlace::Unknown => CauseDetail::Nothing,
        };
        Cause {
            detail,
            ..Cause::of_kind(CauseKind::UndefinedFrame)
        }
    }

    /// The cause of a use of a pointer that the pointer's own chunk does not allow.
    fn of_misuse(book: &Book, misuse: &Misuse) -> Cause {
        let Some(traced) = misuse.chunk else {
            return Cause::of_kind(CauseKind::NoChunkThere);
        };
        let Some(number) = traced.call() else {
            return Cause::of_own_chunk(misuse, traced);
        };
        let Some(chunk) = numbered(book, number) else {
            return Cause::of_kind(CauseKind::NoChunkThere);
        };
        match misuse.kind {
            MisuseKind::AfterFree => Cause::of_freed(book, misuse.addr, chunk),
            MisuseKind::Overflow
            | MisuseKind::Underflow
            | MisuseKind::NoChunk
            | MisuseKind::Forbidden => { Cause::of_neighbour(misuse.addr, chunk) }
            MisuseKind::DoubleFree => Cause::of_chunk(CauseKind::DoubleFree, chunk),
            MisuseKind::InnerFree => {
                let offset = misuse.addr.saturating_sub(chunk.start());
                Cause::near(CauseKind::InsideChunk, chunk, offset)
            }
            MisuseKind::MismatchedFree => {
                Cause::of_mismatch(CauseKind::MismatchedFree, misuse, chunk)
            }
            MisuseKind::MismatchedSize => {
                Cause::of_mismatch(CauseKind::MismatchedSize, misuse, chunk)
            }
        }
    }

    /// The cause of a use of a pointer to a chunk that the program made, or of bytes that it
    /// forbids.
    fn of_own_chunk(misuse: &Misuse, chunk: TracedChunk) -> Cause {
        let (addr, start) = (misuse.addr, chunk.start());
        let (kind, distance) = match misuse.kind {
            MisuseKind::Overflow => (CauseKind::Overflow, addr.saturating_sub(chunk.end())),
            MisuseKind::Underflow => (CauseKind::Underflow, start.saturating_sub(addr)),
            MisuseKind::Forbidden => (CauseKind::ForbiddenBytes, addr.saturating_sub(start)),
            _ => (CauseKind::UseAfterFree, addr.saturating_sub(start)),
        };
        Cause {
            detail: CauseDetail::OwnChunk(chunk),
            ..Cause::at(kind, distance)
        }
    }

    /// The cause of a free of a chunk by a function that is not for such chunks, or not for one of
    /// its size.
    fn of_mismatch(kind: CauseKind, misuse: &Misuse, chunk: BookChunk) -> Cause {
        let maker = misuse.chunk.and_then(|chunk| chunk.maker);
        match (maker, misuse.function) {
            (Some(maker), Some(freer)) => Cause {
                detail: CauseDetail::Functions(maker, freer),
                ..Cause::of_chunk(kind, chunk)
            },
            _ => Cause::of_kind(CauseKind::Unknown),
        }
    }

    /// The cause of an access to an address of the heap that no live chunk has.
    fn of_trespass(book: &Book, addr: u64, trespass: Trespass) -> Cause {
        let wanted = match trespass {
            Trespass::PastSize | Trespass::Freed => ChunkQuery::InGranules(addr),
            Trespass::NoChunk => match Block::of(addr) {
                Some(block) => ChunkQuery::InBlock(block.start),
                None => return Cause::of_kind(CauseKind::NoChunkThere),
            },
        };
        match book.newest(&wanted) {
            Some(chunk) if trespass == Trespass::Freed => {
                let offset = addr.saturating_sub(chunk.start());
                Cause::near(CauseKind::UseAfterFree, chunk, offset)
            }
            Some(chunk) => Cause::of_neighbour(addr, chunk),
            None => Cause::of_kind(CauseKind::NoChunkThere),
        }
    }

    /// The cause of an access to the stack, below it or above.
    fn of_stack(fault: &MemFault, step: u64) -> Option<Cause> {
        let addr = fault.addr;
        if addr < STACK_START && STACK_START - addr <= NEAR {
            Some(Cause::at(CauseKind::StackOverflow, STACK_START - addr))
        } else if addr >= STACK_START && addr < STACK_END {
            Some(Cause::of_kind(CauseKind::StackObject))
        } else if addr >= STACK_END && addr - STACK_END < PAGE_SIZE {
            Some(if step <= FIRST && !fault.write {
                Cause::of_kind(CauseKind::AboveStack)
            } else {
                Cause::at(CauseKind::PastStack, addr - STACK_END)
            })
        } else {
            None
        }
    }

    /// The cause of an access to a chunk whose pointer had the tag.
    fn of_own(book: &Book, addr: u64, chunk: BookChunk) -> Cause {
        if chunk.freed.is_none() {
            return Cause::of_chunk(CauseKind::TagsChanged, chunk);
        }
        match stale_pointer(&chunk) {
            Some(pointer) => Cause {
                detail: CauseDetail::Pointer(pointer),
                ..Cause::near(
                    CauseKind::StaleFree,
                    chunk,
                    addr.saturating_sub(chunk.start()),
                )
            },
            None => Cause::of_freed(book, addr, chunk),
        }
    }

    /// The cause of an access to a chunk that was freed.
    fn of_freed(book: &Book, addr: u64, chunk: BookChunk) -> Cause {
        let young = book
            .newest(&ChunkQuery::Holding(addr))
            .filter(|young| young.freed.is_none());
        let kind = if young.is_some() {
            CauseKind::StalePointer
        } else {
            CauseKind::UseAfterFree
        };
        Cause {
            young,
            ..Cause::near(kind, chunk, addr.saturating_sub(chunk.start()))
        }
    }

    /// The cause of an access beside a chunk whose pointer had the tag.
    fn of_neighbour(addr: u64, chunk: BookChunk) -> Cause {
        let start = chunk.start();
        if addr < start {
            Cause::near(CauseKind::Underflow, chunk, start - addr)
        } else {
            Cause::near(CauseKind::Overflow, chunk, addr.saturating_sub(chunk.end()))
        }
    }

    /// The cause of a check of a pointer that failed.
    fn of_pointer(book: &Book, pointer: u64, service: u64) -> Cause {
        let start = plain(pointer);
        if let Some(chunk) = book.newest(&ChunkQuery::At(start)) {
            let kind = match chunk.freed {
                None => CauseKind::HeaderOverwritten,
                Some(_) if service == FREE => CauseKind::DoubleFree,
                Some(_) => CauseKind::FreedPointer,
            };
            return Cause::of_chunk(kind, chunk);
        }
        match book.newest(&ChunkQuery::InGranules(start)) {
            Some(chunk) => {
                let offset = start.saturating_sub(chunk.start());
                Cause::near(CauseKind::InsideChunk, chunk, offset)
            }
            None => Cause::of_kind(CauseKind::NoChunk),
        }
    }

    /// The address of the instruction that made what it names, and what it did: it moved SP to a
    /// place on the stack, or said something of the program's own memory.
    pub fn instruction(&self) -> Option<(u64, &'static str)> {
        match self.detail {
            CauseDetail::Frame(pc) => Some((pc, "SP was moved there by")),
            CauseDetail::OwnPart(pc) => Some((pc, MADE)),
            CauseDetail::OwnChunk(chunk) => match chunk.source {
                ChunkSource::Program(pc) => Some((pc, MADE)),
                ChunkSource::Forbidden(pc) => Some((pc, "forbidden with CHECK_NO_ACCESS by")),
                ChunkSource::Call(_) => None,
            },
            _ => None,
        }
    }

    /// The calls that made and freed the chunks that it names, in the order in which they are told.
    pub fn calls(&self) -> [Option<&BookEntry>; 4] {
        let (chunk, young) = (self.chunk.as_ref(), self.young.as_ref());
        [
            made_of(chunk),
            freed_of(chunk),
            made_of(young),
            freed_of(young),
        ]
    }

    /// The name of its kind, for other programs.
    pub fn rule(&self) -> &'static str {
        self.kind.words().rule
    }
}

/// What the program does where it makes a chunk.
const MADE: &str = "made with CHECK_CHUNK by";

/// The chunk that the heap call with a number returned, with the call that freed it, where they are
/// kept.
fn numbered(book: &Book, number: u64) -> Option<BookChunk> {
    let oldest = book.entries().front()?.number;
    let index = usize::try_from(number.checked_sub(oldest)?).ok()?;
    let chunk = book.entries().get(index)?.made()?;
    for entry in book.entries().iter() {
        if entry.number > number && entry.ended() == Some(chunk.start()) {
            return Some(BookChunk {
                freed: Some(*entry),
                ..chunk
            });
        }
    }
    Some(chunk)
}

/// The pointer that a chunk was freed by, where it has another tag than the chunk's own: it is one
/// to an older chunk of the block.
fn stale_pointer(chunk: &BookChunk) -> Option<u64> {
    let pointer = match freed_of(Some(chunk))?.call.call {
        HeapCall::Free { pointer } | HeapCall::Realloc { pointer, .. } => pointer,
        _ => return None,
    };
    if tag_of(pointer) == chunk.tag() {
        None
    } else {
        Some(pointer)
    }
}

/// The call that made a chunk.
fn made_of(chunk: Option<&BookChunk>) -> Option<&BookEntry> {
    Some(&chunk?.made)
}

/// The call that freed a chunk.
fn freed_of(chunk: Option<&BookChunk>) -> Option<&BookEntry> {
    chunk?.freed.as_ref()
}

/// A cause: what it is called, how far the address lies from the chunk, and the chunk.
impl fmt::Display for Cause {
    fn fmt<W: fmt::Write>(&self, f: &mut fmt::Formatter<W>) -> fmt::Result {
        let words = self.kind.words();
        f.write_str(words.name)?;
        if let Some(distance) = self.distance {
            write!(f, ", {}", Bytes(distance))?;
        }
        f.write_str(words.joint)?;
        if let Some(chunk) = &self.chunk {
            chunk.fmt(f)?;
        }
        if let Some(place) = &self.place {
            place.fmt(f)?;
        }
        match self.detail {
            CauseDetail::Operation(fault) => fault.fmt(f),
            CauseDetail::Pointer(pointer) => write!(f, ", freed by {pointer:#018x}"),
            CauseDetail::Functions(maker, freer) => {
                let (maker, name) = (maker.name(), freer.function.name());
                write!(f, ", made by {maker} and freed by {name}")?;
                match freer.size {
                    Some(size) => write!(f, " as one of {}", Bytes(size)),
                    None => Ok(()),
                }
            }
            CauseDetail::Argument(fault) => ArgumentText(fault).fmt(f),
            CauseDetail::OwnChunk(chunk) => {
                let TracedChunk { size, pointer, .. } = chunk;
                write!(
                    f,
                    "{size}-byte chunk of the program's own at {pointer:#018x}"
                )
            }
            CauseDetail::Frame(_) | CauseDetail::OwnPart(_) | CauseDetail::Nothing => Ok(()),
        }
    }
}

/// A cause, after what found it: a tag, a chunk's bounds, a pointer's own chunk or neither.
#[derive(Clone, Copy)]
pub struct FoundCause<'a> {
    /// The cause.
    pub cause: &'a Cause,
    /// The access that a chunk's bounds forbid, where one did.
    pub wrong: Option<&'a ForbiddenAccess>,
}

impl<'a> fmt::Display for FoundCause<'a> {
    fn fmt<W: fmt::Write>(&self, f: &mut fmt::Formatter<W>) -> fmt::Result {
        let FoundCause { cause, wrong } = *self;
        match wrong {
            Some(wrong) => {
                let finder = wrong.violation.finder();
                write!(f, "[{finder}]: {cause}")
            }
            None => {
                let finder = cause.kind.words().finder;
                write!(f, "{finder}{cause}")
            }
        }
    }
}
