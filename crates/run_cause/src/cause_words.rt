// Written by tools/causes.py from tools/causes.toml. Do not edit.
//! The words for causes, findings and ends.

use mte_svc::Status;
use mte_tags::FaultKind;
use run_terms::CheckKind;
use scudo_heap::HeapAbort;

/// The kinds of causes.
#[derive(Clone, Copy)]
pub enum CauseKind {
    /// An access to a chunk that was freed.
    UseAfterFree,
    /// The same, and its block was given again, as another chunk.
    StalePointer,
    /// A chunk that was freed is handed to the heap.
    FreedPointer,
    /// A chunk that was freed is freed again.
    DoubleFree,
    /// An access to a chunk that was freed by a pointer to an older chunk of its block.
    StaleFree,
    /// An access after a chunk.
    Overflow,
    /// An access before a chunk.
    Underflow,
    /// An access to a live chunk by its pointer, but its tags were changed.
    TagsChanged,
    /// An access to a chunk by a pointer whose tag no chunk there had.
    ForeignPointer,
    /// An access near address 0.
    NullPointer,
    /// An access below the stack.
    StackOverflow,
    /// An access to the stack by a pointer with the tag of another object.
    StackObject,
    /// An access above the stack.
    PastStack,
    /// An access after a variable of a function, or after a frame.
    LocalOverflow,
    /// An access before a variable of a function, or before a frame.
    LocalUnderflow,
    /// An access after a variable of the image.
    GlobalOverflow,
    /// An access before a variable of the image.
    GlobalUnderflow,
    /// An access to a variable of a function that has returned.
    AfterReturn,
    /// An access to a variable of a block that has ended, in a function that runs.
    AfterScope,
    /// A live chunk that one function made is freed by another, which is not for such chunks.
    MismatchedFree,
    /// A live chunk is freed by an operator of C++ that is told another size.
    MismatchedSize,
    /// Something depends on bits of a chunk that were never given a value.
    UndefinedChunk,
    /// The same of a place on the stack.
    UndefinedFrame,
    /// The same of a chunk that the program made of its own memory.
    UndefinedOwnChunk,
    /// An access to bytes that the program forbids.
    ForbiddenBytes,
    /// A live chunk whose header was overwritten.
    HeaderOverwritten,
    /// A pointer into a chunk is handed to the heap.
    InsideChunk,
    /// A pointer that no call returned is handed to the heap.
    NoChunk,
    /// A pointer to a variable is handed to the heap.
    PlaceFreed,
    /// An access to bytes of the heap that no chunk has.
    NoChunkThere,
    /// A read just above the stack by one of the first instructions, where a program for Linux
    /// looks for its arguments.
    AboveStack,
    /// A write to memory of the image that may only be read or run.
    ReadOnly,
    /// A jump to an address that is no code.
    WildJump,
    /// A division by 0.
    Division,
    /// A shift by as many bits as there are, or more.
    Shift,
    /// A function is called with a negative size.
    NegativeSize,
    /// A function copies between ranges that overlap, which it does not allow.
    OverlappingRanges,
    /// Nothing that the heap calls show.
    Unknown,
}

/// The words for a cause.
#[derive(Clone, Copy)]
pub(crate) struct CauseWords {
    /// The text before its name: `[MTE]: ` where a tag found it.
    pub finder: &'static str,
    /// Its name.
    pub name: &'static str,
    /// The text between its name, or the distance, and what it belongs to.
    pub joint: &'static str,
    /// The name of its kind, for other programs.
    pub rule: &'static str,
}

/// All causes.
#[rattlefmt::skip]
static CAUSES: [CauseWords; 38] = [
    CauseWords { finder: "[MTE]: ", name: "Use After Free", joint: " into a ", rule: "use-after-free" },
    CauseWords { finder: "[MTE]: ", name: "Use After Free by a stale pointer", joint: " into a ", rule: "use-after-free" },
    CauseWords { finder: "", name: "Use After Free", joint: " of a ", rule: "use-after-free" },
    CauseWords { finder: "", name: "Double Free", joint: " of a ", rule: "double-free" },
    CauseWords { finder: "[MTE]: ", name: "Double Free by a stale pointer, met by an access", joint: " into a ", rule: "double-free" },
    CauseWords { finder: "[MTE]: ", name: "Buffer Overflow", joint: " right of a ", rule: "heap-buffer-overflow" },
    CauseWords { finder: "[MTE]: ", name: "Buffer Underflow", joint: " left of a ", rule: "heap-buffer-underflow" },
    CauseWords { finder: "", name: "the tags were changed", joint: " of a ", rule: "tag-mismatch" },
    CauseWords { finder: "[MTE]: ", name: "a pointer of another tag", joint: " into a ", rule: "tag-mismatch" },
    CauseWords { finder: "", name: "Null Pointer", joint: "", rule: "null-pointer" },
    CauseWords { finder: "", name: "Stack Overflow", joint: " below the stack", rule: "stack-overflow" },
    CauseWords { finder: "[MTE]: ", name: "Buffer Overflow of an object on the stack, or Use After Return", joint: "", rule: "stack-buffer-overflow" },
    CauseWords { finder: "", name: "Buffer Overflow of an object on the stack", joint: " above the stack", rule: "stack-buffer-overflow" },
    CauseWords { finder: "", name: "Buffer Overflow", joint: " right of ", rule: "stack-buffer-overflow" },
    CauseWords { finder: "", name: "Buffer Underflow", joint: " left of ", rule: "stack-buffer-underflow" },
    CauseWords { finder: "", name: "Buffer Overflow", joint: " right of ", rule: "global-buffer-overflow" },
    CauseWords { finder: "", name: "Buffer Underflow", joint: " left of ", rule: "global-buffer-underflow" },
    CauseWords { finder: "", name: "Use After Return", joint: " of ", rule: "use-after-return" },
    CauseWords { finder: "", name: "Use After Scope", joint: " of ", rule: "use-after-scope" },
    CauseWords { finder: "", name: "Mismatched Free", joint: " of a ", rule: "mismatched-free" },
    CauseWords { finder: "", name: "Mismatched Size", joint: " of a ", rule: "new-delete-type-mismatch" },
    CauseWords { finder: "", name: "Uninitialized Value", joint: " of a ", rule: "uninitialized-value" },
    CauseWords { finder: "", name: "Uninitialized Value of the stack", joint: "", rule: "uninitialized-value" },
    CauseWords { finder: "", name: "Uninitialized Value of a chunk of the program's own", joint: "", rule: "uninitialized-value" },
    CauseWords { finder: "", name: "Forbidden Access", joint: " into a ", rule: "forbidden-access" },
    CauseWords { finder: "", name: "Corrupt Header: something was written in front", joint: " of a ", rule: "corrupt-header" },
    CauseWords { finder: "", name: "Invalid Pointer", joint: " into a ", rule: "invalid-pointer" },
    CauseWords { finder: "", name: "Invalid Pointer, which no heap call returned", joint: "", rule: "invalid-pointer" },
    CauseWords { finder: "", name: "Invalid Pointer, which no heap call returned", joint: ": it is one to ", rule: "invalid-pointer" },
    CauseWords { finder: "", name: "Invalid Access, to bytes of no chunk", joint: "", rule: "invalid-access" },
    CauseWords { finder: "", name: "an access above the stack, where a program for Linux finds its arguments: a tenant has none (docs/TENANTS.md)", joint: "", rule: "arguments-of-linux" },
    CauseWords { finder: "", name: "Read-only Memory: code or constants of the image are written", joint: "", rule: "read-only-memory" },
    CauseWords { finder: "", name: "Wild Jump: the address is no code", joint: "", rule: "wild-jump" },
    CauseWords { finder: "", name: "Undefined Arithmetic", joint: ": ", rule: "division-by-zero" },
    CauseWords { finder: "", name: "Undefined Arithmetic", joint: ": ", rule: "shift-past-width" },
    CauseWords { finder: "", name: "Negative Size", joint: ": ", rule: "negative-size-param" },
    CauseWords { finder: "", name: "Overlapping Ranges", joint: ": ", rule: "param-overlap" },
    CauseWords { finder: "", name: "unknown", joint: "", rule: "fault" },
];

impl CauseKind {
    /// Its name.
    pub(crate) fn words(self) -> &'static CauseWords {
        &CAUSES[self as usize]
    }
}

/// The words for a finding.
#[derive(Clone, Copy)]
pub(crate) struct FindingWords {
    /// The name of what found it, which is that of the option.
    pub finder: &'static str,
    /// Its name, for other programs.
    pub key: &'static str,
    /// The kind of what is checked that it is of.
    pub kind: CheckKind,
    /// The misuse.
    pub words: &'static str,
    /// The misuse where it is not known where the pointer came from.
    pub by_address: &'static str,
}

/// The findings by `Trespass`.
#[rattlefmt::skip]
pub(crate) static TRESPASSES: [FindingWords; 3] = [
    FindingWords { finder: "exact", key: "PastSize", kind: CheckKind::Provenance, words: "is past the size of its chunk", by_address: "is past the size of its chunk" },
    FindingWords { finder: "exact", key: "Freed", kind: CheckKind::Provenance, words: "is of a chunk that was freed", by_address: "is of a chunk that was freed" },
    FindingWords { finder: "exact", key: "NoChunk", kind: CheckKind::Provenance, words: "is of no chunk", by_address: "is of no chunk" },
];

/// The findings by `MisuseKind`.
#[rattlefmt::skip]
pub(crate) static MISUSES: [FindingWords; 9] = [
    FindingWords { finder: "check", key: "AfterFree", kind: CheckKind::Provenance, words: "is no longer of the pointer's chunk, which was freed", by_address: "is of a chunk that was freed (by the address: where the pointer came from is not known)" },
    FindingWords { finder: "check", key: "Overflow", kind: CheckKind::Provenance, words: "is past the end of the pointer's chunk", by_address: "is past the size of the chunk there (by the address: where the pointer came from is not known)" },
    FindingWords { finder: "check", key: "Underflow", kind: CheckKind::Provenance, words: "is in front of the pointer's chunk", by_address: "is past the size of the chunk there (by the address: where the pointer came from is not known)" },
    FindingWords { finder: "check", key: "NoChunk", kind: CheckKind::Provenance, words: "is of no chunk (by the address: where the pointer came from is not known)", by_address: "is of no chunk (by the address: where the pointer came from is not known)" },
    FindingWords { finder: "check", key: "DoubleFree", kind: CheckKind::Frees, words: "the pointer's chunk was freed before", by_address: "the pointer's chunk was freed before" },
    FindingWords { finder: "check", key: "InnerFree", kind: CheckKind::Frees, words: "it points into its chunk, not to the start", by_address: "it points into its chunk, not to the start" },
    FindingWords { finder: "check", key: "MismatchedFree", kind: CheckKind::Frees, words: "the pointer's chunk is not for this function to free", by_address: "the pointer's chunk is not for this function to free" },
    FindingWords { finder: "check", key: "MismatchedSize", kind: CheckKind::Frees, words: "the pointer's chunk has another size", by_address: "the pointer's chunk has another size" },
    FindingWords { finder: "check", key: "Forbidden", kind: CheckKind::Provenance, words: "is of bytes that the program forbids", by_address: "is of bytes that the program forbids" },
];

/// The findings by `UseKind`.
#[rattlefmt::skip]
pub(crate) static USES: [FindingWords; 6] = [
    FindingWords { finder: "check", key: "UndefinedBranch", kind: CheckKind::Undefined, words: "whether it branches", by_address: "whether it branches" },
    FindingWords { finder: "check", key: "UndefinedAddress", kind: CheckKind::Undefined, words: "the address that it accesses", by_address: "the address that it accesses" },
    FindingWords { finder: "check", key: "UndefinedJump", kind: CheckKind::Undefined, words: "where it jumps to", by_address: "where it jumps to" },
    FindingWords { finder: "check", key: "UndefinedOutput", kind: CheckKind::Undefined, words: "what it writes out", by_address: "what it writes out" },
    FindingWords { finder: "check", key: "UndefinedArgument", kind: CheckKind::Undefined, words: "an argument of the service", by_address: "an argument of the service" },
    FindingWords { finder: "check", key: "UndefinedExitStatus", kind: CheckKind::Undefined, words: "the exit status", by_address: "the exit status" },
];

/// The findings by `PlaceMisuseKind`.
#[rattlefmt::skip]
pub(crate) static PLACE_MISUSES: [FindingWords; 5] = [
    FindingWords { finder: "check", key: "PlaceOverflow", kind: CheckKind::Places, words: "is past the end of the pointer's variable", by_address: "is past the end of the pointer's variable" },
    FindingWords { finder: "check", key: "PlaceUnderflow", kind: CheckKind::Places, words: "is in front of the pointer's variable", by_address: "is in front of the pointer's variable" },
    FindingWords { finder: "check", key: "PlaceAfterReturn", kind: CheckKind::Places, words: "was of a function that has returned", by_address: "was of a function that has returned" },
    FindingWords { finder: "check", key: "PlaceAfterScope", kind: CheckKind::Places, words: "was of a block that has ended", by_address: "was of a block that has ended" },
    FindingWords { finder: "check", key: "PlaceFree", kind: CheckKind::Frees, words: "it points to a variable", by_address: "it points to a variable" },
];

/// The findings by `ArithmeticKind`.
#[rattlefmt::skip]
pub(crate) static OPERATIONS: [FindingWords; 2] = [
    FindingWords { finder: "check", key: "Division", kind: CheckKind::Arithmetic, words: "divides by 0", by_address: "divides by 0" },
    FindingWords { finder: "check", key: "Shift", kind: CheckKind::Arithmetic, words: "shifts by as many bits as there are, or more", by_address: "shifts by as many bits as there are, or more" },
];

/// The findings by `ArgumentFaultKind`.
#[rattlefmt::skip]
pub(crate) static ARGUMENTS: [FindingWords; 2] = [
    FindingWords { finder: "check", key: "NegativeSize", kind: CheckKind::Arguments, words: "calls a function with a negative size", by_address: "calls a function with a negative size" },
    FindingWords { finder: "check", key: "Overlap", kind: CheckKind::Arguments, words: "copies between ranges that overlap", by_address: "copies between ranges that overlap" },
];

/// The words for an end that is not judged.
#[derive(Clone, Copy)]
pub struct EndWords {
    /// The name of its kind, for other programs.
    pub rule: &'static str,
    /// The event.
    pub text: &'static str,
}

/// The words for a tenant with a status, where that is not judged.
#[rattlefmt::skip]
pub fn end_words(status: &Status) -> EndWords {
    match status {
        Status::AsyncTag(_) => EndWords { rule: "tag-mismatch", text: "an access had another tag than its memory" },
        Status::Illegal(_, _) => EndWords { rule: "illegal-word", text: "a word that is no instruction of the table" },
        Status::Breakpoint(_, _) => EndWords { rule: "breakpoint", text: "a breakpoint" },
        _ => EndWords { rule: "not-ended", text: "the tenant did not end within its steps" },
    }
}

/// The texts of `FaultKind`.
#[rattlefmt::skip]
static FAULTS: [&str; 6] = [
    "no page is mapped there",
    "the page does not allow it",
    "the pointer's tag is not the memory's",
    "a tag is stored at an address that is not a multiple of 16",
    "SP is not a multiple of 16",
    "PC is not a multiple of 4",
];

/// What a kind of fault means.
pub fn fault_words(kind: FaultKind) -> &'static str {
    FAULTS[kind as usize]
}

/// The texts of `HeapAbort`.
#[rattlefmt::skip]
static ABORTS: [&str; 6] = [
    "it is not a multiple of 16",
    "no writable page holds its header",
    "the checksum of its header differs",
    "its header says that it is free",
    "its header names no block of the heap",
    "its block is free",
];

/// What a check of a pointer that failed means.
pub fn abort_words(kind: HeapAbort) -> &'static str {
    ABORTS[kind as usize]
}
