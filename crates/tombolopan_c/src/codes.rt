//! The codes that calls answer.

ghost use Rattle.std.specs.Prelude.{◌≡◌};

/// The version of the layouts and calls.
pub const VERSION: u32 = 2;

/// It was done; a step went on, and a run did all of its steps.
pub const OK: u32 = 0;
/// The access, or the instruction or its fetch, faulted.
pub const FAULT: u32 = 1;
/// SVC #0.
pub const SVC: u32 = 2;
/// BRK with a number.
pub const BREAKPOINT: u32 = 3;
/// The word is no instruction of the profile.
pub const ILLEGAL: u32 = 4;
/// The page is not mapped.
pub const NOT_MAPPED: u32 = 5;
/// The page is mapped already.
pub const ALREADY_MAPPED: u32 = 6;
/// No place is free.
pub const NO_ROOM: u32 = 7;
/// An argument is out of its range.
pub const BAD_ARGUMENT: u32 = 8;

/// A check of the pointer that was handed to the heap failed.
pub const ABORT: u32 = 9;
/// An allocation failed.
pub const OUT_OF_MEMORY: u32 = 10;
/// A line of the script is faulty.
pub const SCRIPT: u32 = 11;
/// The tenant is not admitted.
pub const REFUSED: u32 = 12;
/// The PC came to one of the stops.
pub const STOPPED: u32 = 13;
/// The handle holds no machine.
pub const NO_MACHINE: u32 = 14;

/// The line has not the form of an event.
pub const SYNTAX: u32 = 1;
/// A number exceeds its limit.
pub const BAD_NUMBER: u32 = 2;
/// The line names a file that is not there.
pub const NO_SUCH_FILE: u32 = 3;
/// The line is the 10001st event.
pub const TOO_MANY_EVENTS: u32 = 4;

/// Nothing was refused.
pub const NO_REFUSAL: u32 = 0;
/// The number was admitted before.
pub const DUPLICATE: u32 = 1;
/// The reservation or the room is out of its limits.
pub const BAD_RESERVATION: u32 = 2;
/// The image's pages and the stack's exceed the reservation.
pub const RESERVATION_TOO_SMALL: u32 = 3;
/// The charge exceeds the frames that live tenants leave.
pub const NO_FRAMES: u32 = 4;
/// The host has as many tenants as it can have.
pub const TOO_MANY_LIVE: u32 = 5;
/// The image is shorter than its headers.
pub const SHORT: u32 = 6;
/// The image is no ELF file of 64 bits, little-endian.
pub const NOT_ELF64: u32 = 7;
/// The image is not for AArch64.
pub const NOT_AARCH64: u32 = 8;
/// The image is not ET_EXEC.
pub const NOT_EXEC: u32 = 9;
/// The image's program headers are out of it or of their limits.
pub const BAD_HEADERS: u32 = 10;
/// The image asks for an interpreter.
pub const INTERPRETER: u32 = 11;
/// A segment is out of its range.
pub const SEGMENT_RANGE: u32 = 12;
/// Two segments share a page.
pub const OVERLAP: u32 = 13;
/// The entry is in no executable segment.
pub const NO_ENTRY: u32 = 14;

/// There is no tenant.
pub const STATUS_NONE: u32 = 0;
/// It goes on with its next slice.
pub const STATUS_RUNNING: u32 = 1;
/// It ended itself, with a code.
pub const STATUS_EXIT: u32 = 2;
/// An access failed.
pub const STATUS_FAULT: u32 = 3;
/// A word encodes no instruction.
pub const STATUS_ILLEGAL: u32 = 4;
/// A breakpoint instruction.
pub const STATUS_BREAK: u32 = 5;
/// In the asynchronous mode a tag differed.
pub const STATUS_ASYNC: u32 = 6;
/// A heap call's check of a pointer failed.
pub const STATUS_ABORT: u32 = 7;
/// It was stopped.
pub const STATUS_STOPPED: u32 = 8;

/// No page is mapped there.
pub const TRANSLATION: u32 = 1;
/// The page lacks READ, WRITE or EXEC.
pub const PERMISSION: u32 = 2;
/// The address tag is not the granule's allocation tag.
pub const TAG_CHECK: u32 = 3;
/// A store of tags at an address that is not a multiple of 16.
pub const ALIGNMENT: u32 = 4;
/// A stack pointer used as a base that is not a multiple of 16.
pub const SP_ALIGNMENT: u32 = 5;
/// A fetch at an address that is not a multiple of 4.
pub const PC_ALIGNMENT: u32 = 6;

/// A chunk of `first` bytes.
pub const MALLOC: u32 = 1;
/// Frees the chunk at `first`.
pub const FREE: u32 = 2;
/// A chunk for `first` elements of `second` bytes, all zero.
pub const CALLOC: u32 = 3;
/// Gives the chunk at `first` a size of `second` bytes.
pub const REALLOC: u32 = 4;
/// A chunk of `second` bytes at a multiple of `first`.
pub const MEMALIGN: u32 = 5;
/// How many bytes of the chunk at `first` may be used.
pub const USABLE_SIZE: u32 = 6;
/// The eight bytes at `first`, tags compared.
pub const LOAD: u32 = 7;
/// Stores `second` as eight bytes at `first`, tags compared.
pub const STORE: u32 = 8;
/// The allocation tag of the granule that holds `first`.
pub const LOAD_TAG: u32 = 9;

/// The pointer is not a multiple of 16.
pub const MISALIGNED: u64 = 1;
/// No page with WRITE holds its header.
pub const UNMAPPED: u64 = 2;
/// The checksum of its header differs.
pub const HEADER_CORRUPT: u64 = 3;
/// Its header says that it is free.
pub const INVALID_STATE: u64 = 4;
/// Its header names no block of the heap.
pub const NOT_A_BLOCK: u64 = 5;
/// Its block is free.
pub const ALREADY_FREE: u64 = 6;

/// The access goes past the size of a live chunk, in the chunk's last granule.
pub const PAST_SIZE: u32 = 1;
/// It touches a chunk that was freed.
pub const FREED: u32 = 2;
/// It touches bytes of the heap that are no chunk's.
pub const NO_CHUNK: u32 = 3;

/// Page numbers below it have addresses: 2^56 / 4096.
pub const PAGES: u64 = 1 << 44;

/// How many pages have addresses, in digits.
pub fn pages_in_digits()
    ensures { PAGES ≡ 17592186044416 }
{}

/// The answers in digits, as `tombolopan.h` has them.
pub fn answers_in_digits()
    ensures ok { OK ≡ 0 }
    ensures fault { FAULT ≡ 1 }
    ensures svc { SVC ≡ 2 }
    ensures breakpoint { BREAKPOINT ≡ 3 }
    ensures illegal { ILLEGAL ≡ 4 }
    ensures not_mapped { NOT_MAPPED ≡ 5 }
    ensures already_mapped { ALREADY_MAPPED ≡ 6 }
    ensures no_room { NO_ROOM ≡ 7 }
    ensures bad_argument { BAD_ARGUMENT ≡ 8 }
    ensures abort { ABORT ≡ 9 }
    ensures out_of_memory { OUT_OF_MEMORY ≡ 10 }
    ensures script { SCRIPT ≡ 11 }
    ensures refused { REFUSED ≡ 12 }
    ensures stopped { STOPPED ≡ 13 }
    ensures no_machine { NO_MACHINE ≡ 14 }
{}

/// The faults of a script in digits, as `tombolopan.h` has them.
pub fn script_faults_in_digits()
    ensures syntax { SYNTAX ≡ 1 }
    ensures bad_number { BAD_NUMBER ≡ 2 }
    ensures no_such_file { NO_SUCH_FILE ≡ 3 }
    ensures too_many_events { TOO_MANY_EVENTS ≡ 4 }
{}

/// The refusals of a tenant in digits, as `tombolopan.h` has them.
pub fn refusals_in_digits()
    ensures none { NO_REFUSAL ≡ 0 }
    ensures duplicate { DUPLICATE ≡ 1 }
    ensures bad_reservation { BAD_RESERVATION ≡ 2 }
    ensures reservation_too_small { RESERVATION_TOO_SMALL ≡ 3 }
    ensures no_frames { NO_FRAMES ≡ 4 }
    ensures too_many_live { TOO_MANY_LIVE ≡ 5 }
    ensures short { SHORT ≡ 6 }
    ensures not_elf64 { NOT_ELF64 ≡ 7 }
    ensures not_aarch64 { NOT_AARCH64 ≡ 8 }
    ensures not_exec { NOT_EXEC ≡ 9 }
    ensures bad_headers { BAD_HEADERS ≡ 10 }
    ensures interpreter { INTERPRETER ≡ 11 }
    ensures segment_range { SEGMENT_RANGE ≡ 12 }
    ensures overlap { OVERLAP ≡ 13 }
    ensures no_entry { NO_ENTRY ≡ 14 }
{}

/// The statuses of a tenant in digits, as `tombolopan.h` has them.
pub fn statuses_in_digits()
    ensures none { STATUS_NONE ≡ 0 }
    ensures running { STATUS_RUNNING ≡ 1 }
    ensures exit { STATUS_EXIT ≡ 2 }
    ensures fault { STATUS_FAULT ≡ 3 }
    ensures illegal { STATUS_ILLEGAL ≡ 4 }
    ensures breaks { STATUS_BREAK ≡ 5 }
    ensures asynchronous { STATUS_ASYNC ≡ 6 }
    ensures abort { STATUS_ABORT ≡ 7 }
    ensures stopped { STATUS_STOPPED ≡ 8 }
{}

/// The kinds of faults in digits, as `tombolopan.h` has them.
pub fn faults_in_digits()
    ensures translation { TRANSLATION ≡ 1 }
    ensures permission { PERMISSION ≡ 2 }
    ensures tag_check { TAG_CHECK ≡ 3 }
    ensures alignment { ALIGNMENT ≡ 4 }
    ensures sp_alignment { SP_ALIGNMENT ≡ 5 }
    ensures pc_alignment { PC_ALIGNMENT ≡ 6 }
{}

/// The calls of the heap in digits, as `tombolopan.h` has them.
pub fn heap_calls_in_digits()
    ensures malloc { MALLOC ≡ 1 }
    ensures free { FREE ≡ 2 }
    ensures calloc { CALLOC ≡ 3 }
    ensures realloc { REALLOC ≡ 4 }
    ensures memalign { MEMALIGN ≡ 5 }
    ensures usable_size { USABLE_SIZE ≡ 6 }
    ensures load { LOAD ≡ 7 }
    ensures store { STORE ≡ 8 }
    ensures load_tag { LOAD_TAG ≡ 9 }
{}

/// The checks of a pointer that fail in digits, as `tombolopan.h` has them.
pub fn aborts_in_digits()
    ensures misaligned { MISALIGNED ≡ 1 }
    ensures unmapped { UNMAPPED ≡ 2 }
    ensures header_corrupt { HEADER_CORRUPT ≡ 3 }
    ensures invalid_state { INVALID_STATE ≡ 4 }
    ensures not_a_block { NOT_A_BLOCK ≡ 5 }
    ensures already_free { ALREADY_FREE ≡ 6 }
{}

/// The accesses that a chunk's bounds forbid in digits, as `tombolopan.h` has them.
pub fn trespasses_in_digits()
    ensures past_size { PAST_SIZE ≡ 1 }
    ensures freed { FREED ≡ 2 }
    ensures no_chunk { NO_CHUNK ≡ 3 }
{}
