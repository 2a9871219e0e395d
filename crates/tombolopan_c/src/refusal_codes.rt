// Written by tools/border.py from tools/border_to_c/codes.toml. Do not edit.
//! The numbers of refusals.

ghost use Rattle.std.specs.Prelude.{◌≡◌};
ghost use Rattle.tombolopan_c.specs.RefusalCodes.{image_code, refusal_code};
ghost use Rattle.tombolopan_c.specs.RefusalCodes.{abort_code, script_code};

use crate::codes::{
    ALREADY_FREE, BAD_HEADERS, BAD_NUMBER, BAD_RESERVATION, DUPLICATE, HEADER_CORRUPT, INTERPRETER,
    INVALID_STATE, MISALIGNED, NO_ENTRY, NO_FRAMES, NO_SUCH_FILE, NOT_A_BLOCK, NOT_AARCH64,
    NOT_ELF64, NOT_EXEC, OVERLAP, RESERVATION_TOO_SMALL, SEGMENT_RANGE, SHORT, SYNTAX,
    TOO_MANY_EVENTS, TOO_MANY_LIVE, UNMAPPED,
};
use mte_elf::ElfError;
use mte_session::ScriptFault;
use mte_tenant::AdmitError;
use scudo_heap::HeapAbort;

/// The number of a refusal of an image.
pub(crate) fn code_of_image(error: ElfError) -> u32
    ensures { result ≡ image_code error }
{
    match error {
        ElfError::Short => SHORT,
        ElfError::NotElf64 => NOT_ELF64,
        ElfError::NotAarch64 => NOT_AARCH64,
        ElfError::NotExec => NOT_EXEC,
        ElfError::BadHeaders => BAD_HEADERS,
        ElfError::Interpreter => INTERPRETER,
        ElfError::SegmentRange => SEGMENT_RANGE,
        ElfError::Overlap => OVERLAP,
        ElfError::NoEntry => NO_ENTRY,
    }
}

/// The number of a refusal of an admission: for an image it is the image's.
pub(crate) fn code_of_refusal(error: AdmitError) -> u32
    ensures { result ≡ refusal_code error }
{
    match error {
        AdmitError::Duplicate => DUPLICATE,
        AdmitError::BadReservation => BAD_RESERVATION,
        AdmitError::Image(error) => code_of_image(error),
        AdmitError::ReservationTooSmall => RESERVATION_TOO_SMALL,
        AdmitError::NoFrames => NO_FRAMES,
        AdmitError::TooManyLive => TOO_MANY_LIVE,
    }
}

/// The number of an abort of the heap.
pub(crate) fn code_of_abort(abort: HeapAbort) -> u64
    ensures { result ≡ abort_code abort }
{
    match abort {
        HeapAbort::Misaligned => MISALIGNED,
        HeapAbort::Unmapped => UNMAPPED,
        HeapAbort::HeaderCorrupt => HEADER_CORRUPT,
        HeapAbort::InvalidState => INVALID_STATE,
        HeapAbort::NotABlock => NOT_A_BLOCK,
        HeapAbort::AlreadyFree => ALREADY_FREE,
    }
}

/// The number of a fault of a script.
pub(crate) fn code_of_fault(fault: ScriptFault) -> u32
    ensures { result ≡ script_code fault }
{
    match fault {
        ScriptFault::Syntax => SYNTAX,
        ScriptFault::BadNumber => BAD_NUMBER,
        ScriptFault::NoSuchFile => NO_SUCH_FILE,
        ScriptFault::TooManyEvents => TOO_MANY_EVENTS,
    }
}
