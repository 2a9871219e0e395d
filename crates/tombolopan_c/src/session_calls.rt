//! The export that runs a session.

ghost use Rattle.std.specs.Prelude.{◌≡◌, true, false};
ghost use Rattle.tombolopan_c.specs.LentSessions.{lent_input, is_frames, HasEnded, without_report};
ghost use Rattle.tombolopan_c.specs.declared.codes.TheConstants.{BAD_ARGUMENT};

use crate::codes::{BAD_ARGUMENT, OUT_OF_MEMORY};
use crate::lent_bytes::{LentBytes, copy_files, copy_to};
use crate::session_end::SessionEnd;
use common::MAX_FRAMES;
use mte_session::SessionError;
use std::alloc::Global;

/// Runs a script on a host of `frames` frames, 1 to 65536, and copies as much of its report as the
/// buffer holds. OK where it holds all; NO_ROOM where it does not: `end` says how long the whole
/// report is. SCRIPT where a line of the script is faulty, which `end` says, and OUT_OF_MEMORY,
/// where an allocation failed, write nothing to the buffer; nor does BAD_ARGUMENT, for any other
/// number of frames.
#[unsafe(no_mangle)]
pub extern "C" fn tb_session(
    alloc: Global,
    frames: u32,
    script: &[u8],
    files: &[LentBytes<'_>],
    report: &mut [u8],
    end: &mut SessionEnd,
) -> u32
    ensures code { result ≡ end.new.code }
    ensures ended { is_frames frames ≡ true
        → HasEnded (lent_input frames script.now files.now) report.old report.new end.new }
    ensures refused { is_frames frames ≡ false → end.new ≡ without_report BAD_ARGUMENT }
    ensures kept { is_frames frames ≡ false → report.new ≡ report.old }
{
    *end = if is_few(frames) {
        ended(alloc, frames, script, files, report)
    } else {
        SessionEnd::of_code(BAD_ARGUMENT)
    };
    end.code
}

/// Whether a host may have `frames` frames.
fn is_few(frames: u32) -> bool
    ensures { result ≡ is_frames frames }
{
    frames != 0 && frames as usize <= MAX_FRAMES
}

/// Runs a session, copies its report, and returns how it ended.
fn ended(
    alloc: Global,
    frames: u32,
    script: &[u8],
    files: &[LentBytes<'_>],
    report: &mut [u8],
) -> SessionEnd
    requires frames { is_frames frames ≡ true }
    ensures { HasEnded (lent_input frames script.now files.now) report.old report.new result }
{
    let Ok(copies) = copy_files(alloc, files) else {
        return SessionEnd::of_code(OUT_OF_MEMORY);
    };
    match tombolopan::report(alloc, frames, script, copies.as_slice()) {
        Ok(text) => {
            let fits = copy_to(text.as_slice(), report);
            SessionEnd::of_report(text.len(), fits)
        }
        Err(SessionError::Script(line, fault)) => SessionEnd::of_fault(line, fault),
        Err(_) => SessionEnd::of_code(OUT_OF_MEMORY),
    }
}
