//! The report of a session, in memory.

ghost use Rattle.std.specs.Prelude.{◌≡◌, ◌≤◌, Some, None, IfOk, IfErr};
ghost use Rattle.mte_session.specs.Files.{contents};
ghost use Rattle.tombolopan.specs.Reports.{IsReport, FailsBy};

use mte_session::{SessionError, Sink, StreamError, run_session};
use std::alloc::Global;

/// A writer in memory, which says all bytes that it took. A write fails only where an allocation
/// does.
#[derive(Drop)]
struct HeldReport {
    bytes: Vec<u8>,
}

impl Sink for HeldReport {
    ghost log = { λ r. record { taken = Some r.bytes.items; calls = None; failures = None } };

    fn write(&mut self, bytes: &[u8]) -> Result<usize, StreamError> {
        match self.bytes.extend_from_slice(bytes) {
            Ok(()) => Ok(bytes.len()),
            Err(_) => Err(StreamError),
        }
    }
}

/// The report of a script on a host of `frames` frames, 1 to 65536: a line for each refused event,
/// then the lines of each admitted tenant. It is a function of frames, script and files.
///
/// `Script` is the script's first faulty line with its first fault, `OutOfMemory` comes only where
/// an allocation failed, and `Write` never.
pub fn report(
    alloc: Global,
    frames: u32,
    script: &[u8],
    files: &[Vec<u8>],
) -> Result<Vec<u8>, SessionError>
    requires some { 1 ≤ frames }
    requires few { frames ≤ 65536 }
    ensures done { IfOk result (λ text. IsReport
        (record { frames = frames; files = contents files.now; script = script.now }) text.items) }
    ensures failed { IfErr result (λ e. FailsBy
        (record { frames = frames; files = contents files.now; script = script.now }) e) }
{
    let mut held = HeldReport {
        bytes: Vec::new(alloc),
    };
    match run_session(alloc, frames, script, files, &mut held) {
        Ok(()) => Ok(held.bytes),
        Err(SessionError::Write) => Err(SessionError::OutOfMemory),
        Err(error) => Err(error),
    }
}
