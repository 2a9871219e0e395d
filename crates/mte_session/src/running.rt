//! A run of the program.

ghost use Rattle.mte_session.specs.Runs.{Ran};

use crate::ending::Ending;
use crate::program::Program;
use crate::reading::{Files, read_files};
use crate::session::run_session_with_blocks;
use a64_run::CompiledBlocks;
use mte_streams::Sink;
use std::alloc::Global;

/// Reads the script and then each file, in order, runs the session, and returns how it ended. The
/// first file that cannot be read ends it, and then nothing was written.
pub fn run_program<'a, F: Files, W: Sink, T: CompiledBlocks>(
    alloc: Global,
    program: &'a Program,
    files: &mut F,
    out: &mut W,
) -> Ending<'a>
    ensures { Ran program.now (F.log files.old) (F.log files.new) (W.log out.old) (W.log out.new)
        result }
{
    let whole = match read_files(alloc, files, program.names.as_slice()) {
        Ok(whole) => whole,
        Err(ending) => return ending,
    };
    let script = whole[0].as_slice();
    let files = &whole.as_slice()[1..];
    match run_session_with_blocks::<W, T>(alloc, program.frames, script, files, out) {
        Ok(()) => Ending::Done,
        Err(error) => Ending::from(error),
    }
}
