//! The request of a command line, and the program's work after it.

ghost use Rattle.mte_session.specs.Conclusions.{Concluded};

use crate::ending::{Ending, finish};
use crate::program::Program;
use crate::reading::Files;
use crate::running::run_program;
use a64_run::CompiledBlocks;
use mte_streams::Sink;
use std::alloc::Global;

/// The request of a command line.
#[derive(Drop)]
pub enum Invocation {
    /// A session.
    Run(Program),
    /// Nothing more: help or a usage fault was printed. The exit status.
    Exit(u8),
    /// An allocation failed.
    OutOfMemory,
}

/// Runs the session that was requested, if one was, writes the line for standard error, if there is
/// one, and returns the exit status.
pub fn conclude<F: Files, W: Sink, E: Sink, T: CompiledBlocks>(
    alloc: Global,
    invocation: &Invocation,
    files: &mut F,
    out: &mut W,
    err: &mut E,
) -> u8
    ensures { Concluded invocation.now
        (record { files = F.log files.old; out = W.log out.old; err = E.log err.old })
        (record { files = F.log files.new; out = W.log out.new; err = E.log err.new }) result }
{
    let ending = match invocation {
        Invocation::Run(program) => run_program::<F, W, T>(alloc, program, files, out),
        Invocation::Exit(status) => return *status,
        Invocation::OutOfMemory => Ending::Memory,
    };
    finish(&ending, err)
}
