//! `mte_run [OPTIONS] ELF`: runs one tenant alone, and says why it ended, or lets GDB debug it.
#![tactic(auto)]

use command_run::{
    RunRequest, debug_program, read_files, read_suppressions, run_alone, run_replay,
};
use run_options::{EarlyEnd, read_command_line};
use run_terms::{Failure, Options, report};
use std::process::ExitCode;

fn main(rt: HostRuntime) -> ExitCode {
    let status = match &read_command_line(&rt) {
        Ok(options) => match run(&rt, options) {
            Ok(status) => status,
            Err(failure) => report(&rt, &failure),
        },
        Err(EarlyEnd::Exit(status)) => *status,
        Err(EarlyEnd::OutOfMemory) => report(&rt, &Failure::Memory),
    };
    ExitCode::from(status)
}

/// Runs the tenant that is requested, or lets GDB debug it; returns the exit status.
fn run<'a>(rt: &HostRuntime, options: &'a Options) -> Result<u8, Failure<'a>> {
    let files = read_files(rt, options)?;
    let suppressions = read_suppressions(rt, options)?;
    let request = RunRequest {
        rt,
        options,
        files: files.as_slice(),
        suppressions: &suppressions,
    };
    match &options.replay {
        _ if options.is_debugged => debug_program(&request),
        Some(replay) => run_replay(&request, replay),
        None => run_alone(&request),
    }
}
