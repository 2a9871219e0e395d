//! The command line.

ghost use Rattle.std.specs.Prelude.{◌≡◌, ◌≤◌, IfOk, IfSome, false};
ghost use Rattle.clap.specs.Matches.{found_of};
ghost use Rattle.clap.specs.Simple.{app_of, matches_of};
ghost use Rattle.clap.specs.Walk.{rows_of, rule_of};
ghost use Rattle.mte_session.specs.Reads.{names_of};
ghost use Rattle.mte_host.specs.CommandLine.{form, frames_rule, script_rule, files_rule, names_in};

use clap::error::ErrorKind;
use clap::{Arg, ArgAction, ArgMatches, Command, Error, value_parser};
use mte_session::{Invocation, Program, StreamSink, collect_names, collect_words, write_all};
use std::alloc::{AllocError, Global};
use std::{env, io};

/// Reads the process's arguments; prints the help, or what is wrong with them.
pub fn read_command_line(rt: &HostRuntime) -> Invocation {
    let args = match env::args(rt) {
        Ok(args) => args,
        Err(error) => return report_unreadable(rt, &error),
    };
    let Ok(words) = collect_words(rt.alloc(), args) else {
        return Invocation::OutOfMemory;
    };
    match parse(rt.alloc(), words.as_slice()) {
        Ok(Some(program)) => Invocation::Run(program),
        Ok(None) => Invocation::OutOfMemory,
        Err(error) => print_text(rt, &error),
    }
}

/// How to exit if the arguments cannot be read: out of memory, or not UTF-8.
fn report_unreadable(rt: &HostRuntime, error: &io::Error) -> Invocation {
    if error.kind() == io::ErrorKind::OutOfMemory {
        return Invocation::OutOfMemory;
    }
    let _ = write_all(
        &mut StreamSink(rt.stderr()),
        b"mte_host: an argument is not text\n",
    );
    Invocation::Exit(2)
}

/// Prints the text of `clap`.
fn print_text(rt: &HostRuntime, error: &Error) -> Invocation {
    if error.kind() == ErrorKind::OutOfMemory {
        return Invocation::OutOfMemory;
    }
    let _ = error.print(rt);
    Invocation::Exit(if error.use_stderr() { 2 } else { 0 })
}

/// Reads the words of a command line; `None` where an allocation failed.
fn parse(alloc: Global, words: &[String]) -> Result<Option<Program>, Error>
    ensures names { IfOk result (λ r. IfSome r (λ p.
        names_of p.names.items ≡ names_in (matches_of form (names_of words.now)))) }
{
    let matches = command(alloc)?.try_get_matches_from(words)?;
    Ok(program_of(alloc, &matches).ok())
}

/// The command line's form. Each argument has a function of its own, so that few of them are alive
/// at once: that makes the proof a third as long.
fn command<'a>(alloc: Global) -> Result<Command<'a>, Error>
    ensures { IfOk result (λ c. app_of c ≡ form) }
{
    let command = Command::new(alloc, "mte_host").about(
        "Runs a script of tenants on an Arm core with memory tagging, and reports on each",
    );
    let command = command.arg(frames(alloc))?;
    let command = command.arg(script(alloc))?;
    Ok(command.arg(files(alloc))?)
}

fn frames<'a>(alloc: Global) -> Arg<'a>
    ensures rule { rule_of result ≡ frames_rule }
    ensures local { result.global ≡ false }
{
    Arg::new(alloc, "frames")
        .long("frames")
        .value_name("N")
        .help("How many frames of 4096 bytes the arena has, 1 to 65536")
        .required(true)
        .value_parser(value_parser!(u32).range(1..=65536))
}

fn script<'a>(alloc: Global) -> Arg<'a>
    ensures rule { rule_of result ≡ script_rule }
    ensures local { result.global ≡ false }
{
    Arg::new(alloc, "script")
        .value_name("SCRIPT")
        .help("The script: a line an event")
        .required(true)
}

fn files<'a>(alloc: Global) -> Arg<'a>
    ensures rule { rule_of result ≡ files_rule }
    ensures local { result.global ≡ false }
{
    Arg::new(alloc, "files")
        .value_name("FILE")
        .help("The images and inputs that the script names by their numbers from 1")
        .num_args(0..)
        .action(ArgAction::Append)
}

/// The values of a command line that `clap` accepted.
fn program_of(alloc: Global, matches: &ArgMatches<'_>) -> Result<Program, AllocError>
    ensures names { IfOk result (λ p.
        names_of p.names.items ≡ names_in (rows_of (found_of matches.now))) }
{
    let frames = in_range(matches.get_one::<u32>("frames").unwrap_or(1));
    let script = matches.get_str("script").unwrap_or("");
    let names = match matches.get_strs("files") {
        Some(files) => collect_names(alloc, script, files)?,
        None => collect_names(alloc, script, &[])?,
    };
    Ok(Program { frames, names })
}

/// A number of frames that the option's range has let pass, so it is returned as it is.
fn in_range(frames: u32) -> u32
    ensures same { 1 ≤ frames → frames ≤ 65536 → result ≡ frames }
    ensures some { 1 ≤ result }
    ensures few { result ≤ 65536 }
{
    frames.max(1).min(65_536)
}
