//! The command line.

use crate::option_rows::OPTIONS;
use crate::table::OptionRow;
use crate::values::options_of;
use clap::error::ErrorKind;
use clap::{Arg, ArgAction, ArgMatches, Command, Error};
use common::{Obstacle, build_info};
use mte_session::{EarlyEnd, print_answer, read_words};
use run_terms::Options;
use std::alloc::Global;
use std::convert::AsStr;

/// The command line that asks for help.
static HELP: [&str; 2] = ["mte_run", "--help"];

/// Reads the process's arguments; prints the help, or what is wrong with them.
pub fn read_command_line(rt: &HostRuntime) -> Result<Options, EarlyEnd> {
    let words = read_words(rt, "mte_run")?;
    match parse(rt.alloc(), words.as_slice()) {
        Ok(options) => options.ok_or(EarlyEnd::OutOfMemory),
        Err(error) => Err(print_text(rt, &error)),
    }
}

/// Prints the text of `clap`, which has words of the command line in it.
fn print_text(rt: &HostRuntime, error: &Error) -> EarlyEnd {
    if error.kind() == ErrorKind::OutOfMemory {
        return EarlyEnd::OutOfMemory;
    }
    match format!(in rt.alloc(); "{error}") {
        Ok(text) => print_answer(rt, text.as_str(), error.use_stderr()),
        Err(_) => EarlyEnd::OutOfMemory,
    }
}

/// Reads the words of a command line, of which the first is the program's name; `None` where an
/// allocation failed.
pub fn parse(alloc: Global, words: &[String]) -> Result<Option<Options>, Error> {
    if words.iter().any(|word| word.as_str() == "--help-all") {
        return parse_by(alloc, &mut command(alloc, true)?, &HELP);
    }
    parse_by(alloc, &mut command(alloc, false)?, words)
}

/// Reads the words of a command line by its form.
fn parse_by<'a, S: AsStr>(
    alloc: Global,
    command: &mut Command<'a>,
    words: &'a [S],
) -> Result<Option<Options>, Error> {
    let matches = command.try_get_matches_from_mut(words)?;
    read_matches(alloc, command, &matches)
}

/// The values of a command line that `clap` accepted; `None` where an allocation failed.
fn read_matches<'a>(
    alloc: Global,
    command: &mut Command<'a>,
    matches: &ArgMatches<'_>,
) -> Result<Option<Options>, Error> {
    match options_of(alloc, matches) {
        Ok(options) => Ok(Some(options)),
        Err(Obstacle::OutOfMemory) => Ok(None),
        Err(Obstacle::Refused(fault)) => Err(command.error(
            ErrorKind::ValueValidation,
            fault.text(),
        )?),
    }
}

/// The command line's form: the files, and the options of the table in its order. The help lists
/// those that are used most, or all.
fn command<'a>(alloc: Global, is_whole: bool) -> Result<Command<'a>, Error> {
    let command = Command::new(alloc, "mte_run")
        .version(build_info::text())
        .about("Runs one tenant alone on an Arm core with memory tagging, and tells why it ended")
        .arg(files(alloc))?
        .arg(whole_help(alloc))?;
    with_options(alloc, command, &OPTIONS, is_whole)
}

/// The command line's form with an option for each row.
fn with_options<'a>(
    alloc: Global,
    mut command: Command<'a>,
    rows: &[OptionRow],
    is_whole: bool,
) -> Result<Command<'a>, Error> {
    for row in rows {
        command = command.arg(row.arg(alloc, is_whole))?;
    }
    Ok(command)
}

fn files<'a>(alloc: Global) -> Arg<'a> {
    Arg::new(alloc, "files")
        .value_name("FILE")
        .help("The tenant, a static ELF64 executable for AArch64; or the files of a script")
        .num_args(1..)
        .required(true)
        .action(ArgAction::Append)
}

/// The option that lists all options.
fn whole_help<'a>(alloc: Global) -> Arg<'a> {
    Arg::new(alloc, "help-all")
        .long("help-all")
        .help("Print help with all options")
        .action(ArgAction::SetTrue)
}
