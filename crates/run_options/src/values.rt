//! The values of a command line that `clap` accepted.

use crate::fault::{Fault, fault_of};
use clap::ArgMatches;
use common::Obstacle;
use mte_tags::TagMode;
use run_terms::{
    CheckKinds, Exactness, Options, OutputOptions, Replay, RunLength, RunOptions, Traced,
};
use std::alloc::{AllocError, Global};
use tenant_terms::Terms;

/// Of a run that is watched from its first step on, and writes no line.
const NO_LINES: Traced = Traced {
    from: 1,
    to: 0,
    services: false,
};

/// How many of the last instructions are remembered at least for a page.
const PAGE_STEPS: usize = 8_192;

/// The values of a command line that `clap` accepted.
pub(crate) fn options_of(
    alloc: Global,
    matches: &ArgMatches<'_>,
) -> Result<Options, Obstacle<Fault>> {
    let run = run_of(alloc, matches)?;
    let output = output_of(alloc, matches)?;
    let replay = replay_of(alloc, matches)?;
    let files = files_of(alloc, matches)?;
    if replay.is_none() && files.len() != 1 {
        return Err(Obstacle::Refused(Fault::Files));
    }
    let options = Options {
        files,
        replay,
        run,
        length: length_of(alloc, matches)?,
        output,
        is_debugged: matches.get_flag("gdb"),
    };
    match fault_of(&options) {
        Some(fault) => Err(Obstacle::Refused(fault)),
        None => Ok(options),
    }
}

/// The names of the files.
fn files_of(alloc: Global, matches: &ArgMatches<'_>) -> Result<Vec<String>, AllocError> {
    let mut files = Vec::new(alloc);
    if let Some(names) = matches.get_strs("files") {
        for name in names {
            files.push(String::from_str(alloc, name)?)?;
        }
    }
    Ok(files)
}

/// The value of an option that is a name, if it is given.
fn name_of(
    alloc: Global,
    matches: &ArgMatches<'_>,
    option: &str,
) -> Result<Option<String>, AllocError> {
    match matches.get_str(option) {
        Some(name) => Ok(Some(String::from_str(alloc, name)?)),
        None => Ok(None),
    }
}

/// The tenant of a session that is to be replayed, if one is.
fn replay_of(alloc: Global, matches: &ArgMatches<'_>) -> Result<Option<Replay>, Obstacle<Fault>> {
    let Some(words) = matches.get_strs("script") else {
        return match matches.get_one::<u32>("frames") {
            Some(_) => Err(Obstacle::Refused(Fault::Frames)),
            None => Ok(None),
        };
    };
    let (Some(script), Some(id)) = (words.first(), words.get(1)) else {
        return Err(Obstacle::Refused(Fault::Script));
    };
    let (Ok(id), Some(frames)) = (id.parse::<u16>(), matches.get_one::<u32>("frames")) else {
        return Err(Obstacle::Refused(Fault::Script));
    };
    let script = String::from_str(alloc, script)?;
    Ok(Some(Replay { script, id, frames }))
}

/// The terms of a tenant that is alone.
fn run_of(alloc: Global, matches: &ArgMatches<'_>) -> Result<RunOptions, Obstacle<Fault>> {
    let Some(seed) = seed_of(matches.get_str("seed").unwrap_or("")) else {
        return Err(Obstacle::Refused(Fault::Seed));
    };
    let pages = matches.get_one::<u32>("pages").unwrap_or(4096);
    let terms = Terms {
        seed,
        pages: pages.max(1).min(4096),
        room: matches.get_one::<u32>("out").unwrap_or(65536),
        mode: mode_of(matches),
    };
    Ok(RunOptions {
        input: name_of(alloc, matches, "input")?,
        terms,
        seeds: matches.get_one::<u32>("seeds").unwrap_or(1),
    })
}

/// The tag mode.
fn mode_of(matches: &ArgMatches<'_>) -> TagMode {
    if matches.get_flag("async") {
        TagMode::Async
    } else {
        TagMode::Sync
    }
}

/// The number of 1 to 16 hexadecimal digits, which may be after `0x`.
fn seed_of(text: &str) -> Option<u64> {
    let digits = text.strip_prefix("0x").unwrap_or(text);
    if digits.is_empty() || digits.len() > 16 || digits.starts_with('+') {
        return None;
    }
    u64::from_str_radix(digits, 16).ok()
}

/// How long a tenant that is alone runs.
fn length_of(alloc: Global, matches: &ArgMatches<'_>) -> Result<RunLength, AllocError> {
    let slices = match matches.get_many::<u32>("slices") {
        Some(values) => Some(values.filter_map(|value| value.ok()).collect(alloc)?),
        None => None,
    };
    Ok(RunLength {
        steps: matches.get_one::<u64>("steps").unwrap_or(0),
        slices,
        progress: name_of(alloc, matches, "progress")?,
    })
}

/// The outputs of a run.
fn output_of(alloc: Global, matches: &ArgMatches<'_>) -> Result<OutputOptions, Obstacle<Fault>> {
    let page = matches.get_str("html").is_some();
    let last_lines = matches.get_one::<u32>("last").unwrap_or(16) as usize;
    let check = checked_by(matches.get_str("check"))?;
    let traced = traced_by(matches.get_str("trace"), matches.get_flag("services"))?;
    Ok(OutputOptions {
        last: if page {
            last_lines.max(PAGE_STEPS)
        } else {
            last_lines
        },
        last_lines,
        turns: matches.get_one::<u32>("calls").unwrap_or(0) as usize,
        traced: if page {
            traced.or(Some(NO_LINES))
        } else {
            traced
        },
        trace_file: name_of(alloc, matches, "trace-file")?,
        leaks: matches.get_flag("leaks"),
        statistics: matches.get_flag("statistics"),
        map: name_of(alloc, matches, "map")?,
        json: name_of(alloc, matches, "json")?,
        sarif: name_of(alloc, matches, "sarif")?,
        page: name_of(alloc, matches, "html")?,
        core: name_of(alloc, matches, "core")?,
        profile: name_of(alloc, matches, "profile")?,
        is_whole: matches.get_flag("whole-output"),
        is_raw: matches.get_flag("raw-output"),
        check,
        suppressions: name_of(alloc, matches, "suppressions")?,
        continues: matches.get_flag("continue"),
        found_status: status_of(matches, "check-status"),
        lost_status: status_of(matches, "lost-status"),
        exact: match matches.get_str("exact") {
            None => Exactness::Tags,
            Some("writes") => Exactness::Writes,
            Some(_) => Exactness::All,
        },
    })
}

/// The exit status that an option names, if it is given.
fn status_of(matches: &ArgMatches<'_>, option: &str) -> Option<u8> {
    let status = matches.get_one::<u32>(option)?;
    u8::try_from(status).ok()
}

/// The kinds that are checked, by the value of the option; nothing without it.
fn checked_by(text: Option<&str>) -> Result<CheckKinds, Obstacle<Fault>> {
    match text {
        Some(text) => CheckKinds::parse(text).ok_or(Obstacle::Refused(Fault::Check)),
        None => Ok(CheckKinds::NONE),
    }
}

/// The lines that are written while it runs, by the values of two options.
fn traced_by(steps: Option<&str>, services: bool) -> Result<Option<Traced>, Obstacle<Fault>> {
    match steps {
        Some(text) => {
            let (from, to) = steps_of(text)
                .filter(|(from, to)| from <= to)
                .ok_or(Obstacle::Refused(Fault::Trace))?;
            Ok(Some(Traced { from, to, services }))
        }
        None if services => Ok(Some(Traced {
            from: 1,
            to: 0,
            services,
        })),
        None => Ok(None),
    }
}

/// The steps from one to another; the first and the last where a number is left out.
fn steps_of(text: &str) -> Option<(u64, u64)> {
    let (from, to) = text.split_once('-')?;
    Some((step_of(from, 1)?, step_of(to, u64::MAX)?))
}

/// A step's number, or the one that means none.
fn step_of(text: &str, none: u64) -> Option<u64> {
    if text.is_empty() {
        return Some(none);
    }
    text.parse().ok()
}
