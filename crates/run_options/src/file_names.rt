//! The names of files on a command line.

use run_terms::Options;

/// Whether a file that is to be written has the name of one that is read, or of another that is
/// written. Two names of one file that are spelled in different ways are not found out.
pub(crate) fn has_shared_name(options: &Options) -> bool {
    let written = written_names(options);
    written.iter().enumerate().any(|(index, name)| match name {
        Some(name) => is_read(options, name) || is_written_before(&written, index, name),
        None => false,
    })
}

/// The names of the files that are written.
fn written_names(options: &Options) -> [Option<&str>; 8] {
    let output = &options.output;
    [
        name_of(&output.json),
        name_of(&output.sarif),
        name_of(&output.page),
        name_of(&output.map).filter(|name| *name != "-" && *name != "text"),
        name_of(&output.core),
        name_of(&output.profile),
        name_of(&output.trace_file),
        name_of(&options.length.progress),
    ]
}

/// A name, if it is given.
fn name_of(name: &Option<String>) -> Option<&str> {
    match name {
        Some(name) => Some(plain_name(name.as_str())),
        None => None,
    }
}

/// A name without the folder `.` that it begins with.
fn plain_name(name: &str) -> &str {
    name.strip_prefix("./").unwrap_or(name)
}

/// Whether a name is that of a file which is read.
fn is_read(options: &Options, name: &str) -> bool {
    let script = match &options.replay {
        Some(replay) => Some(plain_name(replay.script.as_str())),
        None => None,
    };
    script == Some(name)
        || name_of(&options.output.suppressions) == Some(name)
        || name_of(&options.run.input) == Some(name)
        || options
            .files
            .iter()
            .any(|file| plain_name(file.as_str()) == name)
}

/// Whether one of the names in front of an index is this one.
fn is_written_before(written: &[Option<&str>], index: usize, name: &str) -> bool {
    written.iter().take(index).any(|other| *other == Some(name))
}
