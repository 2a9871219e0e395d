//! The files that are read.

use crate::session_course::SessionCourse;
use crate::session_replay::events_of;
use common::Obstacle;
use mte_session::{StreamSource, read_whole};
use run_terms::{Failure, FileFault, Options, Replay, Suppressions};
use std::fs::File;
use std::str;

/// All bytes of the files that are named.
pub fn read_files<'a>(rt: &HostRuntime, options: &'a Options) -> Result<Vec<Vec<u8>>, Failure<'a>> {
    let mut files = Vec::new(rt.alloc());
    for name in &options.files {
        files.push(read_file(rt, name.as_str())?)?;
    }
    Ok(files)
}

/// All bytes of the input, if one is named.
pub fn read_input<'a>(rt: &HostRuntime, options: &'a Options) -> Result<Vec<u8>, Failure<'a>> {
    match &options.run.input {
        Some(name) => read_file(rt, name.as_str()),
        None => Ok(Vec::new(rt.alloc())),
    }
}

/// All bytes of the file with a name.
pub fn read_file<'a>(rt: &HostRuntime, name: &'a str) -> Result<Vec<u8>, Failure<'a>> {
    let file = match File::open(rt, name) {
        Ok(file) => file,
        Err(error) => return Err(Failure::of_open(&error, name)),
    };
    if is_folder(&file) {
        return Err(Failure::Read(name, FileFault::Folder));
    }
    match read_whole(rt.alloc(), &mut StreamSource(file), 0) {
        Ok(bytes) => Ok(bytes),
        Err(fault) => Err(Failure::of_read(fault, name)),
    }
}

/// Whether a file is a folder, which can be opened but not read.
fn is_folder(file: &File) -> bool {
    match file.metadata() {
        Ok(metadata) => metadata.is_dir(),
        Err(_) => false,
    }
}

/// The findings that are not reported, by the file that is named; nothing without one.
pub fn read_suppressions<'a>(
    rt: &HostRuntime,
    options: &'a Options,
) -> Result<Suppressions, Failure<'a>> {
    let Some(name) = &options.output.suppressions else {
        return Ok(Suppressions::none(rt.alloc()));
    };
    let name = name.as_str();
    let bytes = read_file(rt, name)?;
    let Ok(text) = str::from_utf8(bytes.as_slice()) else {
        return Err(Failure::Read(name, FileFault::Other));
    };
    match Suppressions::parse(rt.alloc(), text) {
        Ok(suppressions) => Ok(suppressions),
        Err(Obstacle::OutOfMemory) => Err(Failure::Memory),
        Err(Obstacle::Refused(fault)) => Err(Failure::Suppressions(name, fault)),
    }
}

/// The tenant of a script's session.
pub fn read_course<'a>(
    rt: &HostRuntime,
    replay: &'a Replay,
    files: &[Vec<u8>],
) -> Result<SessionCourse, Failure<'a>> {
    let script = read_file(rt, replay.script.as_str())?;
    let events = events_of(rt.alloc(), script.as_slice(), files)?;
    Ok(SessionCourse::of(rt.alloc(), replay, events.as_slice(), files)?)
}
