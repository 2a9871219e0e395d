//! The core file of a tenant's end.

use crate::files::read_course;
use crate::request::RunRequest;
use debuggee::{CoreSubject, write_core};
use mte_flat::Flat;
use mte_tags::TagMode;
use run_terms::{Failure, Replay};
use std::io;
use tenant_run::WholeFile;

/// Writes the core file of a tenant's end, where one is named.
pub fn dump_core<'a>(
    request: &RunRequest<'a, '_>,
    subject: &CoreSubject<'_>,
    memory: &mut Flat,
) -> Result<(), Failure<'a>> {
    match &request.options.output.core {
        Some(name) => dump(request.rt, name.as_str(), subject, memory),
        None => Ok(()),
    }
}

/// The tag mode of a tenant of a session, where a core file is named that has it.
pub fn mode_in<'a>(
    request: &RunRequest<'a, '_>,
    replay: &'a Replay,
) -> Result<TagMode, Failure<'a>> {
    if request.options.output.core.is_none() {
        return Ok(TagMode::Sync);
    }
    let course = read_course(request.rt, replay, request.files)?;
    Ok(
        course
            .admitted
            .map_or(TagMode::Sync, |admitted| admitted.terms.mode),
    )
}

/// Writes the core file with a name.
fn dump<'a>(
    rt: &HostRuntime,
    name: &'a str,
    subject: &CoreSubject<'_>,
    memory: &mut Flat,
) -> Result<(), Failure<'a>> {
    write_file(rt, name, subject, memory).map_err(|error| Failure::of_write(&error, name))
}

/// Writes a core file.
fn write_file(
    rt: &HostRuntime,
    name: &str,
    subject: &CoreSubject<'_>,
    memory: &mut Flat,
) -> io::Result<()> {
    let mut file = WholeFile::create(rt, name)?;
    let written = write_core(rt.alloc(), &mut file, subject, memory);
    file.conclude(rt, written)
}
