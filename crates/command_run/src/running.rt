//! The run of a command line, from its first instruction to the exit status.

use crate::core_dump::mode_in;
use crate::files::{read_file, read_input};
use crate::profile::write_profile;
use crate::replay::Replayed;
use crate::request::{Run, RunRequest};
use crate::session_replay::{SessionReplay, events_of};
use crate::telling::tell_end;
use crate::unadmitted::{refuse, refuse_unadmitted};
use common::Obstacle;
use mte_flat::Flat;
use mte_session::{Event, StreamSink, file_of, write_all, write_report};
use mte_svc::TenantParts;
use mte_tags::TagMode;
use run_terms::{Failure, Replay};
use std::io::BufWriter;
use tenant_run::{LoneTenant, Observer, TenantBench, observer_of};

/// Runs an image alone, writes its output and says why it ended; returns the exit status.
pub fn run_alone<'a>(request: &RunRequest<'a, '_>) -> Result<u8, Failure<'a>> {
    let (rt, options) = (request.rt, request.options);
    let image = request.image(1).bytes;
    let input = read_input(rt, options)?;
    match LoneTenant::admitted(rt, options, image, input.as_slice(), request.suppressions) {
        Ok((tenant, bench)) => run_tenant(request, &tenant, bench),
        Err(Obstacle::OutOfMemory) => Err(Failure::Memory),
        Err(Obstacle::Refused(error)) => Ok(refuse(rt, error)),
    }
}

/// Runs a tenant from its first instruction, and says why it ended.
fn run_tenant<'a>(
    request: &RunRequest<'a, '_>,
    tenant: &LoneTenant<'_>,
    bench: TenantBench,
) -> Result<u8, Failure<'a>> {
    let (rt, options) = (request.rt, request.options);
    let mut bench = bench;
    let run = Run {
        image: request.image(1),
        seed: Some(tenant.seed),
        mode: options.run.terms.mode,
    };
    let mut observer = observer_of(rt, options, run.image.bytes, request.suppressions)?;
    let ran = tenant.run(rt, options, &mut bench, &mut observer);
    let (parts, mut memory) = bench.into_machine();
    tell_run(request, &run, ran, &parts, &mut memory, &mut observer)
}

/// Says why a tenant ended, if it ran. Where its output was not written, its profile is
/// nevertheless. All is borrowed, so that no end has to drop it.
fn tell_run<'a>(
    request: &RunRequest<'a, '_>,
    run: &Run<'_>,
    ran: Result<(), Failure<'a>>,
    parts: &TenantParts,
    memory: &mut Flat,
    observer: &mut Observer<'_>,
) -> Result<u8, Failure<'a>> {
    if let Err(Failure::Write) = ran {
        write_profile(request, run.image.name, parts, observer.profile())?;
    }
    ran?;
    tell_end(request, run, parts, memory, observer)
}

/// Runs what a session does to one tenant, writes its lines of the report and says why it ended;
/// returns the exit status.
pub fn run_replay<'a>(request: &RunRequest<'a, '_>, replay: &'a Replay) -> Result<u8, Failure<'a>> {
    let script = read_file(request.rt, replay.script.as_str())?;
    let events = events_of(request.rt.alloc(), script.as_slice(), request.files)?;
    let session = SessionReplay {
        replay,
        events: events.as_slice(),
        files: request.files,
    };
    run_session(request, &session)
}

/// Runs the events of a session that concern one tenant, and says why it ended.
fn run_session<'a>(
    request: &RunRequest<'a, '_>,
    session: &SessionReplay<'a, '_>,
) -> Result<u8, Failure<'a>> {
    let (rt, options) = (request.rt, request.options);
    let image = admitted_image(session);
    let mut observer = observer_of(rt, options, image, request.suppressions)?;
    match session.run(rt, options, &mut observer)? {
        Some(found) => tell_replay(request, session, found, &mut observer),
        None => refuse_unadmitted(rt, session.replay, session.events, session.files),
    }
}

/// Writes a tenant's lines of the report, and says why it ended.
fn tell_replay<'a>(
    request: &RunRequest<'a, '_>,
    session: &SessionReplay<'a, '_>,
    found: Replayed,
    observer: &mut Observer<'_>,
) -> Result<u8, Failure<'a>> {
    let Replayed { bench, image } = found;
    let (parts, mut memory) = bench.into_machine();
    tell_replayed(request, session, image, &parts, &mut memory, observer)
}

/// Writes so of the tenant of an image. All is borrowed, so that no end has to drop it.
fn tell_replayed<'a>(
    request: &RunRequest<'a, '_>,
    session: &SessionReplay<'a, '_>,
    image: u32,
    parts: &TenantParts,
    memory: &mut Flat,
    observer: &mut Observer<'_>,
) -> Result<u8, Failure<'a>> {
    let run = Run {
        image: request.image(image),
        seed: None,
        mode: write_lines(request, session, parts)?,
    };
    tell_end(request, &run, parts, memory, observer)
}

/// Writes a tenant's lines of the report, or its output as it is, and gives its tag mode.
fn write_lines<'a>(
    request: &RunRequest<'a, '_>,
    session: &SessionReplay<'a, '_>,
    parts: &TenantParts,
) -> Result<TagMode, Failure<'a>> {
    let log = &parts.history;
    let rt = request.rt;
    if request.options.output.is_raw {
        write_all(&mut StreamSink(rt.stdout()), log.output.as_slice())?;
    } else {
        let mut out = StreamSink(BufWriter::new(rt.alloc(), rt.stdout())?);
        write_report(log, &mut out)?;
        out.finish()?;
    }
    mode_in(request, session.replay)
}

/// The image of the session's tenant, where it is known before the run: each of the events that
/// admit it names the same file. Else no bytes.
fn admitted_image<'x>(session: &SessionReplay<'_, 'x>) -> &'x [u8] {
    let mut found = None;
    for event in session.events {
        match event {
            Event::Admit { id, image, .. } if *id == session.replay.id => match found {
                Some(other) if other != *image => return &[],
                _ => found = Some(*image),
            },
            _ => {}
        }
    }
    match found {
        Some(image) => file_of(session.files, image),
        None => &[],
    }
}
