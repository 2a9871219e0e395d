//! A tenant that GDB debugs, over standard input and output.

ghost use Rattle.std.specs.Prelude.{◌<◌};

use crate::files::{read_course, read_input};
use crate::first_finding::first_finding;
use crate::request::RunRequest;
use crate::unadmitted::{end_unadmitted, refuse};
use common::{MAX_STEPS, Obstacle};
use debuggee::{Cuts, Debuggee};
use gdb_front::{Front, serve};
use gdb_travel::DebugSubject;
use mte_tenant::Admission;
use run_cause::Finding;
use run_terms::{Failure, Options, Replay};
use std::alloc::{AllocError, Global};
use tenant_run::admission_of;

/// Answers GDB of the tenant that is requested, and returns the exit status.
pub fn debug_program<'a>(request: &RunRequest<'a, '_>) -> Result<u8, Failure<'a>> {
    match &request.options.replay {
        Some(replay) => debug_replay(request, replay),
        None => debug_alone(request),
    }
}

/// Answers GDB of an image alone, and returns the exit status.
fn debug_alone<'a>(request: &RunRequest<'a, '_>) -> Result<u8, Failure<'a>> {
    let options = request.options;
    let input = read_input(request.rt, options)?;
    let listed = listed_slices(request.rt.alloc(), options)?;
    let cuts = Cuts {
        listed: listed.as_slice(),
        others: others_of(options),
        limit: options.length.steps,
    };
    let image = request.image(1);
    let seed = options.run.terms.seed;
    let subject = DebugSubject {
        image: image.bytes,
        name: image.name,
        seed: Some(seed),
    };
    let admission = admission_of(options, image.bytes, input.as_slice(), seed);
    debug(request, &admission, &cuts, subject)
}

/// Answers GDB of a tenant of a session, and returns the exit status.
fn debug_replay<'a>(request: &RunRequest<'a, '_>, replay: &'a Replay) -> Result<u8, Failure<'a>> {
    let course = read_course(request.rt, replay, request.files)?;
    let Some(admitted) = course.admitted else {
        return Ok(end_unadmitted(request.rt));
    };
    let admission = admitted.admission(replay.id, request.files);
    if admission.terms.pages == 0 {
        return Ok(end_unadmitted(request.rt));
    }
    let cuts = Cuts {
        listed: course.slices.as_slice(),
        others: 0,
        limit: u64::MAX,
    };
    let subject = DebugSubject {
        image: admission.image,
        name: request.options.file_name(admitted.image),
        seed: None,
    };
    debug(request, &admission, &cuts, subject)
}

/// The slices that are named and have steps.
fn listed_slices(alloc: Global, options: &Options) -> Result<Vec<u32>, AllocError> {
    let mut listed = Vec::new(alloc);
    if let Some(slices) = &options.length.slices {
        for steps in slices {
            if *steps > 0 {
                listed.push(*steps)?;
            }
        }
    }
    Ok(listed)
}

/// The steps of the slices that are not named.
fn others_of(options: &Options) -> u32 {
    match options.length.slices {
        Some(_) => 0,
        None => MAX_STEPS as u32,
    }
}

/// Answers GDB of a tenant that is admitted like this.
fn debug<'a, 'x>(
    request: &RunRequest<'a, '_>,
    admission: &Admission<'x>,
    cuts: &Cuts<'x>,
    subject: DebugSubject<'x>,
) -> Result<u8, Failure<'a>>
    requires { 0 < admission.now.terms.pages }
{
    let rt = request.rt;
    match Debuggee::new(rt.alloc(), admission, cuts) {
        Ok(tenant) => {
            let finding = first_finding(request, admission, cuts)?;
            debug_tenant(rt, tenant, subject, finding)
        }
        Err(Obstacle::OutOfMemory) => Err(Failure::Memory),
        Err(Obstacle::Refused(error)) => Ok(refuse(rt, error)),
    }
}

/// Answers GDB of a tenant at its first instruction, up to the end of its packets.
fn debug_tenant<'a, 'x>(
    rt: &HostRuntime,
    tenant: Debuggee<'x>,
    subject: DebugSubject<'x>,
    finding: Option<Finding>,
) -> Result<u8, Failure<'a>> {
    let mut front = Front::new(rt.alloc(), tenant, subject, finding);
    match serve(rt.alloc(), &mut front, &mut rt.stdin(), &mut rt.stdout()) {
        Ok(()) => Ok(0),
        Err(error) => Err(Failure::from(error)),
    }
}
