//! Why an image is refused, and why a session never admits a tenant.

use crate::replay::decide;
use common::Obstacle;
use mte_sched::Host;
use mte_session::Event;
use mte_tenant::{AdmitError, Refusal, Terms, charge};
use run_terms::{Failure, Replay};
use std::alloc::Global;
use std::fmt;
use tenant_run::{REFUSED, RefusalLines, remedy_of};

/// An admission that is refused.
#[derive(Clone, Copy)]
struct RefusedAdmission {
    /// The number of its event, from 1.
    event: u64,
    error: AdmitError,
    terms: Terms,
    /// The frames that the live tenants leave.
    left: usize,
}

impl fmt::Display for RefusedAdmission {
    fn fmt<W: fmt::Write>(&self, f: &mut fmt::Formatter<W>) -> fmt::Result {
        let (event, error, left) = (self.event, self.error, self.left);
        let Terms { pages, room, .. } = self.terms;
        write!(f, "event {event} is refused: {error}")?;
        match error {
            AdmitError::NoFrames => {
                let wanted = charge(pages);
                write!(f, ": it takes {wanted} frames, and {left} are left")
            }
            AdmitError::ReservationTooSmall => {
                write!(
                    f,
                    ": `frames {pages}` is less than the image's pages and 4 of stack"
                )
            }
            AdmitError::BadReservation => {
                write!(
                    f,
                    ": `frames {pages}` is not 1 to 4096, or `out {room}` is over 65536"
                )
            }
            _ => f.write_str(remedy_of(error)),
        }
    }
}

/// Says why an image is refused, and returns the exit status.
pub fn refuse(rt: &HostRuntime, error: AdmitError) -> u8 {
    let lines = RefusalLines(error);
    let _ = eprint!(rt; "{lines}");
    REFUSED
}

/// Says why a session never admits a tenant, and returns the exit status.
pub fn refuse_unadmitted<'a>(
    rt: &HostRuntime,
    replay: &Replay,
    events: &[Event],
    files: &[Vec<u8>],
) -> Result<u8, Failure<'a>> {
    let id = replay.id;
    match first_refusal(rt.alloc(), replay, events, files)? {
        Some(refused) => {
            let _ = eprintln!(rt; "mte_run: {refused}");
        }
        None => {
            let _ = eprintln!(rt; "mte_run: no event of the script admits a tenant {id}");
        }
    }
    Ok(end_unadmitted(rt))
}

/// Writes that a session never admits a tenant, and returns the exit status.
pub fn end_unadmitted(rt: &HostRuntime) -> u8 {
    let _ = eprintln!(rt; "mte_run: the session never admits the tenant");
    let _ = eprintln!(rt; "mte_run: ended by refusal, status {REFUSED}");
    REFUSED
}

/// The first admission of a tenant, which is refused, if there is one.
fn first_refusal<'a>(
    alloc: Global,
    replay: &Replay,
    events: &[Event],
    files: &[Vec<u8>],
) -> Result<Option<RefusedAdmission>, Failure<'a>> {
    match Host::new(alloc, replay.frames) {
        Ok(mut host) => first_refusal_by(alloc, &mut host, replay.id, events, files),
        Err(_) => Err(Failure::Memory),
    }
}

/// The refusal by a host that has no tenant yet.
fn first_refusal_by<'a>(
    alloc: Global,
    host: &mut Host,
    own: u16,
    events: &[Event],
    files: &[Vec<u8>],
) -> Result<Option<RefusedAdmission>, Failure<'a>> {
    for (before, event) in events.iter().enumerate() {
        let left = host.pool().unreserved();
        match (decide(alloc, host, event, files), terms_of(own, event)) {
            (Err(Obstacle::OutOfMemory), _) => return Err(Failure::Memory),
            (Err(Obstacle::Refused(Refusal::Admit(error))), Some(terms)) => {
                return Ok(Some(RefusedAdmission {
                    event: before as u64 + 1,
                    error,
                    terms,
                    left,
                }));
            }
            _ => {}
        }
    }
    Ok(None)
}

/// The terms of an event that admits the tenant with a number.
fn terms_of(own: u16, event: &Event) -> Option<Terms> {
    match *event {
        Event::Admit { id, terms, .. } if id == own => Some(terms),
        _ => None,
    }
}
