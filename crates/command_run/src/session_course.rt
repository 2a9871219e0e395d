//! The events of a session for one of its tenants.

use crate::replay::decide;
use common::Obstacle;
use mte_sched::Host;
use mte_session::{Event, admission_of};
use mte_tenant::{Admission, Terms};
use run_terms::Replay;
use std::alloc::{AllocError, Global};

/// The admission of a session's tenant: its files by their numbers.
#[derive(Clone, Copy)]
pub struct Admitted {
    /// The file with its image.
    pub image: u32,
    /// The file that it may read.
    pub input: u32,
    /// Its seed, reservation, room and tag mode.
    pub terms: Terms,
}

impl Admitted {
    /// The admission with the bytes of its files.
    pub fn admission<'x>(&self, id: u16, files: &'x [Vec<u8>]) -> Admission<'x> {
        admission_of(files, id, self.image, self.input, self.terms)
    }
}

/// The events of a session for one of its tenants.
#[derive(Drop)]
pub struct SessionCourse {
    /// How it is admitted, if it is.
    pub admitted: Option<Admitted>,
    /// The steps of its slices that have any.
    pub slices: Vec<u32>,
}

impl SessionCourse {
    /// The events for the tenant that is replayed. A host that is new decides which of them are
    /// refused.
    pub fn of(
        alloc: Global,
        replay: &Replay,
        events: &[Event],
        files: &[Vec<u8>],
    ) -> Result<SessionCourse, AllocError> {
        let Ok(mut host) = Host::new(alloc, replay.frames) else {
            return Err(AllocError);
        };
        let mut course = SessionCourse {
            admitted: None,
            slices: Vec::new(alloc),
        };
        course.note_all(alloc, &mut host, replay.id, events, files)?;
        Ok(course)
    }

    /// Notes the events that a host accepts.
    fn note_all(
        &mut self,
        alloc: Global,
        host: &mut Host,
        id: u16,
        events: &[Event],
        files: &[Vec<u8>],
    ) -> Result<(), AllocError> {
        for event in events {
            match decide(alloc, host, event, files) {
                Ok(()) => self.note(id, event)?,
                Err(Obstacle::OutOfMemory) => return Err(AllocError),
                Err(Obstacle::Refused(_)) => {}
            }
        }
        Ok(())
    }

    /// Notes an event that was accepted.
    fn note(&mut self, own: u16, event: &Event) -> Result<(), AllocError> {
        match *event {
            Event::Admit {
                id,
                image,
                input,
                terms,
            } if id == own => {
                self.admitted = Some(Admitted {
                    image,
                    input,
                    terms,
                });
            }
            Event::Slice { id, steps } if id == own && steps > 0 => self.slices.push(steps)?,
            _ => {}
        }
        Ok(())
    }
}
