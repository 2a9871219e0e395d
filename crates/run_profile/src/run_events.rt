//! What happens in a run beside its branches: slices, services, and its end.

use mte_svc::{Status, TenantParts};
use std::alloc::Global;

/// How many are kept.
const MOST_EVENTS: usize = 65_536;

/// What happens.
#[derive(Clone, Copy)]
pub enum EventKind {
    /// A slice begins.
    Slice,
    /// A service was done, after which the tenant goes on: its number.
    Service(u64),
    /// The tenant ended: in a word.
    End(&'static str),
}

/// Something that happens, after some steps.
#[derive(Clone, Copy)]
pub struct RunEvent {
    /// The steps up to it.
    pub step: u64,
    /// What it is.
    pub kind: EventKind,
}

impl RunEvent {
    /// The service or the end of an attempt after which there is no next instruction.
    fn of(parts: &TenantParts) -> RunEvent {
        let kind = match &parts.history.status {
            Status::Running => EventKind::Service(parts.regs.x[8]),
            Status::Exited(_) => EventKind::End("exit"),
            Status::Faulted(_, _) => EventKind::End("fault"),
            Status::Illegal(_, _) => EventKind::End("illegal"),
            Status::Breakpoint(_, _) => EventKind::End("break"),
            Status::AsyncTag(_) => EventKind::End("async"),
            Status::Aborted(_, _, _) => EventKind::End("abort"),
            Status::Stopped => EventKind::End("stopped"),
        };
        RunEvent {
            step: parts.history.steps,
            kind,
        }
    }
}

/// The first events of a run.
#[derive(Drop)]
pub struct RunEvents {
    events: Vec<RunEvent>,
    /// How many more there were.
    pub missed: u64,
}

impl RunEvents {
    /// No events.
    pub fn new(alloc: Global) -> RunEvents {
        RunEvents {
            events: Vec::new(alloc),
            missed: 0,
        }
    }

    /// Those that are kept, in their order.
    pub fn events(&self) -> &[RunEvent] {
        self.events.as_slice()
    }

    /// A slice begins after some steps.
    pub fn begin_slice(&mut self, step: u64) {
        self.note(RunEvent {
            step,
            kind: EventKind::Slice,
        });
    }

    /// Notes the service or the end of an attempt after which there is no next instruction.
    pub fn note_attempt(&mut self, parts: &TenantParts) {
        self.note(RunEvent::of(parts));
    }

    /// Keeps an event while there is room.
    fn note(&mut self, event: RunEvent) {
        if self.events.len() >= MOST_EVENTS || self.events.push(event).is_err() {
            self.missed = self.missed.saturating_add(1);
        }
    }
}
