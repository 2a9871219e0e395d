//! Why a tenant that moved has stopped.

use crate::points::Points;
use debuggee::Hit;

/// Why it has stopped.
#[derive(Clone, Copy)]
pub enum StopReason {
    /// The step was done, or the range was left.
    Step,
    /// A breakpoint was reached.
    Breakpoint,
    /// An access is watched: that of the next instruction where it moved forwards, that of the last
    /// one where it moved backwards.
    Watch(Hit),
    /// It moved back to its first instruction.
    Start,
    /// The next instruction exits, with a code; once, so that one can go back.
    BeforeExit(u8),
    /// It exited, with a code.
    Exit(u8),
    /// It ended otherwise.
    End,
    /// It came to what a check of its run finds first, which ends it.
    Finding,
    /// It had ended before it was to move forwards, otherwise than by an exit, and stayed.
    Ended,
    /// Its slices or its steps are over.
    Limit,
}

/// How far it moves forwards, if nothing stops it before.
#[derive(Clone, Copy, PartialEq, Eq)]
pub enum Until {
    /// One step.
    Step,
    /// Out of the addresses from the first on and below the second.
    Outside(u64, u64),
    /// To a point or its end.
    Point,
}

impl Until {
    /// Why it has stopped with a program counter that it came to, if it does.
    pub fn stop_at(&self, points: &Points, pc: u64) -> Option<StopReason> {
        if *self == Until::Step {
            return Some(StopReason::Step);
        }
        if points.is_breakpoint(pc) {
            return Some(StopReason::Breakpoint);
        }
        match *self {
            Until::Outside(start, end) if pc < start || end <= pc => Some(StopReason::Step),
            _ => None,
        }
    }
}
