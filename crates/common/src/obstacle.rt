//! Why a call has no result: memory that ran out, or a refusal.

ghost use Rattle.std.specs.Prelude.{◌≡◌};
ghost use Rattle.common.specs.Obstacles.{obstacle_text};
ghost use Rattle.common.specs.declared.obstacle.Obstacle.TheVariants.{OutOfMemory};

use std::alloc::{AllocError, AllocFailed};
use std::error::Error;
use std::fmt;

/// Why a call has no result. A refusal is an answer of the call's own tests, and never
/// says that memory ran out.
#[derive(Clone, Copy, Debug, PartialEq, Eq, Drop)]
pub enum Obstacle<R> {
    /// An allocation failed.
    OutOfMemory,
    /// The request is refused.
    Refused(R),
}

impl<R: fmt::Display> fmt::Display for Obstacle<R> {
    ghost output = { obstacle_text R.output };

    fn fmt<W: fmt::Write>(&self, f: &mut fmt::Formatter<W>) -> fmt::Result {
        match self {
            Obstacle::OutOfMemory => f.write_str("out of memory"),
            Obstacle::Refused(refusal) => refusal.fmt(f),
        }
    }
}

impl<R: Error> Error for Obstacle<R> {}

impl<R> From<AllocError> for Obstacle<R> {
    ghost from_gives = { λ _ o. o ≡ OutOfMemory };

    fn from(_error: AllocError) -> Obstacle<R> {
        Obstacle::OutOfMemory
    }
}

impl<R, T: Drop> From<AllocFailed<T>> for Obstacle<R> {
    ghost from_gives = { λ _ o. o ≡ OutOfMemory };

    fn from(_error: AllocFailed<T>) -> Obstacle<R> {
        Obstacle::OutOfMemory
    }
}
