//! How a run ends.

ghost use Rattle.std.specs.Prelude.{◌≡◌};
ghost use Rattle.a64_run.specs.Stops.{stop_of};

use a64_step::{Outcome, Stop};

/// How a run ended that does not go on.
pub fn stop_at(outcome: Outcome, left: u64) -> Stop
    ensures { result ≡ stop_of outcome left }
{
    let outcome = match outcome {
        Outcome::Next => None,
        outcome => Some(outcome),
    };
    Stop { outcome, left }
}
