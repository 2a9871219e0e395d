//! A debugged tenant that is moved forwards and backwards: by steps, to breakpoints, to accesses
//! that are watched, to its end and its start. And what a user asks of it besides its registers and
//! memory: why it ended, its heap calls, and the chunks that an address was in.
#![tactic(auto)]

mod calls;
mod checkpoints;
mod chunks;
mod points;
mod stop;
mod traveller;
mod ways;
mod why;

pub use calls::tell_calls;
pub use chunks::tell_chunks;
pub use points::Points;
pub use stop::{StopReason, Until};
pub use traveller::Traveller;
pub use why::{DebugSubject, tell_why};
