//! GDB's remote serial protocol over a tenant alone (GDB's documentation, appendix "Remote
//! Protocol"): breakpoints and watchpoints, forwards and backwards. The tenant is only read: what
//! would change it is refused. What GDB asks of the target is answered as text (GDB's
//! documentation, "Target Descriptions", "AArch64 Features", "qXfer", "Host I/O Packets"; proc(5),
//! "smaps").
#![tactic(auto)]

mod description;
mod files;
mod front;
mod link;
mod mappings;
mod memory;
mod moves;
mod parts;
mod points;
mod queries;
mod registers;
mod reply;
mod stops;
mod text;
mod user;

pub use front::Front;
pub use link::serve;
pub use registers::TargetRegisters;
pub use reply::Reply;
