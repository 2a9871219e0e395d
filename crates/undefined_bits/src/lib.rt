//! Operations that C and C++ give no result: uses of bits of a tenant's registers and memory that
//! were never given a value, and divisions by 0 and shifts by as many bits as there are, or more,
//! to which the architecture gives a result (Arm ARM DDI 0487, C6.2). For each bit it is kept
//! whether it is undefined and of what it is a part, and what instructions make of that. An
//! undefined bit is judged where it is used, not where it is moved.
#![tactic(auto)]

mod arithmetic_fault;
mod choices;
mod judgement;
mod memory_rules;
mod quick;
mod register_rules;
mod services;
mod state;
mod tag_rules;

pub use arithmetic_fault::{ArithmeticFault, ArithmeticKind};
pub use judgement::{UndefinedUse, UseKind};
pub use services::ServiceArguments;
pub use state::UndefinedBits;
