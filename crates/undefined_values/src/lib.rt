//! Values of which some bits were never given a value: what such bits are a part of, which bits of
//! a result they leave undefined, whether conditions on the flags are defined, and the undefined
//! bits of a tenant's memory.
#![tactic(auto)]

mod bit_memory;
mod bit_page;
mod bit_rules;
mod condition;
mod counts;
mod origin;

pub use bit_memory::BitMemory;
pub use bit_rules::{BitOperand, all_if, and, difference, from_lowest, or, product, sum};
pub use condition::{Comparison, FlagState, SetFlags, undefined_in_sum};
pub use counts::{leading_signs, leading_zeros};
pub use origin::{UndefinedOrigin, UndefinedPlace, UndefinedValue};
