//! Whether a tenant's loads and stores keep to the bytes of its chunks.
#![tactic(auto)]

mod blocks;
mod bounds;
mod call_text;
mod calls;
mod live_bytes;
mod near_bounds;
mod span;

pub use blocks::{Block, RangeUse};
pub use bounds::{Bounds, Trespass};
pub use call_text::CallText;
pub use calls::{Allocation, freed_by, made_by};
pub use near_bounds::NearBounds;
pub use span::{Span, span_of};
