//! The calls of a tenant's heap over its tagged memory (Scudo, `combined.h`), with a tag for each
//! chunk of a size class.
#![tactic(auto)]

mod abort;
mod allocation;
mod call;
mod checks;
mod chunk;
mod classes;
mod copying;
mod freeing;
mod granules;
mod heap;
mod laws;
mod pages;
mod parts;
mod placing;
mod request;
mod resizing;
mod stacks;
mod tagging;

pub use abort::HeapAbort;
pub use call::HeapCall;
pub use chunk::{Chunk, Found, Place};
pub use heap::Heap;
pub use laws::{
    accesses_keep_the_condition, calls_keep_other_pages, calls_keep_the_condition,
    condition_of_calls,
};
pub use scudo_header::{MAX_ALIGNMENT, MAX_REQUEST, settings_in_digits};
