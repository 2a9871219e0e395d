//! The primary allocator (Scudo, `primary64.h` and `local_cache.h`): for each size class a pool,
//! one stack of free blocks, cut into batches that move to a local cache and back whole, and the
//! cache, some free blocks above the pool's. Both are one stack. Here no block is touched: the
//! stacks are linked through a table outside of the memory.
#![tactic(auto)]

mod batches;
mod cache;
mod laws;
mod lists;
mod per_class;
mod pool;

pub use batches::max_count;
pub use cache::Cache;
pub use laws::{stacks_after_calls, stacks_of_parts};
pub use pool::Primary;
pub use scudo_header::{MAX_COUNT, MAX_COUNT_ABOVE, SMALL_SIZE};
