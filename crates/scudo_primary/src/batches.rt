//! How many blocks a batch holds.

ghost use Rattle.std.specs.Prelude.{◌≡◌};
ghost use Rattle.scudo_primary.specs.Batches.{max_count_of};
ghost use Rattle.scudo_primary.specs.Blocks.{IsClass};

use scudo_header::{MAX_COUNT, MAX_COUNT_ABOVE, SMALL_SIZE, size_of_class};

/// The most blocks of a class that a local cache or a batch holds.
#[inline]
pub fn max_count(class: u8) -> usize
    requires class { IsClass class }
    ensures { result ≡ max_count_of class }
{
    if size_of_class(class) <= SMALL_SIZE {
        MAX_COUNT
    } else {
        MAX_COUNT_ABOVE
    }
}
