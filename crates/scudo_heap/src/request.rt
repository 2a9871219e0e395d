//! The request of an allocation.

ghost use Rattle.std.specs.Prelude.{◌≡◌};
ghost use Rattle.scudo_heap.specs.Allocation.{need_of};
ghost use Rattle.scudo_heap.specs.Inner.{IsRequest};

use crate::tagging::granules;
use scudo_header::Origin;

/// The request of an allocation.
#[derive(Clone, Copy)]
pub(crate) struct Request {
    /// The call that asks.
    pub(crate) origin: Origin,
    /// The alignment of the chunk's address.
    pub(crate) align: u64,
    /// The bytes of the chunk.
    pub(crate) size: u64,
}

impl Request {
    /// The bytes that a block must have for it.
    #[inline(always)]
    pub(crate) fn need(&self) -> u64
        requires { IsRequest self.now }
        ensures { result ≡ need_of self.now.align self.now.size }
    {
        16 * granules(self.size) + self.align
    }
}
