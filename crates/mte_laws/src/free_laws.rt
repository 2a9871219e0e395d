//! The laws of a second free, of a changed header, and of calls by a stale pointer.

ghost use Rattle.mte_laws.specs.Frees.{DoubleFreesAbort, FreedHeadersStay};
ghost use Rattle.mte_laws.specs.LargeChunks.{LargeDoubleFreesAbort};
ghost use Rattle.mte_laws.specs.ChangedHeaders.{ChangedHeadersAreRefused};
ghost use Rattle.mte_laws.specs.StaleCalls.{StaleCallsAreServed};

/// After the free of a chunk of a size class, by `free` or `realloc`, each call that names its
/// address, by whatever tag, aborts and changes nothing: directly after the free, and later in a
/// careful run until an allocation takes its block, while its header is the one that the free
/// wrote. It is that one as long as no step but a heap call writes it.
pub fn double_frees_abort()
    ensures { DoubleFreesAbort }
{}

/// A careful call leaves the header of a freed chunk of a size class whose block it does not take.
pub fn freed_headers_stay()
    ensures { FreedHeadersStay }
{}

/// After the free of a chunk with pages of its own each call that names its address, by whatever
/// tag, aborts and changes nothing: directly after the free, and until the page of its header is
/// mapped again.
pub fn large_double_frees_abort()
    ensures { LargeDoubleFreesAbort }
{}

/// Where a pointer passes the checks, and then one byte of its chunk's header is changed, each call
/// that names it aborts: no other value of one of the eight bytes has the right checksum.
pub fn changed_headers_are_refused()
    ensures { ChangedHeadersAreRefused }
{}

/// `free`, `realloc` and `usable_size` go by a pointer's address, not by its tag. So a free by a
/// stale pointer whose block was taken again frees the new owner's chunk, with no fault and no
/// abort: each checked access through the owner's pointer to its granules then faults, and its own
/// free aborts.
pub fn stale_calls_are_served()
    ensures { StaleCallsAreServed }
{}
