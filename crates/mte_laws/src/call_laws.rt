//! The laws of the heap's calls: when they make a chunk, what a refused one leaves, and what they
//! clear.

ghost use Rattle.mte_laws.specs.Requests.{MallocsAreAnswered, RefusedCallsChangeNothing};
ghost use Rattle.mte_laws.specs.Clearing.{FreedChunksAreZero, GrownGranulesAreZero};

/// malloc, calloc, and memalign to a power of two up to 4096, make a chunk of a size within the
/// limit, whatever the calls were, where the least class that holds the need has a free block, or
/// the pages of one are left. Where no class holds it they do so if there is a place for its pages,
/// and these are left.
pub fn mallocs_are_answered()
    ensures { MallocsAreAnswered }
{}

/// A call that aborts leaves memory, heap and generator as they were. So does one that makes no
/// chunk, but a reallocation to size 0, which frees.
pub fn refused_calls_change_nothing()
    ensures { RefusedCallsChangeNothing }
{}

/// The bytes of a chunk of a size class are zero after its free, by `free` or `realloc`, to the end
/// of its last granule.
pub fn freed_chunks_are_zero()
    ensures { FreedChunksAreZero }
{}

/// The granules that a reallocation adds to a chunk which stays in its block are zero.
pub fn grown_granules_are_zero()
    ensures { GrownGranulesAreZero }
{}
