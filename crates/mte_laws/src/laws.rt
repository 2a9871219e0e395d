//! The laws of a heap through careful runs, as `tag_laws` has them: of a tenant in the
//! synchronous mode that stores no tags itself, and whose frees and reallocations name live chunks
//! with the headers that the heap wrote, or nothing that passes the heap's checks. Each law of a
//! state that `Sound` holds of holds of each tenant of a session whose slices were careful
//! (`careful_tenants_are_sound`), and of each machine that its turns come to
//! (`tenants_take_turns`).

ghost use Rattle.mte_laws.specs.NewChunks.{NewChunksAreLive, NewChunksAreZero};
ghost use Rattle.mte_laws.specs.NewChunks.{SizesAndAlignments};
ghost use Rattle.mte_laws.specs.Uses.{ChunksMayBeUsed};
ghost use Rattle.mte_laws.specs.Answers.{AnswersArePointers, AskedBytesMayBeUsed};
ghost use Rattle.mte_laws.specs.OtherChunks.{OtherChunksStay, OtherHeadersStay};
ghost use Rattle.mte_laws.specs.Reallocs.{ReallocKeepsBytes, ReallocFreesBlocks};
ghost use Rattle.mte_laws.specs.Reallocs.{ReallocUnmapsPages, ReallocatedChunksAreLive};
ghost use Rattle.mte_laws.specs.Distances.{OddDistancesDiffer, NeighboursAreOddBlocksApart};
ghost use Rattle.mte_laws.specs.Turns.{TenantsTakeTurns, TurnsStaySound, FreedChunksInTurns};
ghost use Rattle.mte_laws.specs.Lifetimes.{LifetimesAreGuarded, ChunksFreedAtOnce};

/// The chunk that malloc, calloc or memalign makes is live, with the header that the heap wrote, as
/// is the one that a careful reallocation answers. The address of a live chunk is a multiple of 16,
/// that of a new one of memalign's alignment; usable_size answers a live chunk's size.
pub fn new_chunks_are_live()
    ensures chunks { NewChunksAreLive }
    ensures reallocated { ReallocatedChunksAreLive }
    ensures sizes { SizesAndAlignments }
{}

/// The bytes of the chunk that malloc, calloc or memalign makes are zero to the end of its last
/// granule, or of its last page, whatever was there before.
pub fn new_chunks_are_zero()
    ensures { NewChunksAreZero }
{}

/// No read and no write through the pointer to a live chunk faults, checked or not, whose bytes lie
/// in the chunk's granules or, where it has pages of its own, in these.
pub fn chunks_may_be_used()
    ensures { ChunksMayBeUsed }
{}

/// The chunk that malloc, calloc or memalign makes, or a careful realloc answers, has the size that
/// was asked for, or 1 for 0. What the call answers is the pointer to it, with the tag of its
/// granules, and no read and no write through this pointer faults up to the chunk's end. So the
/// bytes that were asked for may be used through an answer that is not null.
pub fn answers_are_pointers()
    ensures chunks { AnswersArePointers }
    ensures asked { AskedBytesMayBeUsed }
{}

/// A careful call leaves each live chunk that it neither frees nor reallocates live, with its bytes
/// and its header.
pub fn other_chunks_stay()
    ensures bytes { OtherChunksStay }
    ensures headers { OtherHeadersStay }
{}

/// A reallocation of a live chunk keeps the bytes that both sizes have, in place or moved, from
/// blocks and from pages of its own, into either.
pub fn reallocations_keep_bytes()
    ensures { ReallocKeepsBytes }
{}

/// A reallocation to size 0, and one that moves the chunk, frees the old one: its block is free or,
/// where it had pages of its own, no mapping of the heap holds them.
pub fn reallocations_free()
    ensures blocks { ReallocFreesBlocks }
    ensures pages { ReallocUnmapsPages }
{}

/// Two live chunks of a size class that lie an odd number of blocks apart have different tags, so
/// that each checked access through the pointer to one of them that touches the other faults.
/// Neighbours are one block apart.
pub fn odd_distances_differ()
    ensures tags { OddDistancesDiffer }
    ensures neighbours { NeighboursAreOddBlocksApart }
{}

/// The machine of a tenant of a session whose slices were careful comes from its first one by
/// careful instructions and the ends of slices, which keep what the laws rest on.
pub fn tenants_take_turns()
    ensures turns { TenantsTakeTurns }
    ensures sound { TurnsStaySound }
{}

/// From the instruction that frees a chunk of a size class until an allocation takes its block,
/// over the ends of slices: each checked access through its pointer that touches its granules
/// faults, and each call that names it aborts while its header stays. The allocation that takes its
/// block and gives out its address has another tag than the free gave.
pub fn freed_chunks_stay_freed()
    ensures { FreedChunksInTurns }
{}

/// The life of a chunk in a tenant of a session, next to any other tenants: malloc makes it, live
/// and zero; it may be used, and not its surroundings; once it is freed it is out of reach and is
/// not freed again; its address is given out with another tag. Wherever malloc makes a chunk in a
/// block, the premises of the laws of freed chunks are met.
pub fn lifetimes_are_guarded()
    ensures lives { LifetimesAreGuarded }
    ensures freed { ChunksFreedAtOnce }
{}
