//! The laws of careful runs: of a heap in the synchronous mode whose user stores no tags itself,
//! and whose frees and reallocations name live chunks with the headers that the heap wrote, or
//! nothing that passes the heap's checks, as the null pointer. They say nothing of accesses that
//! are not checked, of a pointer older than one reuse of its block, or of the bytes of a chunk's
//! last granule past its size. No tenant is in them: that each state of one is such a state, and
//! what these laws say of it, is in `tenant_laws`.

ghost use Rattle.mte_laws.specs.Discipline.{StartsSound, StaysSound};
ghost use Rattle.mte_laws.specs.Discipline.{FreedBlocksAreRefused, FreedPagesAreUnmapped};
ghost use Rattle.mte_laws.specs.Discipline.{NewTagsDiffer, NeighboursDiffer, ChunksAreTagged};
ghost use Rattle.mte_laws.specs.Discipline.{FreedBlocksAreFree, FreedPagesAreRefused};
ghost use Rattle.mte_laws.specs.Discipline.{ChunksAreApart, ChunksAreGuarded};
ghost use Rattle.mte_laws.specs.Discipline.{ReusedTagsDiffer};
ghost use Rattle.mte_laws.specs.OtherTags.{OtherTagsAreRefused, FreedTagsDiffer};
ghost use Rattle.mte_laws.specs.LargeChunks.{LargeChunksAreGuarded};
ghost use Rattle.mte_laws.specs.DrawnTags.{AllowedTagsAreDrawn};

/// The premises of the other laws hold of a new heap, and after each step of a careful run.
pub fn careful_runs_are_sound()
    ensures start { StartsSound }
    ensures run { StaysSound }
{}

/// From the free of a chunk of a size class, by `free` or `realloc`, until an allocation takes its
/// block, each checked access through the pointer to it that touches one of its granules faults,
/// whatever careful steps come between. A `free` leaves its block free. Where a chunk had pages of
/// its own, no mapping of the heap holds them after its free or its move.
pub fn freed_chunks_are_refused()
    ensures blocks { FreedBlocksAreRefused }
    ensures free { FreedBlocksAreFree }
    ensures pages { FreedPagesAreUnmapped }
{}

/// A new chunk of a size class, also one that a reallocation makes, has a tag other than 0 and
/// other than the one that the granule where it begins had.
pub fn new_tags_differ()
    ensures { NewTagsDiffer }
{}

/// The granules of a live chunk have the tag of the pointer to it: 0 where it has pages of its own.
pub fn chunks_are_tagged()
    ensures { ChunksAreTagged }
{}

/// Live chunks in neighbouring blocks of a size class have different tags, so that each checked
/// access through the pointer to one of them that touches the other faults.
pub fn neighbours_differ()
    ensures { NeighboursDiffer }
{}

/// No two live chunks overlap.
pub fn chunks_are_apart()
    ensures { ChunksAreApart }
{}

/// Each checked access through the pointer to a live chunk of a size class that touches the granule
/// just before or just after it faults.
pub fn chunks_are_guarded()
    ensures { ChunksAreGuarded }
{}

/// The first allocation that takes the block of a freed chunk, where it gives out the same address,
/// has another tag than the one that the free gave, whatever careful steps come between.
pub fn reused_tags_differ()
    ensures { ReusedTagsDiffer }
{}

/// Each access, a fetch and a load or store of tags too, to an address of the range of chunks with
/// pages of their own that no mapping of the heap holds faults: so from the free or the move of
/// such a chunk until its pages are mapped again.
pub fn freed_pages_are_refused()
    ensures { FreedPagesAreRefused }
{}

/// Each checked access by another tag than a live chunk's that touches one of its granules faults:
/// by tag 0 too where it is of a size class, and by each tag but 0 where it has pages of its own.
pub fn other_tags_are_refused()
    ensures { OtherTagsAreRefused }
{}

/// The tag that a free gives the granules of a chunk of a size class is neither 0 nor the chunk's.
/// Until an allocation takes the block, each checked access by another tag than this that touches
/// one of them faults.
pub fn freed_tags_differ()
    ensures { FreedTagsDiffer }
{}

/// Each read and each write, checked or not, of the page just before or just after the pages of a
/// live chunk that has its own faults.
pub fn large_chunks_are_guarded()
    ensures { LargeChunksAreGuarded }
{}

/// From each last tag, each tag that a mask allows is drawn by some seed, if the mask excludes one,
/// as all of the heap's do. So malloc gives a chunk of a size class each tag that is allowed at its
/// place, by some seed.
pub fn allowed_tags_are_drawn()
    ensures { AllowedTagsAreDrawn }
{}
