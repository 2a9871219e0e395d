//! A law of loading, the contract of a function that does nothing.

ghost use Rattle.std.specs.Prelude.{◌≡◌, ℕ, ◌≤◌, ◌<◌, List, None};
ghost use Rattle.mte_tags.specs.Memory.{Memory, page_at, pages_left};
ghost use Rattle.mte_tags.specs.Whole.{IsWhole};
ghost use Rattle.mte_elf.specs.Headers.{segments_of};
ghost use Rattle.mte_elf.specs.Images.{refusal_of, pages_of};
ghost use Rattle.mte_elf.specs.Loading.{with_segments};

/// Where an image may be loaded, it leaves a whole memory whole: no more pages than its limit, each
/// with all its bytes and tags. The limit, the tag mode and the flag stay.
pub fn loading_keeps_memories_whole()
    ensures whole { (file : List ℕ) (m : Memory)
        → refusal_of file ≡ None
        → ((page : ℕ) → page < 65536 → page_at m page ≡ None)
        → pages_of file ≤ pages_left m
        → IsWhole m → IsWhole (with_segments file m (segments_of file)) }
    ensures limit { (file : List ℕ) (m : Memory)
        → (with_segments file m (segments_of file)).limit ≡ m.limit }
    ensures state { (file : List ℕ) (m : Memory)
        → (with_segments file m (segments_of file)).state ≡ m.state }
{}
