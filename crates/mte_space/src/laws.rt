//! Laws of a tenant's memory, for the layers above.

ghost use Rattle.std.specs.Prelude.{◌≡◌, ◌≢◌, ℕ, ◌-◌, List, Some, option_map, false};
ghost use Rattle.std.specs.FinMap.{get, empty};
ghost use Rattle.mte_arena.specs.Frames.{Frame};
ghost use Rattle.mte_frames.specs.Pool.{Pool, IsSound, KeepsOthers};
ghost use Rattle.mte_tags.specs.Memory.{page_at, with_page, no_pages, pages_left};
ghost use Rattle.mte_tags.specs.declared.attrs.Attrs.{Attrs};
ghost use Rattle.mte_tags.specs.declared.state.TagMode.{TagMode};
ghost use Rattle.mte_tags.specs.declared.state.TagState.{TagState};
ghost use Rattle.mte_translate.specs.Tables.{Root, pages_of, IsTable, IsCached};
ghost use Rattle.mte_translate.specs.declared.translation.Translation.{Translation};
ghost use Rattle.mte_space.specs.Spaces.{page_of, space_memory, IsSpace, NoneEnters};
ghost use Rattle.mte_space.specs.Writes.{with_frame};

/// Where a step keeps all quotas but one, the memory of each other tenant stays, whatever its limit
/// and tag state, and so does the room that its quota has for it. Where no translation of another
/// ASID than the step's came into the lookaside buffer, what it remembers of them is still what
/// their tables map.
pub fn other_tenants_stay()
    ensures memory { (p n : Pool) (j k limit : ℕ) (t : Root) (s : TagState)
        → k ≢ j → KeepsOthers j p n → IsTable p k t
        → space_memory n t limit s ≡ space_memory p t limit s }
    ensures space { (p n : Pool) (j k limit : ℕ) (t : Root)
        → k ≢ j → KeepsOthers j p n → IsSpace p k t limit → IsSpace n k t limit }
    ensures cached { (p n : Pool) (j k asid other : ℕ) (t : Root) (ts us : List Translation)
        → k ≢ j → KeepsOthers j p n → IsTable p k t → other ≢ asid → NoneEnters asid ts us
        → IsCached (pages_of p t.frame) other ts → IsCached (pages_of n t.frame) other us }
{}

/// A tenant's pages are those that its table maps, with the bytes and tags of their frames. There
/// are none where the table maps none.
pub fn pages_of_a_space()
    ensures page { (p : Pool) (q limit : ℕ) (t : Root) (s : TagState)
        → page_at (space_memory p t limit s) q
        ≡ option_map (page_of p) (get (pages_of p t.frame) q) }
    ensures left { (p : Pool) (k limit : ℕ) (t : Root) (s : TagState)
        → IsTable p k t → pages_left (space_memory p t limit s) ≡ limit - t.len }
    ensures none { (p : Pool) (limit : ℕ) (t : Root) (mode : TagMode)
        → pages_of p t.frame ≡ empty
        → space_memory p t limit (record { mode = mode; pending = false })
        ≡ no_pages limit mode }
{}

/// Where the frame of a page is written, with whatever bytes and tags, that page of the tenant has
/// them, all else of its memory stays, and so does what the lookaside buffer remembers.
pub fn written_frames_are_pages()
    ensures memory { (p : Pool) (k q f limit : ℕ) (a : Attrs) (x : Frame) (t : Root) (s : TagState)
        → IsSpace p k t limit → IsSound p → get (pages_of p t.frame) q ≡ Some (f, a)
        → space_memory (with_frame p f x) t limit s
        ≡ with_page (space_memory p t limit s) q
        (record { attrs = a.0; bytes = x.bytes; tags = x.tags }) }
    ensures space { (p : Pool) (k q f limit : ℕ) (a : Attrs) (x : Frame) (t : Root)
        → IsSpace p k t limit → get (pages_of p t.frame) q ≡ Some (f, a)
        → IsSpace (with_frame p f x) k t limit }
    ensures cached { (p : Pool) (k q f asid limit : ℕ) (a : Attrs) (x : Frame) (t : Root)
        (ts : List Translation)
        → IsSpace p k t limit → get (pages_of p t.frame) q ≡ Some (f, a)
        → IsCached (pages_of p t.frame) asid ts
        → IsCached (pages_of (with_frame p f x) t.frame) asid ts }
{}
