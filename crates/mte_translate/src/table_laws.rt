//! Laws of a table and of its frames, for the layers above.

ghost use Rattle.std.specs.Prelude.{◌≡◌, ◌≢◌, ◌↔◌, ℕ, ◌+◌, ◌/◌, ◌<◌, ◌≤◌, List, Option, Some, None};
ghost use Rattle.std.specs.Prelude.{true, get_or, slice_set};
ghost use Rattle.std.specs.FinMap.{get, insert, remove};
ghost use Rattle.mte_arena.specs.Frames.{Frame};
ghost use Rattle.mte_frames.specs.Pool.{Pool, make_pool, IsHeldBy, KeepsOthers};
ghost use Rattle.mte_tags.specs.declared.attrs.Attrs.{Attrs};
ghost use Rattle.mte_translate.specs.Tables.{Pages, Root, pages_of, has_leaf, IsApart, IsTable};
ghost use Rattle.mte_translate.specs.Tables.{MapsNever, IsCached, Stays, translation_at};
ghost use Rattle.mte_translate.specs.Translations.{lookup, with_translation, without, without_asid};
ghost use Rattle.mte_translate.specs.declared.translation.Translation.{Translation};

use crate::entries::TABLE_PAGES;

/// The map of a table's pages has what two loads find: the entry of the root, and the leaf's.
pub fn pages_are_walks()
    ensures below { (p : Pool) (root q : ℕ)
        → q < TABLE_PAGES → get (pages_of p root) q ≡ translation_at p root q }
    ensures past { (p : Pool) (root q : ℕ)
        → TABLE_PAGES ≤ q → get (pages_of p root) q ≡ None }
{}

/// A table's root and the frames of its pages are out under its quota, and the frames of pages
/// aren't the table's own.
pub fn frames_of_tables()
    ensures root { (p : Pool) (k : ℕ) (t : Root) → IsTable p k t → IsHeldBy p t.frame k }
    ensures pages { (p : Pool) (k q f : ℕ) (a : Attrs) (t : Root)
        → IsTable p k t → get (pages_of p t.frame) q ≡ Some (f, a)
        → (q < TABLE_PAGES) × IsHeldBy p f k × IsApart p t.frame f }
{}

/// A leaf is there if and only if one of its 512 pages is mapped, so there are no more leaves than
/// pages.
pub fn leaves_are_used()
    ensures leaf { (p : Pool) (k q : ℕ) (t : Root)
        → IsTable p k t → q < TABLE_PAGES
        → (has_leaf p t.frame q ≡ true)
        ↔ ((r : ℕ) × (r / 512 ≡ q / 512) × (get (pages_of p t.frame) r ≢ None)) }
    ensures few { (p : Pool) (k : ℕ) (t : Root) → IsTable p k t → t.leaves ≤ t.len }
    ensures most { (p : Pool) (k : ℕ) (t : Root) → IsTable p k t → t.len ≤ TABLE_PAGES }
{}

/// A table stays, and maps what it mapped: where what is done keeps all other quotas (`others`);
/// where a frame that isn't its own is written (`written`), and that may be a page's; where a frame
/// is taken under its quota (`taken`), which is then neither its own nor a page's; where a frame is
/// given back that is neither (`given`).
pub fn tables_stay()
    ensures others { (p n : Pool) (j k : ℕ) (t : Root)
        → k ≢ j → KeepsOthers j p n → IsTable p k t → Stays k t p n }
    ensures written { (p : Pool) (k f : ℕ) (c : Option Frame) (t : Root)
        → IsApart p t.frame f → IsTable p k t
        → Stays k t p
        (make_pool p.capacities (slice_set p.frames f c) p.owners p.reserved p.taken) }
    ensures taken { (p : Pool) (k f : ℕ) (c : Option Frame) (ts : List ℕ) (t : Root)
        → get_or p.owners f (Some 0) ≡ None → IsTable p k t
        → Stays k t p
        (make_pool p.capacities (slice_set p.frames f c) (slice_set p.owners f (Some k))
        p.reserved ts)
        × IsApart p t.frame f × MapsNever (pages_of p t.frame) f }
    ensures given { (p : Pool) (k f : ℕ) (ts : List ℕ) (t : Root)
        → IsApart p t.frame f → MapsNever (pages_of p t.frame) f → IsTable p k t
        → Stays k t p
        (make_pool p.capacities p.frames (slice_set p.owners f None) p.reserved ts) }
{}

/// Cached translations of an ASID stay those of its pages: where a page is mapped that was not
/// (`mapped`), with no call; where a page is unmapped and forgotten (`unmapped`); after a `fill` of
/// a translation that is the page's (`filled`), or of another ASID (`beside`); after `forget` and
/// `forget_all` (`forgotten`, `forgotten_all`). None are cached after `forget_all` of the ASID
/// (`none`). What `lookup` then returns is the page's translation (`found`).
pub fn cached_translations_stay()
    ensures mapped { (m : Pages) (asid q f : ℕ) (a : Attrs) (ts : List Translation)
        → get m q ≡ None → IsCached m asid ts → IsCached (insert m q (f, a)) asid ts }
    ensures unmapped { (m : Pages) (asid q : ℕ) (ts : List Translation)
        → IsCached m asid ts → IsCached (remove m q) asid (without asid q ts) }
    ensures filled { (m : Pages) (asid : ℕ) (t : Translation) (ts : List Translation)
        → get m t.page ≡ Some (t.frame, t.attrs) → IsCached m asid ts
        → IsCached m asid (with_translation t ts) }
    ensures beside { (m : Pages) (asid : ℕ) (t : Translation) (ts : List Translation)
        → t.asid ≢ asid → IsCached m asid ts → IsCached m asid (with_translation t ts) }
    ensures forgotten { (m : Pages) (asid other q : ℕ) (ts : List Translation)
        → IsCached m asid ts → IsCached m asid (without other q ts) }
    ensures forgotten_all { (m : Pages) (asid other : ℕ) (ts : List Translation)
        → IsCached m asid ts → IsCached m asid (without_asid other ts) }
    ensures none { (m : Pages) (asid : ℕ) (ts : List Translation)
        → IsCached m asid (without_asid asid ts) }
    ensures found { (m : Pages) (asid q f : ℕ) (a : Attrs) (ts : List Translation)
        → IsCached m asid ts → lookup asid q ts ≡ Some (f, a) → get m q ≡ Some (f, a) }
{}
