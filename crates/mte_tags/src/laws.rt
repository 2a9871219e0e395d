//! Laws of every memory in each tag mode, for any calls.

ghost use Rattle.std.specs.Prelude.{◌≡◌, ◌≢◌, ◌≤◌, ◌<◌, ◌+◌, ◌-◌, ℕ, Bool, List, Some, None};
ghost use Rattle.mte_tags.specs.Memory.{Memory, with_new_pages, without_pages, with_granules};
ghost use Rattle.mte_tags.specs.Memory.{attrs_at, pages_left, IsFree, ArePages};
ghost use Rattle.mte_tags.specs.Whole.{IsWhole};
ghost use Rattle.mte_tags.specs.Accesses.{read_fault, write_fault, after_read, after_write};
ghost use Rattle.mte_tags.specs.Accesses.{with_bytes_at};
ghost use Rattle.mte_tags.specs.declared.fault.MemFault.{MemFault};

use crate::attrs::Attrs;
use crate::fault::FaultKind;
use crate::state::TagMode;

/// In the synchronous mode no access sets the flag: a read changes nothing, a write its bytes
/// alone.
pub fn flag_stays_in_sync()
    ensures read { (m : Memory) (a n : ℕ) (check : Bool)
        → m.state.mode ≡ TagMode.Sync
        → after_read m a n check ≡ m }
    ensures write { (m : Memory) (a : ℕ) (bytes : List ℕ) (check : Bool)
        → m.state.mode ≡ TagMode.Sync
        → after_write m a bytes check ≡ with_bytes_at m a bytes }
{}

/// In the asynchronous mode no access fails by a tag.
pub fn no_tag_check_in_async()
    ensures read { (m : Memory) (a n : ℕ) (check : Bool) (f : MemFault)
        → m.state.mode ≡ TagMode.Async
        → read_fault m a n check ≡ Some f
        → f.kind ≢ FaultKind.TagCheck }
    ensures write { (m : Memory) (a n : ℕ) (check : Bool) (f : MemFault)
        → m.state.mode ≡ TagMode.Async
        → write_fault m a n check ≡ Some f
        → f.kind ≢ FaultKind.TagCheck }
{}

/// No call changes the mode, and none but a read or a write the flag.
pub fn mode_stays()
    ensures read { (m : Memory) (a n : ℕ) (check : Bool)
        → (after_read m a n check).state.mode ≡ m.state.mode }
    ensures write { (m : Memory) (a : ℕ) (bytes : List ℕ) (check : Bool)
        → (after_write m a bytes check).state.mode ≡ m.state.mode }
    ensures store_tags { (m : Memory) (a n tag : ℕ) (zero : Bool)
        → (with_granules m a n tag zero).state ≡ m.state }
    ensures map { (m : Memory) (page n : ℕ) (attrs : Attrs)
        → (with_new_pages m page n attrs).state ≡ m.state }
    ensures unmap { (m : Memory) (page n : ℕ) → (without_pages m page n).state ≡ m.state }
    ensures load { (m : Memory) (a : ℕ) (bytes : List ℕ)
        → (with_bytes_at m a bytes).state ≡ m.state }
{}

/// The attributes of a page after each call, and how many pages are left then.
pub fn pages_after_calls()
    ensures store_tags { (m : Memory) (a n tag page : ℕ) (zero : Bool)
        → attrs_at (with_granules m a n tag zero) page ≡ attrs_at m page }
    ensures load { (m : Memory) (a page : ℕ) (bytes : List ℕ)
        → attrs_at (with_bytes_at m a bytes) page ≡ attrs_at m page }
    ensures map { (m : Memory) (first n page : ℕ) (attrs : Attrs)
        → first ≤ page
        → page < first + n
        → attrs_at (with_new_pages m first n attrs) page ≡ Some attrs.0 }
    ensures map_others { (m : Memory) (first n page : ℕ) (attrs : Attrs)
        → (first ≤ page → page < first + n → ⊥)
        → attrs_at (with_new_pages m first n attrs) page ≡ attrs_at m page }
    ensures unmap { (m : Memory) (first n page : ℕ)
        → first ≤ page → page < first + n → attrs_at (without_pages m first n) page ≡ None }
    ensures unmap_others { (m : Memory) (first n page : ℕ)
        → (first ≤ page → page < first + n → ⊥)
        → attrs_at (without_pages m first n) page ≡ attrs_at m page }
    ensures store_tags_left { (m : Memory) (a n tag : ℕ) (zero : Bool)
        → pages_left (with_granules m a n tag zero) ≡ pages_left m }
    ensures load_left { (m : Memory) (a : ℕ) (bytes : List ℕ)
        → pages_left (with_bytes_at m a bytes) ≡ pages_left m }
    ensures map_left { (m : Memory) (first n : ℕ) (attrs : Attrs)
        → IsFree m first n
        → pages_left (with_new_pages m first n attrs) ≡ pages_left m - n }
    ensures unmap_left { (m : Memory) (first n : ℕ)
        → pages_left (without_pages m first n) ≤ pages_left m + n }
    ensures unmap_all_left { (m : Memory) (first n : ℕ)
        → IsWhole m
        → ArePages m first n
        → pages_left (without_pages m first n) ≡ pages_left m + n }
{}
