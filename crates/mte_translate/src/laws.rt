//! Laws of the translations after each call, for the layers above.

ghost use Rattle.std.specs.Prelude.{◌≡◌, ◌≢◌, ℕ, ◌⊎◌, List, Some, false, All, Contains};
ghost use Rattle.mte_tags.specs.declared.attrs.Attrs.{Attrs};
ghost use Rattle.mte_translate.specs.Translations.{is_for, lookup, with_translation, without};
ghost use Rattle.mte_translate.specs.Translations.{without_asid};
ghost use Rattle.mte_translate.specs.declared.translation.Translation.{Translation};

/// A translation after `fill` was there before, or is the one that was put, which is found.
pub fn fill_adds_its_own()
    ensures stands { (t : Translation) (ts : List Translation)
        → All (λ u. Contains ts u ⊎ (t ≡ u)) (with_translation t ts) }
    ensures found { (t : Translation) (ts : List Translation)
        → lookup t.asid t.page (with_translation t ts) ≡ Some (t.frame, t.attrs) }
{}

/// A translation after `forget` or `forget_all` was there before, and is of another page or ASID.
pub fn forget_drops_its_own()
    ensures page { (asid page : ℕ) (ts : List Translation)
        → All (λ u. Contains ts u × (is_for asid page u ≡ false)) (without asid page ts) }
    ensures asid { (asid : ℕ) (ts : List Translation)
        → All (λ u. Contains ts u × (u.asid ≢ asid)) (without_asid asid ts) }
{}

/// The answer of `lookup` is of a translation that stands.
pub fn lookup_returns_what_stands()
    ensures { (asid page frame : ℕ) (attrs : Attrs) (ts : List Translation)
        → lookup asid page ts ≡ Some (frame, attrs)
        → Contains ts (record { asid = asid; page = page; frame = frame; attrs = attrs }) }
{}
