//! The translation lookaside buffer.

ghost use Rattle.std.specs.Prelude.{◌≡◌, ◌+◌, ◌<◌, ◌≤◌, List, [], ◌∷◌, ◌++◌, length, true};
ghost use Rattle.std.specs.Prelude.{IfSome, IsNone, Some, None};
ghost use Rattle.mte_translate.specs.Translations.{lookup, with_translation, without, without_asid};
ghost use Rattle.mte_translate.specs.Translations.{newest, is_for, IsOneEach};
ghost use Rattle.mte_translate.specs.declared.translation.Translation.{Translation};
ghost use Rattle.mte_translate.specs.Whole.{hashes_of, IsChained};
ghost use Rattle.mte_translate.specs.Windows.{IsPlaceOf};

use crate::chains::Chains;
use crate::standing::{PLACES, Standing};
use crate::translation::{TLB_ENTRIES, Translation};
use mte_tags::Attrs;
use std::marker::Model;

/// At most 64 translations, the oldest first, and at most one of each page of an address space.
#[derive(Drop)]
pub struct Tlb {
    translations: Standing,
    chains: Chains,
}

impl Model for Tlb {
    ghost use Rattle.std.specs.Prelude.{List};
    ghost use Rattle.mte_translate.specs.declared.translation.Translation.{Translation};
    ghost use Rattle.mte_translate.specs.Whole.{IsTlb, translations_of};

    ghost Value = { List Translation };

    ghost view = { translations_of };

    ghost invariant = { IsTlb };
}

impl Tlb {
    /// A buffer in which no translation stands. It takes no memory.
    pub fn new() -> Tlb
        ensures { result ≡ [] }
    {
        Tlb {
            translations: Standing::new(),
            chains: Chains::new(),
        }
    }

    /// How many translations stand: at most 64, and at most one of each page of an address space.
    pub fn len(&self) -> usize
        ensures count { result ≡ length self.now }
        ensures most { result ≤ 64 }
        ensures one_each { IsOneEach self.now }
    {
        self.translations.len()
    }

    /// The frame and the attributes of a page of an address space, or `None` where no translation
    /// stands for them. It looks at the translations of the page's hash alone.
    pub fn lookup(&self, asid: usize, page: u64) -> Option<(usize, Attrs)>
        ensures { result ≡ lookup asid page self.now }
    {
        let place = find(&self.translations, &self.chains, asid, page)?;
        let translation = self.translations.get(place);
        Some((translation.frame, translation.attrs))
    }

    /// Finds a translation by one comparison. It may answer `None` for one that is there, but not
    /// for the one that was put last.
    #[inline(always)]
    pub fn quick_lookup(&self, asid: usize, page: u64) -> Option<(usize, Attrs)>
        ensures found { IfSome result (λ found. lookup asid page self.now ≡ Some found) }
        ensures newest { (ts : List Translation) (t : Translation)
            → self.now ≡ ts ++ t ∷ [] → is_for asid page t ≡ true
            → result ≡ Some (t.frame, t.attrs) }
    {
        let end = self.chains.end(asid, page);
        if end <= self.translations.first() {
            return None;
        }
        let newest = self.translations.get(end - 1);
        if newest.is_for(asid, page) {
            Some((newest.frame, newest.attrs))
        } else {
            None
        }
    }

    /// Puts a translation last. An older one of its page and ASID is dropped, or else, where 64
    /// stand, the oldest.
    pub fn fill(&mut self, asid: usize, page: u64, frame: usize, attrs: Attrs)
        ensures { self.new
            ≡ with_translation
            (record { asid = asid; page = page; frame = frame; attrs = attrs }) self.old }
    {
        self.forget(asid, page);
        self.add(asid, page, frame, attrs);
    }

    /// Puts a translation last, of a page and an ASID that have none.
    pub fn add(&mut self, asid: usize, page: u64, frame: usize, attrs: Attrs)
        requires { lookup asid page self.old ≡ None }
        ensures { self.new
            ≡ with_translation
            (record { asid = asid; page = page; frame = frame; attrs = attrs }) self.old }
    {
        make_room(&mut self.translations, &mut self.chains);
        self.chains.push(self.translations.end(), asid, page);
        self.translations.push(Translation {
            asid,
            page,
            frame,
            attrs,
        });
    }

    /// Drops the translation of a page of an address space, if one stands. The others keep their
    /// order.
    pub fn forget(&mut self, asid: usize, page: u64)
        ensures { self.new ≡ without asid page self.old }
    {
        let Some(place) = find(&self.translations, &self.chains, asid, page) else {
            return;
        };
        self.chains.remove(place, self.translations.end());
        self.translations.remove(place);
    }

    /// Drops all translations of an address space. The others keep their order.
    pub fn forget_all(&mut self, asid: usize)
        ensures { self.new ≡ without_asid asid self.old }
    {
        self.translations.move_to_front();
        self.translations
            .retain(|translation| translation.asid != asid);
        self.chains.rebuild(self.translations.as_slice());
    }
}

/// The place of the translation of a page, if one stands. It looks at the translations of the
/// page's hash alone.
#[inline]
fn find(translations: &Standing, chains: &Chains, asid: usize, page: u64) -> Option<usize>
    requires chained { IsChained translations.now.first chains.now.heads chains.now.gaps
        (hashes_of translations.now.items) }
    ensures found { IfSome result (λ place. IsPlaceOf asid page translations.now place) }
    ensures none { IsNone result → lookup asid page translations.now.items ≡ None }
{
    let mut end = chains.end(asid, page);
    while end > translations.first() {
        if translations.get(end - 1).is_for(asid, page) {
            return Some(end - 1);
        }
        end = chains.end_before(end - 1);
    }
    None
}

/// Drops the oldest where 64 stand, and sees to it that a place after the newest is left.
fn make_room(translations: &mut Standing, chains: &mut Chains)
    requires chained { IsChained translations.old.first chains.old.heads chains.old.gaps
        (hashes_of translations.old.items) }
    ensures chained { IsChained translations.new.first chains.new.heads chains.new.gaps
        (hashes_of translations.new.items) }
    ensures items { translations.new.items ≡ newest 63 translations.old.items }
    ensures room { length translations.new.items < 64 }
    ensures place { translations.new.first + length translations.new.items < 128 }
{
    if translations.len() == TLB_ENTRIES {
        translations.drop_oldest();
    }
    if translations.end() == PLACES {
        chains.move_to_front(translations.first());
        translations.move_to_front();
    }
}
