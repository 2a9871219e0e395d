//! The translations that stand in a buffer, the oldest first.

ghost use Rattle.std.specs.Prelude.{◌≡◌, ℕ, ◌+◌, ◌-◌, ◌<◌, ◌≤◌, Bool, [], ◌∷◌, ◌++◌, length};
ghost use Rattle.std.specs.Prelude.{drop, filter, slice_index_or};
ghost use Rattle.std.specs.Fn.{FnReturnsAt};
ghost use Rattle.std.specs.List.{remove};
ghost use Rattle.mte_translate.specs.Windows.{IsAt};
ghost use Rattle.mte_translate.specs.declared.translation.Translation.{Translation};

use crate::translation::{TLB_ENTRIES, Translation};
use std::marker::Model;

/// Twice as many as stand at most. So all move to the front at most once in 64 pushes.
pub(crate) const PLACES: usize = 2 * TLB_ENTRIES;

/// At most 64 translations, in the order in which they were put: a window over a longer row. A new
/// one extends it, and the oldest leaves it, while all others stay where they are.
#[derive(Drop)]
pub(crate) struct Standing {
    places: [Translation; PLACES],
    /// The place of the oldest.
    first: usize,
    /// The place after the newest.
    end: usize,
}

impl Model for Standing {
    ghost use Rattle.std.specs.Prelude.{◌≡◌, ◌-◌, ◌≤◌, length, drop, take};
    ghost use Rattle.mte_translate.specs.Windows.{Window};

    ghost Value = { Window };

    ghost view = { λ s. record {
      first = s.first;
      items = take (s.end - s.first) (drop s.first s.places);
    } };

    ghost invariant = { λ s. (s.first ≤ s.end) × (s.end - s.first ≤ 64) × (s.end ≤ 128)
        × (length s.places ≡ 128) };
}

impl Standing {
    pub(crate) fn new() -> Standing
        ensures first { result.first ≡ 0 }
        ensures items { result.items ≡ [] }
    {
        Standing {
            places: [Translation::default(); PLACES],
            first: 0,
            end: 0,
        }
    }

    #[inline]
    pub(crate) fn len(&self) -> usize
        ensures count { result ≡ length self.now.items }
        ensures most { result ≤ 64 }
    {
        self.end - self.first
    }

    /// The place of the oldest.
    #[inline(always)]
    pub(crate) fn first(&self) -> usize
        ensures { result ≡ self.now.first }
    {
        self.first
    }

    /// The place after the newest.
    #[inline]
    pub(crate) fn end(&self) -> usize
        ensures end { result ≡ self.now.first + length self.now.items }
        ensures most { result ≤ 128 }
        ensures few { length self.now.items ≤ 64 }
    {
        self.end
    }

    /// The translation at a place.
    #[inline(always)]
    pub(crate) fn get(&self, place: usize) -> Translation
        requires { IsAt self.now place }
        ensures value { (d : Translation)
            → result ≡ slice_index_or self.now.items (place - self.now.first) d }
        ensures most { place < 128 }
    {
        let places = &self.places;
        places[place]
    }

    pub(crate) fn as_slice(&self) -> &[Translation]
        ensures items { result.now ≡ self.now.items }
        ensures most { length result.now ≤ 64 }
    {
        &self.places[self.first..self.end]
    }

    /// Puts a translation last.
    pub(crate) fn push(&mut self, translation: Translation)
        requires few { length self.old.items < 64 }
        requires place { self.old.first + length self.old.items < 128 }
        ensures first { self.new.first ≡ self.old.first }
        ensures items { self.new.items ≡ self.old.items ++ translation ∷ [] }
    {
        self.places[self.end] = translation;
        self.end += 1;
    }

    pub(crate) fn drop_oldest(&mut self)
        requires { 0 < length self.old.items }
        ensures first { self.new.first ≡ self.old.first + 1 }
        ensures items { self.new.items ≡ drop 1 self.old.items }
    {
        self.first += 1;
    }

    /// Moves all to the front of the row.
    pub(crate) fn move_to_front(&mut self)
        ensures first { self.new.first ≡ 0 }
        ensures items { self.new.items ≡ self.old.items }
    {
        self.places.copy_within(self.first..self.end, 0);
        self.end -= self.first;
        self.first = 0;
    }

    /// Drops the translation at a place. All younger ones move down by one place.
    pub(crate) fn remove(&mut self, place: usize)
        requires { IsAt self.old place }
        ensures first { self.new.first ≡ self.old.first }
        ensures items { (i : ℕ) → self.old.first + i ≡ place
            → self.new.items ≡ remove self.old.items i }
    {
        self.places.copy_within(place + 1..self.end, place);
        self.end -= 1;
    }

    /// Keeps those that a test passes, in their order.
    pub(crate) fn retain<F: Fn(&Translation) -> bool>(&mut self, keeps: F)
        requires callable { F.IsAlwaysCallable keeps }
        requires front { self.old.first ≡ 0 }
        ensures first { self.new.first ≡ 0 }
        ensures items { (test : Translation → Bool)
            → ((t : Translation) (b : Bool) → FnReturnsAt F.Fn keeps t b → b ≡ test t)
            → self.new.items ≡ filter test self.old.items }
    {
        let mut kept = 0;
        for place in 0..self.end {
            let translation = self.places[place];
            if keeps(&translation) {
                self.places[kept] = translation;
                kept += 1;
            }
        }
        self.end = kept;
    }
}
