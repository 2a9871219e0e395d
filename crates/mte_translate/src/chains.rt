//! Which translations have the hash of a page, from the newest to the oldest.

ghost use Rattle.std.specs.Prelude.{◌≡◌, ℕ, ◌+◌, ◌-◌, ◌<◌, ◌≤◌, List, [], ◌∷◌, ◌++◌, length};
ghost use Rattle.std.specs.Prelude.{slice_index};
ghost use Rattle.std.specs.List.{remove};
ghost use Rattle.mte_translate.specs.Windows.{IsBefore, IsHeadWithout, IsGapWithout};
ghost use Rattle.mte_translate.specs.Whole.{hash_of, hashes_of, IsChained};

use crate::standing::PLACES;
use crate::translation::Translation;

const HASHES: usize = 256;

/// The translations of each hash, as a chain from the newest to the oldest.
#[derive(Drop)]
pub(crate) struct Chains {
    /// For each hash the place after its newest translation, or one that is not after any that
    /// stands.
    heads: [u8; HASHES],
    /// For each translation how many of other hashes stand between it and the next older one of its
    /// own, or at least all that are older where it is the oldest of its hash. What lies at other
    /// places says nothing.
    gaps: [u8; PLACES],
}

impl Chains {
    pub(crate) fn new() -> Chains
        ensures { IsChained 0 result.heads result.gaps [] }
    {
        Chains {
            heads: [0; HASHES],
            gaps: [0; PLACES],
        }
    }

    /// The place after the newest translation of the page's hash; where none stands, at most the
    /// place of the oldest of all.
    #[inline]
    pub(crate) fn end(&self, asid: usize, page: u64) -> usize
        ensures { result ≡ slice_index self.now.heads (hash_of asid page) }
    {
        self.heads[hash(asid, page)] as usize
    }

    /// The place after the next older translation of the hash of that at a place; where none
    /// stands, at most the place of the oldest of all.
    pub(crate) fn end_before(&self, place: usize) -> usize
        requires { place < 128 }
        ensures { result ≡ place - slice_index self.now.gaps place }
    {
        place.saturating_sub(self.gaps[place] as usize)
    }

    /// A translation of the page comes last, at `place`.
    pub(crate) fn push(&mut self, place: usize, asid: usize, page: u64)
        requires { place < 128 }
        ensures { (first : ℕ) (hs : List ℕ) → first + length hs ≡ place
            → IsChained first self.old.heads self.old.gaps hs
            → IsChained first self.new.heads self.new.gaps (hs ++ hash_of asid page ∷ []) }
    {
        let head = &mut self.heads[hash(asid, page)];
        self.gaps[place] = (place as u8).saturating_sub(*head);
        *head = place as u8 + 1;
    }

    /// All translations move to the front of the row, those at `first` and on.
    pub(crate) fn move_to_front(&mut self, first: usize)
        requires { first ≤ 128 }
        ensures { (hs : List ℕ) → first + length hs ≤ 128
            → IsChained first self.old.heads self.old.gaps hs
            → IsChained 0 self.new.heads self.new.gaps hs }
    {
        self.gaps.copy_within(first.., 0);
        for head in self.heads.iter_mut() {
            *head = head.saturating_sub(first as u8);
        }
    }

    /// The translation at `place` goes, and all younger ones, before `end`, move down by one.
    pub(crate) fn remove(&mut self, place: usize, end: usize)
        requires { IsBefore place end }
        ensures { (first i : ℕ) (hs : List ℕ)
            → first + i ≡ place → first + length hs ≡ end → length hs ≤ 64
            → IsChained first self.old.heads self.old.gaps hs
            → IsChained first self.new.heads self.new.gaps (remove hs i) }
    {
        self.remove_from_heads(place);
        self.remove_from_gaps(place, end);
    }

    /// Heads that name the place, or a younger one, are mended.
    fn remove_from_heads(&mut self, place: usize)
        requires { place < 128 }
        ensures gaps { self.new.gaps ≡ self.old.gaps }
        ensures heads { (h : ℕ)
            → IsHeadWithout place (place - slice_index self.old.gaps place)
            (slice_index self.old.heads h) (slice_index self.new.heads h) }
    {
        let end = self.end_before(place) as u8;
        for head in self.heads.iter_mut() {
            *head = head_without(place as u8, end, *head);
        }
    }

    /// The gaps of the younger ones move down, those mended that lead to the place or across it.
    fn remove_from_gaps(&mut self, place: usize, end: usize)
        requires { IsBefore place end }
        ensures heads { self.new.heads ≡ self.old.heads }
        ensures older { (i : ℕ) → i < place
            → slice_index self.new.gaps i ≡ slice_index self.old.gaps i }
        ensures younger { (i : ℕ) → place ≤ i → i + 1 < end
            → IsGapWithout (i - place) (slice_index self.old.gaps place)
            (slice_index self.old.gaps (i + 1)) (slice_index self.new.gaps i) }
    {
        let older_gap = self.gaps[place];
        for younger in place + 1..end {
            let between = (younger - place - 1) as u8;
            self.gaps[younger - 1] = gap_without(between, older_gap, self.gaps[younger]);
        }
    }

    /// Other translations stand, these, from the front of the row on.
    pub(crate) fn rebuild(&mut self, translations: &[Translation])
        requires { length translations.now ≤ 64 }
        ensures { IsChained 0 self.new.heads self.new.gaps (hashes_of translations.now) }
    {
        *self = Chains::new();
        for place in 0..translations.len() {
            let translation = translations[place];
            self.push(place, translation.asid, translation.page);
        }
    }
}

/// The head of a chain once the translation at `place` went, after whose next older one is `end`.
#[inline]
fn head_without(place: u8, end: u8, head: u8) -> u8
    ensures { IsHeadWithout place end head result }
{
    if head <= place {
        head
    } else if head - 1 == place {
        end
    } else {
        head - 1
    }
}

/// The gap of a translation once an older one went, with `between` between the two, whose
/// gap was `older_gap`. Where it led to that one, it leads on to the next; 255 is beyond the
/// oldest.
#[inline]
fn gap_without(between: u8, older_gap: u8, gap: u8) -> u8
    ensures { IsGapWithout between older_gap gap result }
{
    if gap > between {
        gap - 1
    } else if gap == between {
        gap.saturating_add(older_gap)
    } else {
        gap
    }
}

/// Pages that lie side by side, the first pages of the regions of neighbouring size classes, and
/// the same page of neighbouring ASIDs have hashes of their own.
#[inline]
fn hash(asid: usize, page: u64) -> usize
    ensures value { result ≡ hash_of asid page }
    ensures most { result < 256 }
{
    let of_page = page % 256 + page / 1024 % 256;
    ((of_page + asid as u64 % 256 * 67) % 256) as usize
}
