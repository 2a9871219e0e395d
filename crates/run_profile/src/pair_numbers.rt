//! Numbers of pairs, which a table of hashes finds.

use std::alloc::{AllocError, Global};

/// How many places are looked at for a pair: a tenant chooses its addresses, and so how many pairs
/// have one hash.
const PROBES: usize = 64;

/// The places of an empty table.
const FIRST_PLACES: usize = 1_024;

/// The most pairs.
const MOST_PAIRS: usize = 1_048_576;

/// Two numbers.
#[derive(Clone, Copy, PartialEq, Eq)]
pub struct NumberPair {
    pub first: u64,
    pub second: u64,
}

/// Pairs, each with a number: from 0 on in the order in which they are entered.
#[derive(Drop)]
pub struct PairNumbers {
    alloc: Global,
    /// For each place the number and 1 of a pair, or 0 for none. They are a power of two.
    places: Vec<u32>,
    pairs: Vec<NumberPair>,
}

/// Where a pair is in a table.
#[derive(Clone, Copy)]
enum PairPlace {
    /// At this number.
    Known(usize),
    /// It may be entered at this place.
    Free(usize),
    /// Nowhere.
    None,
}

impl PairNumbers {
    /// No pairs.
    pub fn new(alloc: Global) -> Result<PairNumbers, AllocError> {
        Ok(PairNumbers {
            alloc,
            places: vec![in alloc; 0u32; FIRST_PLACES]?,
            pairs: Vec::new(alloc),
        })
    }

    /// The pairs, in the order of their numbers.
    pub fn pairs(&self) -> &[NumberPair] {
        self.pairs.as_slice()
    }

    /// The number of a pair, which is entered where it has none. `None` where there is no room.
    pub fn enter(&mut self, pair: NumberPair) -> Option<usize> {
        if self.pairs.len() >= self.places.len() / 2 {
            self.grow();
        }
        match self.place_of(pair) {
            PairPlace::Known(number) => Some(number),
            PairPlace::Free(place) => self.enter_at(place, pair),
            PairPlace::None => None,
        }
    }

    /// The number that a place has.
    fn number_at(&self, place: usize) -> Option<usize> {
        (*self.places.get(place)? as usize).checked_sub(1)
    }

    /// Where a pair is, or where it may be entered.
    fn place_of(&self, pair: NumberPair) -> PairPlace {
        let count = self.places.len();
        let mut place = first_place(pair, count);
        for _ in 0..PROBES {
            match self.number_at(place) {
                Some(number) if self.pairs.get(number) == Some(&pair) => {
                    return PairPlace::Known(number);
                }
                Some(_) => place = place.wrapping_add(1) & count.saturating_sub(1),
                None => return PairPlace::Free(place),
            }
        }
        PairPlace::None
    }

    /// Enters a pair at a place.
    fn enter_at(&mut self, place: usize, pair: NumberPair) -> Option<usize> {
        let number = self.pairs.len();
        if number >= MOST_PAIRS {
            return None;
        }
        self.pairs.push(pair).ok()?;
        self.take(place, number);
        Some(number)
    }

    /// Gives a place a number.
    fn take(&mut self, place: usize, number: usize) {
        if let Some(entry) = self.places.get_mut(place) {
            *entry = u32::try_from(number.saturating_add(1)).unwrap_or(0);
        }
    }

    /// Makes the table twice as large, where there is memory for that.
    fn grow(&mut self) {
        let count = self.places.len().saturating_mul(2);
        let Ok(places) = (vec![in self.alloc; 0u32; count]) else {
            return;
        };
        self.places = places;
        for number in 0..self.pairs.len() {
            if let Some(pair) = self.pairs.get(number).copied() {
                if let PairPlace::Free(place) = self.place_of(pair) {
                    self.take(place, number);
                }
            }
        }
    }
}

/// The first of so many places that a pair may have.
fn first_place(pair: NumberPair, count: usize) -> usize {
    let mixed = pair
        .first
        .wrapping_mul(0x9E37_79B9_7F4A_7C15)
        .rotate_left(29)
        ^ pair.second;
    (mixed.wrapping_mul(0x9E37_79B9_7F4A_7C15) >> 32) as usize & count.saturating_sub(1)
}
