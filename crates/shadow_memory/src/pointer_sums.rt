//! Sums and differences of pointers, which are kept as such until one pointer is left.

use crate::origin::{OriginKind, PointerOrigin};
use std::alloc::{AllocError, Global};
use std::collections::BTreeMap;

/// How many pointers a sum has at most.
const TERMS: usize = 4;

/// How many terms two sums have together at most.
const BOTH_TERMS: usize = 8;

/// How many sums are kept.
const MOST_SUMS: usize = 65_536;

/// How a pointer enters a sum.
#[derive(Clone, Copy, PartialEq, Eq, PartialOrd, Ord)]
pub enum Sign {
    /// It is added.
    Plus,
    /// It is subtracted.
    Minus,
    /// Its bits are added without carry, as by EOR.
    Exclusive,
}

impl Sign {
    /// How a term enters that has a sign in an operand which has another.
    fn within(self, operand: Sign) -> Sign {
        match (self, operand) {
            (Sign::Exclusive, _) | (_, Sign::Exclusive) => Sign::Exclusive,
            (Sign::Plus, operand) => operand,
            (Sign::Minus, Sign::Plus) => Sign::Minus,
            (Sign::Minus, Sign::Minus) => Sign::Plus,
        }
    }

    /// Whether two terms of one pointer cancel.
    fn cancels(self, other: Sign) -> bool {
        match self {
            Sign::Exclusive => true,
            Sign::Plus => other != Sign::Plus,
            Sign::Minus => other != Sign::Minus,
        }
    }
}

/// A pointer in a sum.
#[derive(Clone, Copy, PartialEq, Eq, PartialOrd, Ord)]
pub struct Term {
    /// Where it points.
    pub origin: PointerOrigin,
    /// How it enters.
    pub sign: Sign,
}

/// No pointer.
const NO_TERM: Term = Term {
    origin: PointerOrigin::UNKNOWN,
    sign: Sign::Plus,
};

/// A sum of two to four pointers, or of one that is subtracted, in the order of their origins;
/// after them are terms of no pointer.
#[derive(Clone, Copy, PartialEq, Eq, PartialOrd, Ord)]
pub struct PointerSum {
    first: Term,
    second: Term,
    third: Term,
    fourth: Term,
}

impl PointerSum {
    /// Its terms, with those of no pointer.
    pub fn terms(&self) -> [Term; TERMS] {
        [self.first, self.second, self.third, self.fourth]
    }
}

/// The terms of two sums, as far as they do not cancel.
#[derive(Clone, Copy)]
struct TermList {
    terms: [Term; BOTH_TERMS],
    count: usize,
}

impl TermList {
    /// No terms.
    fn new() -> TermList {
        TermList {
            terms: [NO_TERM; BOTH_TERMS],
            count: 0,
        }
    }

    /// Adds a term, or takes away the one that it cancels.
    fn add(&mut self, term: Term) {
        let same = self.terms.iter().position(|other| other.origin == term.origin
            && term.sign.cancels(other.sign));
        match same {
            Some(index) => self.take_away(index),
            None => {
                if let Some(place) = self.terms.get_mut(self.count) {
                    *place = term;
                    self.count = self.count.saturating_add(1);
                }
            }
        }
    }

    /// Takes a term away; the last one takes its place.
    fn take_away(&mut self, index: usize) {
        let last = self.count.saturating_sub(1);
        let moved = self.terms.get(last).copied().unwrap_or(NO_TERM);
        if let Some(place) = self.terms.get_mut(index) {
            *place = moved;
        }
        if let Some(place) = self.terms.get_mut(last) {
            *place = NO_TERM;
        }
        self.count = last;
    }

    /// The one pointer that is left, if it is not subtracted.
    fn only(&self) -> Option<PointerOrigin> {
        let first = self.terms[0];
        if self.count == 1 && first.sign != Sign::Minus {
            Some(first.origin)
        } else {
            None
        }
    }

    /// The sum of the terms, of at most four.
    fn sum(&self) -> PointerSum {
        let [first, second, third, fourth, ..] = self.terms;
        let (first, second) = ordered(first, second);
        let (third, fourth) = ordered(third, fourth);
        let (first, third) = ordered(first, third);
        let (second, fourth) = ordered(second, fourth);
        let (second, third) = ordered(second, third);
        PointerSum {
            first,
            second,
            third,
            fourth,
        }
    }
}

/// Two terms, the later origin first, so that terms of no pointer come last.
fn ordered(one: Term, other: Term) -> (Term, Term) {
    if one < other {
        (other, one)
    } else {
        (one, other)
    }
}

/// The sums that registers and memory have had, each once.
#[derive(Drop)]
pub struct PointerSums {
    sums: Vec<PointerSum>,
    indices: BTreeMap<PointerSum, usize>,
}

impl PointerSums {
    /// No sums.
    pub fn new(alloc: Global) -> PointerSums {
        PointerSums {
            sums: Vec::new(alloc),
            indices: BTreeMap::new(alloc),
        }
    }

    /// The sum at an index.
    pub fn get(&self, index: usize) -> Option<&PointerSum> {
        self.sums.get(index)
    }

    /// All sums.
    pub fn all(&self) -> &[PointerSum] {
        self.sums.as_slice()
    }

    /// Where a value points that is made of two, the second of which enters by a sign. Where a sum
    /// would have more than four pointers, or no more sums are kept, it is mixed.
    pub fn combine(
        &mut self,
        one: PointerOrigin,
        other: PointerOrigin,
        sign: Sign,
    ) -> Result<PointerOrigin, AllocError> {
        if !other.is_known() {
            return Ok(one);
        }
        if !one.is_known() && sign != Sign::Minus {
            return Ok(other);
        }
        if one == PointerOrigin::MIXED || other == PointerOrigin::MIXED {
            return Ok(PointerOrigin::MIXED);
        }
        let mut terms = TermList::new();
        let own = if sign == Sign::Exclusive {
            sign
        } else {
            Sign::Plus
        };
        self.add_terms(&mut terms, one, own);
        self.add_terms(&mut terms, other, sign);
        self.origin_of(&terms)
    }

    /// Adds the terms of an operand.
    fn add_terms(&self, terms: &mut TermList, operand: PointerOrigin, sign: Sign) {
        match operand.kind() {
            OriginKind::Sum(index) => {
                if let Some(sum) = self.sums.get(index) {
                    for term in sum.terms().iter() {
                        add_known(terms, term.origin, term.sign.within(sign));
                    }
                }
            }
            _ => add_known(terms, operand, sign),
        }
    }

    /// Where a value points that has these terms.
    fn origin_of(&mut self, terms: &TermList) -> Result<PointerOrigin, AllocError> {
        if let Some(origin) = terms.only() {
            return Ok(origin);
        }
        if terms.count == 0 {
            return Ok(PointerOrigin::UNKNOWN);
        }
        if terms.count > TERMS {
            return Ok(PointerOrigin::MIXED);
        }
        self.index(terms.sum())
    }

    /// The origin of a sum, which is entered where it is new. Mixed where the table is full.
    fn index(&mut self, sum: PointerSum) -> Result<PointerOrigin, AllocError> {
        if let Some(index) = self.indices.get(&sum) {
            return Ok(PointerOrigin::of_sum(*index));
        }
        let index = self.sums.len();
        if index >= MOST_SUMS {
            return Ok(PointerOrigin::MIXED);
        }
        self.sums.push(sum)?;
        self.indices.insert(sum, index)?;
        Ok(PointerOrigin::of_sum(index))
    }
}

/// Adds a term, unless it is of no pointer.
fn add_known(terms: &mut TermList, origin: PointerOrigin, sign: Sign) {
    if origin.is_known() {
        terms.add(Term { origin, sign });
    }
}
