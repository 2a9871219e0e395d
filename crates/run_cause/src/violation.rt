//! A violation, by what found it.

use crate::cause_words::{
    ARGUMENTS, FindingWords, MISUSES, OPERATIONS, PLACE_MISUSES, TRESPASSES, USES,
};
use heap_bounds::Trespass;
use named_places::PlaceMisuse;
use pointer_provenance::{ArgumentFault, Misuse};
use run_terms::CheckKind;
use std::fmt;
use undefined_bits::{ArithmeticFault, UndefinedUse};

/// A violation, by what found it.
#[derive(Clone, Copy)]
pub enum Violation {
    /// The bounds of the chunks at its address.
    Bounds(Trespass),
    /// The bounds of its pointer's own chunk.
    Provenance(Misuse),
    /// It depends on bits that were never given a value.
    Undefined(UndefinedUse),
    /// The bounds and the life of its pointer's variable.
    Place(PlaceMisuse),
    /// An operation whose operands give it no result.
    Arithmetic(ArithmeticFault),
    /// Arguments that a function does not allow.
    Argument(ArgumentFault),
}

impl Violation {
    /// Its row of words.
    fn named(&self) -> &'static FindingWords {
        match self {
            Violation::Bounds(trespass) => &TRESPASSES[*trespass as usize],
            Violation::Provenance(misuse) => &MISUSES[misuse.kind as usize],
            Violation::Undefined(used) => &USES[used.kind as usize],
            Violation::Place(misuse) => &PLACE_MISUSES[misuse.kind as usize],
            Violation::Arithmetic(fault) => &OPERATIONS[fault.kind as usize],
            Violation::Argument(fault) => &ARGUMENTS[fault.kind as usize],
        }
    }

    /// The name of what found it, which is that of the option.
    pub fn finder(&self) -> &'static str {
        self.named().finder
    }

    /// The kind of what is checked that it is of.
    pub fn kind(&self) -> CheckKind {
        self.named().kind
    }

    /// The violation.
    pub fn words(&self) -> &'static str {
        match self {
            Violation::Provenance(misuse) if misuse.is_by_address => self.named().by_address,
            _ => self.named().words,
        }
    }

    /// Whether it is one of the bounds of the chunks at its address.
    pub fn is_of_bounds(&self) -> bool {
        matches!(self, Violation::Bounds(_))
    }

    /// Whether it is no access but a free.
    pub fn is_free(&self) -> bool {
        self.kind() == CheckKind::Frees
    }
}

impl fmt::Display for Violation {
    fn fmt<W: fmt::Write>(&self, f: &mut fmt::Formatter<W>) -> fmt::Result {
        f.write_str(self.named().key)
    }
}
