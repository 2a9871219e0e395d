//! A place that has a name: a variable, or the frame of a function.

use crate::frames::FrameNumber;
use debug_variables::{Declaration, FrameBases, LexicalBlock, Neighbor, VariableName};
use std::fmt;

/// The kind of a place.
#[derive(Clone, Copy, PartialEq, Eq)]
pub enum PlaceKind {
    /// A page of the image, from which an address of it is made.
    Page,
    /// A variable of the image.
    Object,
    /// A variable in the frame of a function.
    Variable,
    /// An array of variable length in the frame of a function, or memory of `alloca`.
    Block,
    /// A frame, of which it is not known which variable is meant.
    Frame,
}

/// The name of a place, and where it is.
#[derive(Clone, Copy, PartialEq, Eq)]
pub struct PlaceText {
    /// Its kind.
    pub kind: PlaceKind,
    /// Its plain address.
    pub start: u64,
    /// The address after its last byte.
    pub end: u64,
    /// Its name.
    pub name: VariableName,
    /// Where it is declared, if that is known.
    pub declaration: Option<Declaration>,
    /// An address of the function that it is of, if it is of one.
    pub function: Option<u64>,
}

/// Its bytes and its name, and where it is.
impl fmt::Display for PlaceText {
    fn fmt<W: fmt::Write>(&self, f: &mut fmt::Formatter<W>) -> fmt::Result {
        let PlaceText {
            kind,
            start,
            end,
            name,
            ..
        } = self;
        let size = end.saturating_sub(*start);
        match kind {
            PlaceKind::Page => f.write_str("the image"),
            PlaceKind::Frame if size == 0 => write!(f, "the stack at {start:#018x}"),
            PlaceKind::Frame => write!(f, "a frame at {start:#018x}"),
            PlaceKind::Block => write!(f, "the {size}-byte block of the stack at {start:#018x}"),
            PlaceKind::Object | PlaceKind::Variable => {
                write!(f, "the {size}-byte variable `{name}` at {start:#018x}")
            }
        }
    }
}

/// The bases of no function.
pub(crate) const NO_BASES: FrameBases = FrameBases {
    caller: 0,
    frame_pointer: 0,
    stack_pointer: 0,
};

/// The block that a variable lives in, of a frame.
#[derive(Clone, Copy)]
pub(crate) struct PlaceScope {
    pub(crate) block: LexicalBlock,
    pub(crate) frame: FrameNumber,
}

/// A place, and what is known of the pointers to it.
#[derive(Clone, Copy)]
pub(crate) struct NamedPlace {
    pub(crate) text: PlaceText,
    /// The address up to which an access may be one to it.
    pub(crate) limit: u64,
    /// Whether its function has not returned.
    pub(crate) is_live: bool,
    /// Whether the function that made a pointer to it was not optimized.
    pub(crate) is_exact: bool,
    /// Whether a pointer to it may be meant for the variable after it.
    pub(crate) is_unsure: bool,
    /// Whether a pointer to it may be meant for all that is after it.
    pub(crate) is_marked: bool,
    /// The base from which the variables of its function are counted.
    pub(crate) bases: FrameBases,
    /// The variables that end where it begins.
    pub(crate) before: Neighbor,
    /// The block that it lives in, where it is not there as long as its frame.
    pub(crate) scope: Option<PlaceScope>,
    /// The next place of its frame.
    pub(crate) next: Option<usize>,
}

impl NamedPlace {
    /// Whether an access by a pointer to it has to be one of its bytes.
    #[inline(always)]
    pub(crate) fn has_bounds(&self) -> bool {
        !matches!(self.text.kind, PlaceKind::Page | PlaceKind::Frame)
    }

    /// Whether the byte at a plain address is its own.
    pub(crate) fn has(&self, addr: u64) -> bool {
        self.text.start <= addr && addr < self.text.end
    }
}
