//! The parts of a name that are written.

use cxx_tree::Id;

/// A part of the text of a name.
#[derive(Clone, Copy)]
pub enum NamePart<'a> {
    Text(&'a str),
    Number(usize),
    /// All of a node.
    Whole(Id),
    /// The text of a type in front of the name of what has it.
    Left(Id),
    /// The text of a type after that name.
    Right(Id),
    /// A value as a part of another.
    Value(Id),
    /// The rest of a list; whether nothing of the list was written yet.
    Items(Id, bool),
    /// A pattern from a place of its pack on.
    Expansion(Id, usize),
    /// Qualifiers by their letters.
    Qualifiers(&'a str),
    /// A text, with a blank in front where that is after the same sign.
    Apart(&'static str),
    /// The bracket in front of an array's length.
    Bracket,
    /// The bracket after an array's length.
    EndOfArray,
    /// The parenthesis in front of the sign of a pointer to a function.
    Opening,
    /// A blank, where none is there.
    Blank,
}

/// A part, and which member of a pack it is of.
#[derive(Clone, Copy)]
pub struct NamePiece<'a> {
    pub part: NamePart<'a>,
    pub pack: Option<usize>,
}

impl<'a> Default for NamePiece<'a> {
    fn default() -> NamePiece<'a> {
        NamePiece {
            part: NamePart::Text(""),
            pack: None,
        }
    }
}
