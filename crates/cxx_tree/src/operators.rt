//! Operators (`<operator-name>`).

/// An operator: its letters, its text, and of how many values it is.
pub type Operator = (&'static str, &'static str, u8);

/// The operators. Those of 0 values are in no expression.
pub const OPERATORS: &[Operator] = &[
    ("nw", "new", 0),
    ("na", "new[]", 0),
    ("dl", "delete", 0),
    ("da", "delete[]", 0),
    ("aw", "co_await", 0),
    ("ps", "+", 1),
    ("ng", "-", 1),
    ("ad", "&", 1),
    ("de", "*", 1),
    ("co", "~", 1),
    ("nt", "!", 1),
    ("pl", "+", 2),
    ("mi", "-", 2),
    ("ml", "*", 2),
    ("dv", "/", 2),
    ("rm", "%", 2),
    ("an", "&", 2),
    ("or", "|", 2),
    ("eo", "^", 2),
    ("aS", "=", 2),
    ("pL", "+=", 2),
    ("mI", "-=", 2),
    ("mL", "*=", 2),
    ("dV", "/=", 2),
    ("rM", "%=", 2),
    ("aN", "&=", 2),
    ("oR", "|=", 2),
    ("eO", "^=", 2),
    ("ls", "<<", 2),
    ("rs", ">>", 2),
    ("lS", "<<=", 2),
    ("rS", ">>=", 2),
    ("eq", "==", 2),
    ("ne", "!=", 2),
    ("lt", "<", 2),
    ("gt", ">", 2),
    ("le", "<=", 2),
    ("ge", ">=", 2),
    ("ss", "<=>", 2),
    ("aa", "&&", 2),
    ("oo", "||", 2),
    ("pp", "++", 0),
    ("mm", "--", 0),
    ("cm", ",", 2),
    ("pm", "->*", 2),
    ("pt", "->", 0),
    ("cl", "()", 0),
    ("ix", "[]", 0),
    ("qu", "?", 0),
    ("dt", ".", 0),
];

/// The operator of two letters.
pub fn operator_of(letters: &str) -> Option<Operator> {
    let found = OPERATORS.iter().find(|operator| operator.0 == letters)?;
    Some(*found)
}
