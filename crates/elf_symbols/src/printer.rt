//! The text of a tree.

use crate::name_parts::{NamePart, NamePiece};
use crate::questions::{base_name, has_right, pack_in, plain_type, resolve};
use crate::rust_names::push;
use arrayvec::{ArrayString, ArrayVec};
use cxx_tree::{Id, Node, Nodes};
use std::fmt::Write;

/// The most bytes of a text.
pub const LONGEST: usize = 4_096;

/// The most pieces that are kept.
const PIECES: usize = 384;

/// The most pieces that are written.
const STEPS: usize = 8_192;

/// The letters of qualifiers, in the order in which they are written.
const QUALIFIERS: &[(char, &str)] = &[
    ('C', " _Complex"),
    ('K', " const"),
    ('V', " volatile"),
    ('r', " restrict"),
    ('R', " &"),
    ('O', " &&"),
    ('N', " noexcept"),
];

/// A text that is being written.
#[derive(Drop)]
pub struct Printer<'n, 'a> {
    nodes: Nodes<'n, 'a>,
    pieces: ArrayVec<NamePiece<'a>, PIECES>,
    text: ArrayString<LONGEST>,
    /// Where the length of the newest array ended.
    array_end: usize,
}

impl<'n, 'a> Printer<'n, 'a> {
    /// A printer of a tree's nodes.
    pub fn new(nodes: Nodes<'n, 'a>) -> Printer<'n, 'a> {
        Printer {
            nodes,
            pieces: ArrayVec::new(),
            text: ArrayString::new(),
            array_end: 0,
        }
    }

    /// The text of a node.
    pub fn text_of(mut self, id: Id) -> Option<ArrayString<LONGEST>> {
        self.write(None, &[NamePart::Whole(id)])?;
        for _ in 0..STEPS {
            let Some(piece) = self.pieces.pop() else {
                return Some(self.text);
            };
            self.print(piece)?;
        }
        None
    }

    /// The parts that are left, in this order.
    fn write(&mut self, pack: Option<usize>, parts: &[NamePart<'a>]) -> Option<()> {
        for part in parts.iter().rev() {
            self.push(NamePiece { part: *part, pack })?;
        }
        Some(())
    }

    fn push(&mut self, piece: NamePiece<'a>) -> Option<()> {
        self.pieces.try_push(piece).ok()
    }

    fn print(&mut self, piece: NamePiece<'a>) -> Option<()> {
        let pack = piece.pack;
        match piece.part {
            NamePart::Text(text) => push(&mut self.text, text),
            NamePart::Number(number) => write!(self.text, "{number}").ok(),
            NamePart::Apart(sign) => self.apart(sign),
            NamePart::Bracket => {
                let follows = self.text.len() == self.array_end;
                push(&mut self.text, if follows { "[" } else { " [" })
            }
            NamePart::EndOfArray => {
                push(&mut self.text, "]")?;
                self.array_end = self.text.len();
                Some(())
            }
            NamePart::Opening => self.opened(),
            NamePart::Blank => self.blank(),
            NamePart::Qualifiers(letters) => self.qualifiers(letters),
            NamePart::Whole(id) => self.whole(id, pack),
            NamePart::Left(id) => self.left(id, pack),
            NamePart::Right(id) => self.right(id, pack),
            NamePart::Value(id) => self.value(id, pack),
            NamePart::Items(list, is_first) => self.items(list, is_first, pack),
            NamePart::Expansion(pattern, place) => self.expansion(pattern, place),
        }
    }

    /// Writes a sign, and a blank in front of it where the same sign is in front.
    fn apart(&mut self, sign: &'static str) -> Option<()> {
        if self.text.as_str().ends_with(sign) {
            push(&mut self.text, " ")?;
        }
        push(&mut self.text, sign)
    }

    /// Writes the parenthesis in front of the sign of a pointer, and a blank in front of it where
    /// it is neither in another nor after a pointer.
    fn opened(&mut self) -> Option<()> {
        let text = self.text.as_str();
        if !(text.ends_with("(") || text.ends_with("*")) {
            self.blank()?;
        }
        push(&mut self.text, "(")
    }

    /// Writes a blank, where none is there.
    fn blank(&mut self) -> Option<()> {
        if self.text.as_str().ends_with(" ") {
            return Some(());
        }
        push(&mut self.text, " ")
    }

    fn qualifiers(&mut self, letters: &str) -> Option<()> {
        for (letter, words) in QUALIFIERS {
            if letters.contains(*letter) {
                push(&mut self.text, words)?;
            }
        }
        Some(())
    }

    /// Writes the rest of a list. Members of a pack in it are members of the list.
    fn items(&mut self, list: Id, is_first: bool, pack: Option<usize>) -> Option<()> {
        let Node::Items(item, rest) = self.nodes.at(list) else {
            return Some(());
        };
        let comma = NamePart::Text(if is_first { "" } else { ", " });
        let item = resolve(&self.nodes, item, pack);
        match self.nodes.at(item) {
            Node::Pack(inner) | Node::PackParameter(inner) => {
                let is_empty = inner == 0;
                let rest = NamePart::Items(rest, is_first && is_empty);
                self.write(pack, &[NamePart::Items(inner, is_first), rest])
            }
            Node::Expansion(pattern) if pack_in(&self.nodes, pattern) == Some(0) => {
                self.write(pack, &[NamePart::Items(rest, is_first)])
            }
            _ => {
                let rest = NamePart::Items(rest, false);
                self.write(pack, &[comma, NamePart::Whole(item), rest])
            }
        }
    }

    /// Writes a pattern for the members of its pack from a place on.
    fn expansion(&mut self, pattern: Id, place: usize) -> Option<()> {
        let Some(list) = pack_in(&self.nodes, pattern) else {
            return self.write(None, &[NamePart::Whole(pattern), NamePart::Text("...")]);
        };
        if self.nodes.item(list, place).is_none() {
            return Some(());
        }
        let next = place.checked_add(1)?;
        self.write(None, &[NamePart::Expansion(pattern, next)])?;
        let comma = NamePart::Text(if place == 0 { "" } else { ", " });
        self.write(Some(place), &[comma, NamePart::Whole(pattern)])
    }

    fn whole(&mut self, id: Id, pack: Option<usize>) -> Option<()> {
        self.write(pack, &[NamePart::Left(id), NamePart::Right(id)])
    }

    /// Writes what a type has in front of a name, and of all other nodes the whole.
    fn left(&mut self, id: Id, pack: Option<usize>) -> Option<()> {
        let id = resolve(&self.nodes, id, pack);
        match self.nodes.at(id) {
            Node::Qualified(inner, letters) => {
                let is_function = self.is_function(inner, pack);
                let letters = if is_function { "" } else { letters };
                self.write(
                    pack,
                    &[NamePart::Left(inner), NamePart::Qualifiers(letters)],
                )
            }
            Node::Pointer(inner, sign) => self.pointer(inner, sign, pack),
            Node::Member(class, inner) => {
                let (class, sign) = (NamePart::Whole(class), NamePart::Text("::*"));
                let (blank, open) = match plain_type(&self.nodes, inner, pack) {
                    Node::Function(..) => (NamePart::Blank, "("),
                    Node::Array(..) => (NamePart::Text(" "), "("),
                    _ => (NamePart::Blank, ""),
                };
                let open = NamePart::Text(open);
                self.write(pack, &[NamePart::Left(inner), blank, open, class, sign])
            }
            Node::Function(0, _) => Some(()),
            Node::Function(result_type, _) => {
                let has_right = has_right(&self.nodes, result_type, pack);
                let blank = NamePart::Text(if has_right { "" } else { " " });
                self.write(pack, &[NamePart::Left(result_type), blank])
            }
            Node::Array(element, _) => self.write(pack, &[NamePart::Left(element)]),
            node => self.name(node, pack),
        }
    }

    /// Writes what a type has after a name.
    fn right(&mut self, id: Id, pack: Option<usize>) -> Option<()> {
        let id = resolve(&self.nodes, id, pack);
        match self.nodes.at(id) {
            Node::Qualified(inner, letters) => self.behind_qualified(inner, letters, pack),
            Node::Pointer(inner, sign) => {
                let (inner, _) = self.collapsed(inner, sign, pack);
                self.behind_pointer(inner, pack)
            }
            Node::Member(_, inner) => self.behind_pointer(inner, pack),
            Node::Function(..) => self.parameters(id, "", "", pack),
            Node::Array(element, length) => {
                let (length, close) = (NamePart::Whole(length), NamePart::EndOfArray);
                self.write(
                    pack,
                    &[NamePart::Bracket, length, close, NamePart::Right(element)],
                )
            }
            _ => Some(()),
        }
    }

    /// Writes what a type with qualifiers has after a name: those of a function are after its
    /// parameters.
    fn behind_qualified(&mut self, inner: Id, letters: &'a str, pack: Option<usize>) -> Option<()> {
        let inner = resolve(&self.nodes, inner, pack);
        match self.nodes.at(inner) {
            Node::Qualified(function, first) if self.is_function(function, pack) => {
                self.parameters(function, first, letters, pack)
            }
            _ => self.parameters(inner, letters, "", pack),
        }
    }

    /// Writes the parameters of a function with its qualifiers, and what its result has after a
    /// name; of what is no function only that.
    fn parameters(
        &mut self,
        function: Id,
        first: &'a str,
        letters: &'a str,
        pack: Option<usize>,
    ) -> Option<()> {
        let Node::Function(result_type, parameters) = self.nodes.at(function) else {
            return self.write(pack, &[NamePart::Right(function)]);
        };
        let (open, close) = (NamePart::Text("("), NamePart::Text(")"));
        let (first, rest) = (NamePart::Qualifiers(first), NamePart::Qualifiers(letters));
        let parameters = NamePart::Items(parameters, true);
        self.write(
            pack,
            &[
                open,
                parameters,
                close,
                first,
                rest,
                NamePart::Right(result_type),
            ],
        )
    }

    fn is_function(&self, id: Id, pack: Option<usize>) -> bool {
        matches!(plain_type(&self.nodes, id, pack), Node::Function(..))
    }

    /// What is between a type and the sign of a pointer to it.
    fn opening(&self, inner: Id, pack: Option<usize>) -> NamePart<'a> {
        match plain_type(&self.nodes, inner, pack) {
            Node::Function(..) => NamePart::Opening,
            Node::Array(..) => NamePart::Text(" ("),
            _ => NamePart::Text(""),
        }
    }

    fn pointer(&mut self, inner: Id, sign: &'a str, pack: Option<usize>) -> Option<()> {
        let (inner, sign) = self.collapsed(inner, sign, pack);
        let open = self.opening(inner, pack);
        self.write(pack, &[NamePart::Left(inner), open, NamePart::Text(sign)])
    }

    fn behind_pointer(&mut self, inner: Id, pack: Option<usize>) -> Option<()> {
        let has_opening = matches!(
            plain_type(&self.nodes, inner, pack),
            Node::Function(..) | Node::Array(..)
        );
        let close = NamePart::Text(if has_opening { ")" } else { "" });
        self.write(pack, &[close, NamePart::Right(inner)])
    }

    /// The type and the sign of a reference to a type, which may be a reference too.
    fn collapsed(&self, inner: Id, sign: &'a str, pack: Option<usize>) -> (Id, &'a str) {
        let inner = resolve(&self.nodes, inner, pack);
        match (sign, self.nodes.at(inner)) {
            ("&", Node::Pointer(referred, "&" | "&&")) => (referred, "&"),
            ("&&", Node::Pointer(referred, own)) if own != "*" => (referred, own),
            _ => (inner, sign),
        }
    }

    /// Writes a name.
    fn name(&mut self, node: Node<'a>, pack: Option<usize>) -> Option<()> {
        match node {
            Node::Nothing => Some(()),
            Node::Text(text) | Node::Known(text, _) => push(&mut self.text, text),
            Node::Scope(outer, inner) => {
                let (outer, inner) = (NamePart::Whole(outer), NamePart::Whole(inner));
                self.write(pack, &[outer, NamePart::Text("::"), inner])
            }
            Node::Template(name, list) => {
                let (name, list) = (NamePart::Whole(name), NamePart::Items(list, true));
                self.write(
                    pack,
                    &[name, NamePart::Apart("<"), list, NamePart::Apart(">")],
                )
            }
            Node::Encoding(name, function) => {
                let (left, right) = (NamePart::Left(function), NamePart::Right(function));
                self.write(pack, &[left, NamePart::Whole(name), right])
            }
            Node::Tagged(name, tag) => {
                let (open, tag) = (NamePart::Text("[abi:"), NamePart::Text(tag));
                self.write(
                    pack,
                    &[NamePart::Whole(name), open, tag, NamePart::Text("]")],
                )
            }
            Node::Constructor(class) => self.class_name(class, "", pack),
            Node::Destructor(class) => self.class_name(class, "~", pack),
            Node::Conversion(target) => {
                self.write(
                    pack,
                    &[NamePart::Text("operator "), NamePart::Whole(target)],
                )
            }
            _ => self.rare_name(node, pack),
        }
    }

    /// Writes the name of a class as that of its constructor.
    fn class_name(&mut self, class: Id, before: &'static str, pack: Option<usize>) -> Option<()> {
        let base = base_name(&self.nodes, class);
        let name = match self.nodes.at(base) {
            Node::Known(_, last) => NamePart::Text(last),
            _ => NamePart::Whole(base),
        };
        self.write(pack, &[NamePart::Text(before), name])
    }

    /// Writes a name of a rarer kind.
    fn rare_name(&mut self, node: Node<'a>, pack: Option<usize>) -> Option<()> {
        match node {
            Node::Between(before, inner, after) => {
                let (before, after) = (NamePart::Text(before), NamePart::Text(after));
                self.write(pack, &[before, NamePart::Whole(inner), after])
            }
            Node::Numbered(before, number, after) => {
                let (before, after) = (NamePart::Text(before), NamePart::Text(after));
                self.write(pack, &[before, NamePart::Number(number), after])
            }
            Node::Lambda(function, number) => {
                let (open, close) = (NamePart::Text("{lambda"), NamePart::Text("}"));
                let (function, number) = (NamePart::Right(function), NamePart::Number(number));
                self.write(pack, &[open, function, NamePart::Text("#"), number, close])
            }
            Node::Items(..) => Some(()),
            Node::Pack(list) | Node::PackParameter(list) => self.write(
                pack,
                &[NamePart::Items(list, true)],
            ),
            Node::Expansion(pattern) => self.write(pack, &[NamePart::Expansion(pattern, 0)]),
            Node::InScope(class, base) => {
                let words = NamePart::Text("construction vtable for ");
                let (class, base) = (NamePart::Whole(class), NamePart::Whole(base));
                self.write(pack, &[words, base, NamePart::Text("-in-"), class])
            }
            Node::Temporary(variable, number) => {
                let words = NamePart::Text("reference temporary #");
                let (number, variable) = (NamePart::Number(number), NamePart::Whole(variable));
                self.write(pack, &[words, number, NamePart::Text(" for "), variable])
            }
            Node::Parameter(_) => None,
            _ => self.expression(node, pack),
        }
    }

    /// Writes a value.
    fn expression(&mut self, node: Node<'a>, pack: Option<usize>) -> Option<()> {
        match node {
            Node::Literal(of_type, digits) => self.literal(of_type, digits, pack),
            Node::Unary(sign, value) => {
                let value = match (sign, self.nodes.at(value)) {
                    ("&", Node::Encoding(name, function)) if self.is_plain(name, function) => {
                        NamePart::Whole(name)
                    }
                    _ => NamePart::Value(value),
                };
                self.write(pack, &[NamePart::Text(sign), value])
            }
            Node::Binary(sign, left, right) => {
                let (left, right) = (NamePart::Value(left), NamePart::Value(right));
                let parts = [left, NamePart::Text(sign), right];
                if sign != ">" {
                    return self.write(pack, &parts);
                }
                self.write(pack, &[NamePart::Text(")")])?;
                self.write(pack, &parts)?;
                self.write(pack, &[NamePart::Text("(")])
            }
            Node::Call(function, values) => {
                let (open, close) = (NamePart::Text("("), NamePart::Text(")"));
                let function = match self.nodes.at(function) {
                    Node::Encoding(name, _) => NamePart::Whole(name),
                    _ => NamePart::Value(function),
                };
                let values = NamePart::Items(values, true);
                self.write(pack, &[function, open, values, close])
            }
            Node::Cast(target, value) => {
                let (open, close) = (NamePart::Text("("), NamePart::Text(")"));
                self.write(
                    pack,
                    &[open, NamePart::Whole(target), close, NamePart::Value(value)],
                )
            }
            _ => None,
        }
    }

    /// Whether a function is in a scope and has no qualifiers.
    fn is_plain(&self, name: Id, function: Id) -> bool {
        let has_qualifiers = matches!(self.nodes.at(function), Node::Qualified(..));
        matches!(self.nodes.at(name), Node::Scope(..)) && !has_qualifiers
    }

    /// Writes a value that is a part of another: between brackets, but for a name.
    fn value(&mut self, id: Id, pack: Option<usize>) -> Option<()> {
        let id = resolve(&self.nodes, id, pack);
        let is_name = matches!(
            self.nodes.at(id),
            Node::Text(_) | Node::Scope(..) | Node::Numbered(..)
        );
        if is_name {
            return self.whole(id, pack);
        }
        let (open, close) = (NamePart::Text("("), NamePart::Text(")"));
        self.write(pack, &[open, NamePart::Whole(id), close])
    }

    /// Writes a number of a type.
    fn literal(&mut self, of_type: Id, digits: &'a str, pack: Option<usize>) -> Option<()> {
        let name = match self.nodes.at(of_type) {
            Node::Text(name) => name,
            _ => "",
        };
        let (sign, number) = match digits.strip_prefix("n") {
            Some(number) => ("-", number),
            None => ("", digits),
        };
        let suffix = match (name, number) {
            ("bool", "0") => return push(&mut self.text, "false"),
            ("bool", "1") => return push(&mut self.text, "true"),
            ("int", _) => "",
            ("unsigned int", _) => "u",
            ("long", _) => "l",
            ("unsigned long", _) => "ul",
            ("long long", _) => "ll",
            ("unsigned long long", _) => "ull",
            _ => {
                let (open, close) = (NamePart::Text("("), NamePart::Text(")"));
                let (sign, number) = (NamePart::Text(sign), NamePart::Text(number));
                return self.write(pack, &[open, NamePart::Whole(of_type), close, sign, number]);
            }
        };
        let (sign, number) = (NamePart::Text(sign), NamePart::Text(number));
        self.write(pack, &[sign, number, NamePart::Text(suffix)])
    }
}
