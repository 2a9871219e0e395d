//! The questions about a tree that its text depends on.

use cxx_tree::{Id, Node, Nodes};

/// The name of a class without its scope and its arguments.
pub fn base_name(nodes: &Nodes<'_, '_>, class: Id) -> Id {
    let mut part = class;
    for _ in nodes.list {
        match nodes.at(part) {
            Node::Scope(_, inner) => part = inner,
            Node::Template(name, _) | Node::Tagged(name, _) => part = name,
            _ => break,
        }
    }
    part
}

/// The replacement of a node: the argument `pack` of several, the argument of a parameter.
pub fn resolve(nodes: &Nodes<'_, '_>, id: Id, pack: Option<usize>) -> Id {
    let mut id = id;
    for _ in nodes.list {
        let found = match (nodes.at(id), pack) {
            (Node::PackParameter(list), Some(place)) => nodes.item(list, place),
            (Node::Parameter(place), _) => nodes.item(nodes.arguments, place),
            _ => None,
        };
        match found {
            Some(other) => id = other,
            None => break,
        }
    }
    id
}

/// A type without its qualifiers.
pub fn plain_type<'a>(nodes: &Nodes<'_, 'a>, id: Id, pack: Option<usize>) -> Node<'a> {
    let mut id = id;
    for _ in nodes.list {
        id = resolve(nodes, id, pack);
        match nodes.at(id) {
            Node::Qualified(inner, _) => id = inner,
            _ => break,
        }
    }
    nodes.at(id)
}

/// Whether a part of a type comes after the name of what has it.
pub fn has_right(nodes: &Nodes<'_, '_>, id: Id, pack: Option<usize>) -> bool {
    let mut node = plain_type(nodes, id, pack);
    for _ in nodes.list {
        match node {
            Node::Pointer(inner, _) | Node::Member(_, inner) => {
                node = plain_type(nodes, inner, pack);
            }
            _ => break,
        }
    }
    matches!(node, Node::Function(..) | Node::Array(..))
}

/// The list of the pack in a pattern.
pub fn pack_in(nodes: &Nodes<'_, '_>, pattern: Id) -> Option<Id> {
    let mut node = nodes.at(pattern);
    for _ in nodes.list {
        let inner = match node {
            Node::PackParameter(list) => return Some(list),
            Node::Pointer(inner, _) | Node::Qualified(inner, _) => inner,
            Node::Between(_, inner, _) | Node::Unary(_, inner) => inner,
            Node::Template(_, inner) | Node::Scope(inner, _) => inner,
            Node::Items(inner, _) | Node::Call(inner, _) => inner,
            _ => return None,
        };
        node = nodes.at(inner);
    }
    None
}
