//! The tree of a name.

/// The number of a node.
pub type Id = usize;

/// A node of the tree of a name. A list is `Items` and ends with `Nothing`, whose number is 0.
#[derive(Clone, Copy)]
pub enum Node<'a> {
    /// The end of a list, and what is not there.
    Nothing,
    /// A text as it is.
    Text(&'a str),
    /// A name of the standard library that has a letter of its own, and its last part.
    Known(&'a str, &'a str),
    /// A name in another.
    Scope(Id, Id),
    /// A template and its list of arguments.
    Template(Id, Id),
    /// The first of a list, and the rest.
    Items(Id, Id),
    /// Arguments that stand for one parameter, as a list.
    Pack(Id),
    /// A parameter that stands for arguments, as a list: in a pattern for one of them.
    PackParameter(Id),
    /// A pattern, once for each argument of the pack in it.
    Expansion(Id),
    /// A parameter of the template whose arguments come later.
    Parameter(usize),
    /// Something between two texts.
    Between(&'a str, Id, &'a str),
    /// A text and a number.
    Numbered(&'a str, usize, &'a str),
    /// A name and an ABI tag.
    Tagged(Id, &'a str),
    /// A type or function with qualifiers, by their letters.
    Qualified(Id, &'a str),
    /// A pointer or reference to a type, by its sign.
    Pointer(Id, &'a str),
    /// A pointer to a member of a class, which is of a type.
    Member(Id, Id),
    /// A function that returns something, with a list of its parameters.
    Function(Id, Id),
    /// An array of a type, and its length.
    Array(Id, Id),
    /// A named function: its name, and the function.
    Encoding(Id, Id),
    /// The constructor of a class.
    Constructor(Id),
    /// The destructor of a class.
    Destructor(Id),
    /// A function that converts to a type.
    Conversion(Id),
    /// A lambda with a list of parameters, and its number.
    Lambda(Id, usize),
    /// A value of a type.
    Literal(Id, &'a str),
    /// An operator on one value.
    Unary(&'a str, Id),
    /// An operator between two values.
    Binary(&'a str, Id, Id),
    /// The call of something, with a list of values.
    Call(Id, Id),
    /// A table of a class for its time as the base of another, which comes first.
    InScope(Id, Id),
    /// A value converted to a type, which comes first.
    Cast(Id, Id),
    /// A temporary of a variable, and its number.
    Temporary(Id, usize),
}

impl<'a> Default for Node<'a> {
    fn default() -> Node<'a> {
        Node::Nothing
    }
}

/// The nodes of a tree, of which each number that is in none is `Nothing`.
#[derive(Clone, Copy)]
pub struct Nodes<'n, 'a> {
    pub list: &'n [Node<'a>],
    /// The arguments that `Parameter` names.
    pub arguments: Id,
}

impl<'n, 'a> Nodes<'n, 'a> {
    /// The node of a number.
    pub fn at(&self, id: Id) -> Node<'a> {
        match self.list.get(id) {
            Some(node) => *node,
            None => Node::Nothing,
        }
    }

    /// The place in a list.
    pub fn item(&self, list: Id, place: usize) -> Option<Id> {
        let mut list = list;
        for _ in 0..place {
            let Node::Items(_, rest) = self.at(list) else {
                return None;
            };
            list = rest;
        }
        match self.at(list) {
            Node::Items(item, _) => Some(item),
            _ => None,
        }
    }

    /// The part of a name after its scopes.
    pub fn last_part(&self, name: Id) -> Id {
        let mut part = name;
        for _ in self.list {
            match self.at(part) {
                Node::Scope(_, inner) => part = inner,
                _ => break,
            }
        }
        part
    }

    /// Whether the type of a function with this name has its result in front: it is made from a
    /// template, and is no constructor, destructor or conversion.
    pub fn has_result(&self, name: Id) -> bool {
        let Node::Template(template, _) = self.at(self.last_part(name)) else {
            return false;
        };
        let last = self.at(self.last_part(template));
        !matches!(
            last,
            Node::Constructor(_) | Node::Destructor(_) | Node::Conversion(_)
        )
    }
}
