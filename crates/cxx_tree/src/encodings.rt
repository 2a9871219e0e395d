//! Encodings: a name, and the type of its function (`<encoding>`).

use crate::nodes::{Id, Node};
use crate::parser::{ListKind, Parser, Task};

impl<'a> Parser<'a> {
    /// Reads an encoding.
    pub(crate) fn encoding(&mut self) -> Option<()> {
        match (self.reader.peek(), self.reader.peek_at(1)) {
            (b'T' | b'G', letter) if letter.is_ascii_alphabetic() => self.special_name(),
            _ => self.schedule(&[Task::Name(true), Task::EncodingTail]),
        }
    }

    /// Reads what is after the name: nothing where it is no function.
    pub(crate) fn encoding_tail(&mut self) -> Option<()> {
        if self.reader.ends() {
            return Some(());
        }
        let name = self.values.pop()?;
        let (name, qualifiers) = match self.nodes().at(name) {
            Node::Qualified(inner, letters) => (inner, letters),
            _ => (name, ""),
        };
        self.values.try_push(name).ok()?;
        let has_result = self.nodes().has_result(name);
        let first = self.values.len();
        self.schedule(&[
            Task::List(first, ListKind::Parameters),
            Task::EncodingEnd(has_result, qualifiers),
        ])
    }

    /// Makes a function of a name and the list of its types.
    pub(crate) fn encoding_end(&mut self, has_result: bool, qualifiers: &'a str) -> Option<()> {
        let list = self.values.pop()?;
        let name = self.values.pop()?;
        let function = self.function_of(list, has_result)?;
        let function = self.qualified(function, qualifiers)?;
        self.put(Node::Encoding(name, function))
    }

    /// The function of a list of types: its result, if it has one, and those of its parameters.
    pub(crate) fn function_of(&mut self, list: Id, has_result: bool) -> Option<Id> {
        let (result_type, parameters) = match self.nodes().at(list) {
            Node::Items(first, rest) if has_result => (first, rest),
            _ => (0, list),
        };
        let parameters = match self.nodes().at(parameters) {
            Node::Items(only, 0) if self.is_void(only) => 0,
            _ => parameters,
        };
        self.node(Node::Function(result_type, parameters))
    }

    /// A node with qualifiers, if there are any.
    pub(crate) fn qualified(&mut self, id: Id, letters: &'a str) -> Option<Id> {
        if letters.is_empty() {
            return Some(id);
        }
        self.node(Node::Qualified(id, letters))
    }

    fn is_void(&self, id: Id) -> bool {
        match self.nodes().at(id) {
            Node::Text(text) => text == "void",
            _ => false,
        }
    }

    /// Reads a name (`<name>`); whether it is that of a function, whose arguments `T_` names.
    pub(crate) fn name(&mut self, is_function: bool) -> Option<()> {
        match (self.reader.peek(), self.reader.peek_at(1)) {
            (b'N', _) => {
                self.reader.take(1)?;
                self.nested_name(is_function)
            }
            (b'Z', _) => self.local_name(Task::LocalTail(is_function), is_function),
            (b'S', b't') => self.standard_name(Task::NameArguments(is_function)),
            (b'S', _) => {
                self.substitution()?;
                self.schedule(&[Task::ArgumentsOf(is_function)])
            }
            _ => self.schedule(&[Task::UnqualifiedName, Task::NameArguments(is_function)]),
        }
    }

    /// Reads the name of what is in a function (`<local-name>`).
    fn local_name(&mut self, tail: Task<'a>, is_function: bool) -> Option<()> {
        self.reader.take(1)?;
        if is_function {
            return self.schedule(&[Task::Encoding, tail]);
        }
        self.schedule(&[Task::Encoding, tail, Task::Use(self.arguments)])
    }

    /// Reads a name in `std`.
    fn standard_name(&mut self, arguments: Task<'a>) -> Option<()> {
        self.reader.take(2)?;
        self.put(Node::Text("std"))?;
        self.schedule(&[Task::UnqualifiedName, Task::Scope, arguments])
    }

    /// Reads the arguments of a name that is not nested, if it has any.
    pub(crate) fn name_arguments(&mut self, is_function: bool) -> Option<()> {
        if self.reader.peek() == b'I' {
            self.schedule(&[Task::Substitution, Task::ArgumentsOf(is_function)])
        } else {
            Some(())
        }
    }

    /// Reads what is in a function, after the function (`<local-name>`).
    pub(crate) fn local_tail(&mut self, is_function: bool) -> Option<()> {
        self.reader.expect("E")?;
        if self.reader.eat("s") {
            self.put(Node::Text("string literal"))?;
            return self.schedule(&[Task::Discriminator, Task::LocalScope]);
        }
        let name = Task::Name(is_function);
        if self.reader.eat("d") {
            return self.default_argument(name);
        }
        self.schedule(&[name, Task::Discriminator, Task::LocalScope])
    }

    /// Reads what is in a default argument of a function.
    fn default_argument(&mut self, name: Task<'a>) -> Option<()> {
        let number = self.reader.counted()?.checked_add(1)?;
        self.put(Node::Numbered("{default arg#", number, "}"))?;
        self.schedule(&[Task::Scope, name, Task::LocalScope])
    }

    /// Makes the scope of what is in a function, whose result is not told. Qualifiers of what is
    /// in it are those of the whole.
    pub(crate) fn local_scope(&mut self) -> Option<()> {
        let inner = self.values.pop()?;
        let outer = self.values.pop()?;
        let outer = match self.nodes().at(outer) {
            Node::Encoding(name, function) => {
                let function = self.without_result(function)?;
                self.node(Node::Encoding(name, function))?
            }
            _ => outer,
        };
        match self.nodes().at(inner) {
            Node::Qualified(inner, letters) => {
                let scope = self.node(Node::Scope(outer, inner))?;
                self.put(Node::Qualified(scope, letters))
            }
            _ => self.put(Node::Scope(outer, inner)),
        }
    }

    /// A function, which may have qualifiers, without its result.
    fn without_result(&mut self, function: Id) -> Option<Id> {
        match self.nodes().at(function) {
            Node::Function(_, parameters) => self.node(Node::Function(0, parameters)),
            Node::Qualified(inner, letters) => match self.nodes().at(inner) {
                Node::Function(_, parameters) => self.qualified_function(parameters, letters),
                _ => Some(function),
            },
            _ => Some(function),
        }
    }

    /// A function without a result, which has qualifiers.
    fn qualified_function(&mut self, parameters: Id, letters: &'a str) -> Option<Id> {
        let inner = self.node(Node::Function(0, parameters))?;
        self.node(Node::Qualified(inner, letters))
    }

    /// Reads which of several entities of a function's name one is (`<discriminator>`): one digit
    /// after `_`, or a number between `__` and `_`.
    pub(crate) fn discriminator(&mut self) -> Option<()> {
        if self.reader.eat("__") {
            self.reader.number()?;
            return self.reader.expect("_");
        }
        if !self.reader.eat("_") {
            return Some(());
        }
        if !self.reader.peek().is_ascii_digit() {
            return None;
        }
        self.reader.take(1)?;
        Some(())
    }
}
