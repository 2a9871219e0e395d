//! Nested names and their parts (`<nested-name>`, `<unqualified-name>`).

use crate::nodes::Node;
use crate::operators::operator_of;
use crate::parser::{ListKind, Parser, Task};

/// The most ABI tags of a name, and one.
const MOST_TAGS: u32 = 17;

impl<'a> Parser<'a> {
    /// Reads a nested name after its `N`.
    pub(crate) fn nested_name(&mut self, is_function: bool) -> Option<()> {
        let letters = self.reader.take_of("rVKRO")?;
        let first = self.values.len();
        self.schedule(&[Task::Nested(first, is_function), Task::NestedEnd(letters)])
    }

    /// Reads the next part of a nested name.
    pub(crate) fn nested(&mut self, first: usize, is_function: bool) -> Option<()> {
        let next = Task::Nested(first, is_function);
        match (self.reader.peek(), self.reader.peek_at(1)) {
            (b'E', _) => self.reader.expect("E"),
            (b'M', _) => {
                self.reader.take(1)?;
                self.schedule(&[next])
            }
            (b'S', b't') => {
                self.reader.take(2)?;
                self.put(Node::Text("std"))?;
                self.schedule(&[next])
            }
            (b'S', _) => {
                self.substitution()?;
                self.schedule(&[next])
            }
            (b'T', _) => {
                self.template_parameter()?;
                self.schedule(&[Task::Substitution, next])
            }
            (b'I', _) => {
                let arguments = Task::ArgumentsOf(is_function);
                self.schedule(&[arguments, Task::Substitution, next])
            }
            (b'D', b't' | b'T') => self.schedule(&[Task::Type, next]),
            _ if self.values.len() > first => {
                let part = Task::UnqualifiedName;
                self.schedule(&[part, Task::Scope, Task::Substitution, next])
            }
            _ => self.schedule(&[Task::UnqualifiedName, Task::Substitution, next]),
        }
    }

    /// The whole of a nested name is no prefix of another yet.
    pub(crate) fn nested_end(&mut self, qualifiers: &'a str) -> Option<()> {
        self.substitutions.pop()?;
        let name = self.values.pop()?;
        let name = self.qualified(name, qualifiers)?;
        self.values.try_push(name).ok()
    }

    /// Reads a part of a name, with its ABI tags.
    pub(crate) fn unqualified_name(&mut self) -> Option<()> {
        self.reader.eat("L");
        match (self.reader.peek(), self.reader.peek_at(1)) {
            (b'0'..=b'9', _) => {
                let name = self.reader.source_name()?;
                self.put(Node::Text(name))?;
            }
            (b'C', b'1'..=b'5') => {
                self.reader.take(2)?;
                let class = self.newest()?;
                self.put(Node::Constructor(class))?;
            }
            (b'D', b'0'..=b'5') => {
                self.reader.take(2)?;
                let class = self.newest()?;
                self.put(Node::Destructor(class))?;
            }
            (b'U', b't') => {
                self.reader.take(2)?;
                let number = self.reader.counted()?.checked_add(1)?;
                self.put(Node::Numbered("{unnamed type#", number, "}"))?;
            }
            (b'U', b'l') => return self.lambda(),
            _ => return self.operator_name(),
        }
        self.abi_tags()
    }

    /// Reads ABI tags, if there are any.
    fn abi_tags(&mut self) -> Option<()> {
        for _ in 0..MOST_TAGS {
            if !self.reader.eat("B") {
                return Some(());
            }
            let tag = self.reader.source_name()?;
            let name = self.values.pop()?;
            self.put(Node::Tagged(name, tag))?;
        }
        None
    }

    /// Reads the name of an operator.
    fn operator_name(&mut self) -> Option<()> {
        if self.reader.eat("cv") {
            self.in_conversion = true;
            return self.schedule(&[Task::Type, Task::Conversion]);
        }
        if self.reader.eat("li") {
            let name = self.reader.source_name()?;
            let id = self.node(Node::Text(name))?;
            return self.put(Node::Between("operator\"\" ", id, ""));
        }
        let (_, text, _) = operator_of(self.reader.take(2)?)?;
        let id = self.node(Node::Text(text))?;
        let before = if text.as_bytes().first()?.is_ascii_lowercase() {
            "operator "
        } else {
            "operator"
        };
        self.put(Node::Between(before, id, ""))?;
        self.abi_tags()
    }

    /// Reads a lambda.
    fn lambda(&mut self) -> Option<()> {
        self.reader.take(2)?;
        self.in_lambda = true;
        let first = self.values.len();
        let parameters = Task::List(first, ListKind::Parameters);
        self.schedule(&[parameters, Task::LambdaEnd])
    }

    /// Reads what is after the parameters of a lambda.
    pub(crate) fn lambda_end(&mut self) -> Option<()> {
        self.in_lambda = false;
        self.reader.expect("E")?;
        let number = self.reader.counted()?.checked_add(1)?;
        let list = self.values.pop()?;
        let function = self.function_of(list, false)?;
        self.put(Node::Lambda(function, number))?;
        self.abi_tags()
    }
}
