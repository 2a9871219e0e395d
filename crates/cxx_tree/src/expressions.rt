//! Values in a name (`<expression>`), as far as the names of functions have them.

use crate::nodes::Node;
use crate::operators::operator_of;
use crate::parser::{ListKind, Parser, Task};

impl<'a> Parser<'a> {
    /// Reads a value.
    pub(crate) fn expression(&mut self) -> Option<()> {
        match self.reader.peek() {
            b'L' => self.literal(),
            b'T' => self.template_parameter(),
            b'0'..=b'9' => self.schedule(&[Task::UnqualifiedName, Task::OwnArguments]),
            _ => self.operation(),
        }
    }

    /// Reads a value that begins with two letters.
    fn operation(&mut self) -> Option<()> {
        let letters = self.reader.take(2)?;
        match letters {
            "sr" => self.scoped_name(),
            "st" => self.schedule(&[Task::Type, Task::Between("sizeof (", ")")]),
            "sz" => self.schedule(&[Task::Expression, Task::Unary("sizeof ")]),
            "at" => self.schedule(&[Task::Type, Task::Between("alignof (", ")")]),
            "nx" => self.schedule(&[Task::Expression, Task::Between("noexcept (", ")")]),
            "sp" => self.schedule(&[Task::Expression, Task::Expansion]),
            "cv" => self.schedule(&[Task::Type, Task::Expression, Task::Cast]),
            "cl" => {
                let first = self.values.len().checked_add(1)?;
                let values = Task::List(first, ListKind::Values);
                self.schedule(&[Task::Expression, values, Task::Call])
            }
            "fp" => self.parameter(),
            _ => self.operator(letters),
        }
    }

    /// Reads a name in a scope (`sr`).
    fn scoped_name(&mut self) -> Option<()> {
        self.schedule(&[Task::UnqualifiedName, Task::Scope, Task::OwnArguments])?;
        if self.reader.peek().is_ascii_digit() {
            return self.schedule(&[Task::UnqualifiedName, Task::OwnArguments, Task::Level]);
        }
        self.schedule(&[Task::Type])
    }

    /// Reads a parameter of the function (`fp`).
    fn parameter(&mut self) -> Option<()> {
        let number = self.reader.counted()?.checked_add(1)?;
        self.put(Node::Numbered("{parm#", number, "}"))
    }

    /// Reads the next part of what a name in a value is in (`<unresolved-qualifier-level>`).
    pub(crate) fn level(&mut self) -> Option<()> {
        if self.reader.eat("E") {
            return Some(());
        }
        let arguments = Task::OwnArguments;
        self.schedule(&[Task::UnqualifiedName, Task::Scope, arguments, Task::Level])
    }

    /// Reads the values of an operator.
    fn operator(&mut self, letters: &str) -> Option<()> {
        let (_, sign, parts) = operator_of(letters)?;
        match parts {
            1 => self.schedule(&[Task::Expression, Task::Unary(sign)]),
            2 => self.schedule(&[Task::Expression, Task::Expression, Task::Binary(sign)]),
            _ => None,
        }
    }

    /// Reads the arguments of a name in a value, if it has any.
    pub(crate) fn own_arguments(&mut self) -> Option<()> {
        if self.reader.peek() == b'I' {
            self.schedule(&[Task::ArgumentsOf(false)])
        } else {
            Some(())
        }
    }

    /// Reads a value that is written in the name (`<expr-primary>`).
    fn literal(&mut self) -> Option<()> {
        self.reader.take(1)?;
        if self.reader.eat("_Z") {
            return self.schedule(&[Task::Encoding, Task::Skip("E")]);
        }
        self.schedule(&[Task::Type, Task::LiteralEnd])
    }

    /// Reads the digits of a value, after its type.
    pub(crate) fn literal_end(&mut self) -> Option<()> {
        let digits = self.reader.take_of("n0123456789abcdef")?;
        self.reader.expect("E")?;
        let of_type = self.values.pop()?;
        self.put(Node::Literal(of_type, digits))
    }
}
