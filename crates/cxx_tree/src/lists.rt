//! Lists: of parameters, of the arguments of templates, of values.

use crate::nodes::Node;
use crate::parser::{ListKind, Parser, Task};

impl<'a> Parser<'a> {
    /// Reads the next of a list whose first is at a place of the values, or ends it.
    pub(crate) fn list(&mut self, first: usize, kind: ListKind) -> Option<()> {
        if self.list_ends(kind) {
            return self.fold(first);
        }
        let item = match kind {
            ListKind::Arguments => Task::Argument,
            ListKind::Parameters => Task::Type,
            ListKind::Values => Task::Expression,
        };
        self.schedule(&[item, Task::List(first, kind)])
    }

    /// Whether a list ends here. The `E` after parameters is of what they are in.
    fn list_ends(&mut self, kind: ListKind) -> bool {
        if kind != ListKind::Parameters {
            return self.reader.eat("E");
        }
        let is_reference = matches!(self.reader.peek(), b'R' | b'O');
        self.reader.ends() || is_reference && self.reader.peek_at(1) == b'E'
    }

    /// Makes a list of the values from a place on.
    fn fold(&mut self, first: usize) -> Option<()> {
        let mut list = 0;
        for _ in first..self.values.len() {
            let item = self.values.pop()?;
            list = self.node(Node::Items(item, list))?;
        }
        self.values.try_push(list).ok()
    }

    /// Reads the arguments of the template that was read (`<template-args>`); whether they are
    /// those of a function.
    pub(crate) fn arguments_of(&mut self, is_function: bool) -> Option<()> {
        self.reader.expect("I")?;
        let first = self.values.len();
        let list = Task::List(first, ListKind::Arguments);
        if is_function {
            self.schedule(&[list, Task::UseNewest, Task::Template])
        } else {
            self.schedule(&[list, Task::Template])
        }
    }

    /// Reads an argument of a template (`<template-arg>`).
    pub(crate) fn argument(&mut self) -> Option<()> {
        match self.reader.peek() {
            b'X' => {
                self.reader.take(1)?;
                self.schedule(&[Task::Expression, Task::Skip("E")])
            }
            b'L' => self.schedule(&[Task::Expression]),
            b'J' | b'I' => {
                self.reader.take(1)?;
                let first = self.values.len();
                self.schedule(&[Task::List(first, ListKind::Arguments), Task::Pack])
            }
            _ => self.schedule(&[Task::Type]),
        }
    }
}
