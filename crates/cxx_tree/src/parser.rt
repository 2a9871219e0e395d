//! The parser: what is to be read next, and the nodes of what was read.

use crate::nodes::{Id, Node, Nodes};
use crate::reader::NameReader;
use arrayvec::ArrayVec;

/// The most nodes of a name.
const NODES: usize = 768;

/// The most that is kept of what is to be read, and of what was read.
const DEPTH: usize = 192;

/// The most steps.
const STEPS: usize = 8_192;

/// The use of a list.
#[derive(Clone, Copy, PartialEq, Eq)]
pub enum ListKind {
    /// Arguments of a template, up to `E`.
    Arguments,
    /// The types of parameters, up to the end of a name.
    Parameters,
    /// Values, up to `E`.
    Values,
}

/// A part to be read, or work on parts that were read.
#[derive(Clone, Copy)]
pub enum Task<'a> {
    Nothing,
    /// A name with the type of its function.
    Encoding,
    EncodingTail,
    EncodingEnd(bool, &'a str),
    /// A name; whether its arguments are those of the function.
    Name(bool),
    NameArguments(bool),
    UnqualifiedName,
    Scope,
    /// The parts of a nested name, of which the first is at a place of the values.
    Nested(usize, bool),
    NestedEnd(&'a str),
    LocalTail(bool),
    Discriminator,
    LocalScope,
    Type,
    Substitution,
    Template,
    /// A list from a place of the values on.
    List(usize, ListKind),
    Argument,
    ArgumentsOf(bool),
    /// The arguments that `T_` names from now on.
    Use(Id),
    UseNewest,
    Pack,
    Expansion,
    Qualified(&'a str),
    Pointer(&'static str),
    Member,
    FunctionEnd(&'a str),
    Array,
    Conversion,
    LambdaEnd,
    Between(&'a str, &'a str),
    Skip(&'static str),
    SkipNumber,
    ReferenceTail,
    Expression,
    LiteralEnd,
    Unary(&'a str),
    Binary(&'a str),
    Call,
    Cast,
    InScope,
    OwnArguments,
    Level,
}

impl<'a> Default for Task<'a> {
    fn default() -> Task<'a> {
        Task::Nothing
    }
}

/// A name that is being read.
#[derive(Drop)]
pub struct Parser<'a> {
    pub reader: NameReader<'a>,
    nodes: ArrayVec<Node<'a>, NODES>,
    tasks: ArrayVec<Task<'a>, DEPTH>,
    /// The nodes that were read and have no place yet.
    pub values: ArrayVec<Id, DEPTH>,
    /// The nodes of `S_` and so on.
    pub substitutions: ArrayVec<Id, DEPTH>,
    /// The nodes of `T_` and so on, as a list.
    pub arguments: Id,
    /// Whether parameters of a lambda are being read.
    pub in_lambda: bool,
    /// Whether the type of a conversion is being read.
    pub in_conversion: bool,
}

impl<'a> Parser<'a> {
    /// A parser at the start of a name.
    pub fn new(reader: NameReader<'a>) -> Parser<'a> {
        let mut nodes = ArrayVec::new();
        let _ = nodes.try_push(Node::Nothing);
        Parser {
            reader,
            nodes,
            tasks: ArrayVec::new(),
            values: ArrayVec::new(),
            substitutions: ArrayVec::new(),
            arguments: 0,
            in_lambda: false,
            in_conversion: false,
        }
    }

    /// The nodes so far.
    pub fn nodes(&self) -> Nodes<'_, 'a> {
        Nodes {
            list: self.nodes.as_slice(),
            arguments: self.arguments,
        }
    }

    /// Reads an encoding: the number of its node.
    pub fn read(&mut self) -> Option<Id> {
        self.schedule(&[Task::Encoding])?;
        for _ in 0..STEPS {
            let Some(task) = self.tasks.pop() else {
                return self.values.pop();
            };
            self.perform(task)?;
        }
        None
    }

    /// The work that is left, in this order.
    pub fn schedule(&mut self, tasks: &[Task<'a>]) -> Option<()> {
        for task in tasks.iter().rev() {
            self.push(*task)?;
        }
        Some(())
    }

    fn push(&mut self, task: Task<'a>) -> Option<()> {
        self.tasks.try_push(task).ok()
    }

    /// A new node.
    pub fn node(&mut self, node: Node<'a>) -> Option<Id> {
        let id = self.nodes.len();
        self.nodes.try_push(node).ok()?;
        Some(id)
    }

    /// Puts a new node onto what was read.
    pub fn put(&mut self, node: Node<'a>) -> Option<()> {
        let id = self.node(node)?;
        self.values.try_push(id).ok()
    }

    /// The newest that was read.
    pub fn newest(&self) -> Option<Id> {
        let id = self.values.as_slice().last()?;
        Some(*id)
    }

    /// Does what is next.
    fn perform(&mut self, task: Task<'a>) -> Option<()> {
        match task {
            Task::Nothing => Some(()),
            Task::Encoding => self.encoding(),
            Task::EncodingTail => self.encoding_tail(),
            Task::EncodingEnd(has_result, qualifiers) => self.encoding_end(has_result, qualifiers),
            Task::Name(is_function) => self.name(is_function),
            Task::NameArguments(is_function) => self.name_arguments(is_function),
            Task::UnqualifiedName => self.unqualified_name(),
            Task::Nested(first, is_function) => self.nested(first, is_function),
            Task::LocalTail(is_function) => self.local_tail(is_function),
            Task::Type => self.read_type(),
            Task::Substitution => {
                let id = self.newest()?;
                self.substitutions.try_push(id).ok()
            }
            Task::List(first, kind) => self.list(first, kind),
            Task::Argument => self.argument(),
            Task::Expression => self.expression(),
            _ => self.finish(task),
        }
    }

    /// Does what is next where that is the end of a part of a name.
    fn finish(&mut self, task: Task<'a>) -> Option<()> {
        match task {
            Task::NestedEnd(qualifiers) => self.nested_end(qualifiers),
            Task::ArgumentsOf(is_function) => self.arguments_of(is_function),
            Task::Discriminator => self.discriminator(),
            Task::LocalScope => self.local_scope(),
            Task::Level => self.level(),
            Task::FunctionEnd(qualifiers) => self.function_end(qualifiers),
            Task::LambdaEnd => self.lambda_end(),
            Task::ReferenceTail => self.reference_tail(),
            Task::LiteralEnd => self.literal_end(),
            Task::OwnArguments => self.own_arguments(),
            Task::Skip(letters) => self.reader.expect(letters),
            Task::SkipNumber => {
                self.reader.number()?;
                self.reader.expect("_")
            }
            Task::Use(arguments) => {
                self.arguments = arguments;
                Some(())
            }
            Task::UseNewest => {
                self.arguments = self.newest()?;
                Some(())
            }
            Task::Conversion => {
                self.in_conversion = false;
                self.build(task)
            }
            _ => self.build(task),
        }
    }

    /// Makes a node of the newest that was read, or of the two newest.
    fn build(&mut self, task: Task<'a>) -> Option<()> {
        let last = self.values.pop()?;
        let node = match of_one(task, last) {
            Some(node) => node,
            None => {
                let first = self.values.pop()?;
                of_two(task, first, last)?
            }
        };
        self.put(node)
    }
}

/// The node of what was read, where it has one part.
fn of_one<'a>(task: Task<'a>, part: Id) -> Option<Node<'a>> {
    let node = match task {
        Task::Pack => Node::Pack(part),
        Task::Expansion => Node::Expansion(part),
        Task::Pointer(sign) => Node::Pointer(part, sign),
        Task::Qualified(letters) => Node::Qualified(part, letters),
        Task::Between(before, after) => Node::Between(before, part, after),
        Task::Unary(sign) => Node::Unary(sign, part),
        Task::Conversion => Node::Conversion(part),
        _ => return None,
    };
    Some(node)
}

/// The node of what was read, where it has two parts.
fn of_two<'a>(task: Task<'a>, first: Id, last: Id) -> Option<Node<'a>> {
    let node = match task {
        Task::Scope => Node::Scope(first, last),
        Task::Template => Node::Template(first, last),
        Task::Member => Node::Member(first, last),
        Task::Array => Node::Array(last, first),
        Task::Binary(sign) => Node::Binary(sign, first, last),
        Task::Call => Node::Call(first, last),
        Task::Cast => Node::Cast(first, last),
        Task::InScope => Node::InScope(first, last),
        _ => return None,
    };
    Some(node)
}
