//! Types (`<type>`) and what stands for what came before (`<substitution>`).

use crate::nodes::{Id, Node};
use crate::parser::{ListKind, Parser, Task};
use crate::reader::DIGITS;

/// The type of one letter.
fn type_of_letter(letter: u8) -> Option<&'static str> {
    let text = match letter {
        b'a' => "signed char",
        b'b' => "bool",
        b'c' => "char",
        b'd' => "double",
        b'e' => "long double",
        b'f' => "float",
        b'g' => "__float128",
        b'h' => "unsigned char",
        b'i' => "int",
        b'j' => "unsigned int",
        b'l' => "long",
        b'm' => "unsigned long",
        b'n' => "__int128",
        b'o' => "unsigned __int128",
        b's' => "short",
        b't' => "unsigned short",
        b'v' => "void",
        b'w' => "wchar_t",
        b'x' => "long long",
        b'y' => "unsigned long long",
        b'z' => "...",
        _ => return None,
    };
    Some(text)
}

/// The type of a letter after `D`.
fn type_behind_d(letter: u8) -> Option<&'static str> {
    let text = match letter {
        b'a' => "auto",
        b'c' => "decltype(auto)",
        b'd' => "decimal64",
        b'e' => "decimal128",
        b'f' => "decimal32",
        b'h' => "half",
        b'i' => "char32_t",
        b'n' => "decltype(nullptr)",
        b's' => "char16_t",
        b'u' => "char8_t",
        _ => return None,
    };
    Some(text)
}

impl<'a> Parser<'a> {
    /// Reads a type.
    pub(crate) fn read_type(&mut self) -> Option<()> {
        match self.reader.peek() {
            b'r' | b'V' | b'K' => self.qualified_type(),
            b'P' => self.pointer("*"),
            b'R' => self.pointer("&"),
            b'O' => self.pointer("&&"),
            b'F' => self.function_type("", ""),
            b'A' => self.array(),
            b'M' => {
                self.reader.take(1)?;
                self.schedule(&[Task::Type, Task::Type, Task::Member, Task::Substitution])
            }
            b'T' => self.parameter_type(),
            b'D' => self.type_of_d(),
            b'C' => {
                self.reader.take(1)?;
                self.schedule(&[Task::Type, Task::Qualified("C"), Task::Substitution])
            }
            b'S' if self.reader.peek_at(1) != b't' => self.substitution_type(),
            b'u' => {
                self.reader.take(1)?;
                let name = self.reader.source_name()?;
                self.put(Node::Text(name))?;
                self.schedule(&[Task::Substitution])
            }
            b'a'..=b'z' => self.letter_type(),
            _ => self.schedule(&[Task::Name(false), Task::Substitution]),
        }
    }

    /// Reads a type of one letter, which no substitution stands for.
    fn letter_type(&mut self) -> Option<()> {
        let letter = self.reader.peek();
        self.reader.take(1)?;
        self.put(Node::Text(type_of_letter(letter)?))
    }

    /// Reads a type with qualifiers, or a function with them.
    fn qualified_type(&mut self) -> Option<()> {
        let letters = self.reader.take_of("rVK")?;
        if self.reader.peek() == b'F' {
            return self.function_type(letters, "");
        }
        self.schedule(&[Task::Type, Task::Qualified(letters), Task::Substitution])
    }

    fn pointer(&mut self, sign: &'static str) -> Option<()> {
        self.reader.take(1)?;
        self.schedule(&[Task::Type, Task::Pointer(sign), Task::Substitution])
    }

    /// Reads the type of a function with qualifiers: those in front of its `&`, and those after.
    fn function_type(&mut self, before: &'a str, after: &'a str) -> Option<()> {
        self.reader.expect("F")?;
        self.reader.eat("Y");
        let list = Task::List(self.values.len(), ListKind::Parameters);
        let end = Task::FunctionEnd(before);
        if after.is_empty() {
            return self.schedule(&[list, end, Task::Substitution]);
        }
        self.schedule(&[list, end, Task::Qualified(after), Task::Substitution])
    }

    /// Reads what is after the types of a function.
    pub(crate) fn function_end(&mut self, before: &'a str) -> Option<()> {
        let letters = self.reader.take_of("RO")?;
        self.reader.expect("E")?;
        let list = self.values.pop()?;
        let function = self.function_of(list, true)?;
        let function = self.qualified(function, before)?;
        let function = self.qualified(function, letters)?;
        self.values.try_push(function).ok()
    }

    /// Reads an array: its length in digits, as a value or not at all.
    fn array(&mut self) -> Option<()> {
        self.reader.take(1)?;
        let rest = [Task::Skip("_"), Task::Type, Task::Array, Task::Substitution];
        if !self.reader.peek().is_ascii_digit() && self.reader.peek() != b'_' {
            self.schedule(&rest)?;
            return self.schedule(&[Task::Expression]);
        }
        let length = self.reader.take_of(DIGITS)?;
        self.put(Node::Text(length))?;
        self.schedule(&rest)
    }

    /// Reads a type that is a parameter of a template.
    fn parameter_type(&mut self) -> Option<()> {
        if matches!(self.reader.peek_at(1), b's' | b'u' | b'e') {
            self.reader.take(2)?;
            return self.schedule(&[Task::Name(false), Task::Substitution]);
        }
        self.template_parameter()?;
        if self.reader.peek() == b'I' && !self.in_conversion {
            let arguments = Task::ArgumentsOf(false);
            return self.schedule(&[Task::Substitution, arguments, Task::Substitution]);
        }
        self.schedule(&[Task::Substitution])
    }

    /// Reads a parameter of a template, `T_`.
    pub(crate) fn template_parameter(&mut self) -> Option<()> {
        self.reader.expect("T")?;
        let place = self.reader.counted()?;
        if self.in_lambda {
            return self.put(Node::Numbered("auto:", place.checked_add(1)?, ""));
        }
        match self.nodes().item(self.arguments, place) {
            Some(argument) if !self.in_conversion => self.put_argument(argument),
            _ => self.put(Node::Parameter(place)),
        }
    }

    /// Puts the argument of a parameter onto what was read.
    fn put_argument(&mut self, argument: Id) -> Option<()> {
        match self.nodes().at(argument) {
            Node::Pack(list) => self.put(Node::PackParameter(list)),
            _ => self.values.try_push(argument).ok(),
        }
    }

    /// Reads a type that begins with `D`.
    fn type_of_d(&mut self) -> Option<()> {
        let letter = self.reader.peek_at(1);
        self.reader.take(2)?;
        match letter {
            b'o' => self.function_type("", "N"),
            b'x' => self.function_type("", ""),
            b'p' => self.schedule(&[Task::Type, Task::Expansion, Task::Substitution]),
            b't' | b'T' => {
                let words = Task::Between("decltype (", ")");
                self.schedule(&[Task::Expression, Task::Skip("E"), words, Task::Substitution])
            }
            b'F' => {
                let bits = self.reader.number()?;
                self.reader.expect("_")?;
                self.put(Node::Numbered("_Float", bits, ""))
            }
            _ => self.put(Node::Text(type_behind_d(letter)?)),
        }
    }

    /// Reads a type that came before, or a template that did, with arguments.
    fn substitution_type(&mut self) -> Option<()> {
        self.substitution()?;
        if self.reader.peek() != b'I' {
            return Some(());
        }
        self.schedule(&[Task::ArgumentsOf(false), Task::Substitution])
    }

    /// Reads what stands for what came before.
    pub(crate) fn substitution(&mut self) -> Option<()> {
        self.reader.expect("S")?;
        let letter = self.reader.peek();
        if letter.is_ascii_lowercase() {
            self.known(letter)
        } else {
            self.earlier()
        }
    }

    /// Reads a name of the standard library, at its letter.
    fn known(&mut self, letter: u8) -> Option<()> {
        self.reader.take(1)?;
        let behind = self.reader.peek_at(1);
        let is_class = match self.reader.peek() {
            b'C' => behind == b'I' || behind.is_ascii_digit(),
            b'D' => behind.is_ascii_digit(),
            _ => false,
        };
        self.put(known_name(letter, is_class)?)
    }

    /// Reads the number of what came before.
    fn earlier(&mut self) -> Option<()> {
        let place = self.reader.sequence()?;
        let id = self.substitutions.as_slice().get(place)?;
        self.values.try_push(*id).ok()
    }
}

/// The name of the standard library that a letter stands for: in full where a constructor or a
/// destructor is after it.
fn known_name(letter: u8, is_class: bool) -> Option<Node<'static>> {
    let node = match (letter, is_class) {
        (b'a', _) => Node::Known("std::allocator", "allocator"),
        (b'b', _) => Node::Known("std::basic_string", "basic_string"),
        (b's', false) => Node::Known("std::string", "string"),
        (b'i', false) => Node::Known("std::istream", "istream"),
        (b'o', false) => Node::Known("std::ostream", "ostream"),
        (b'd', false) => Node::Known("std::iostream", "iostream"),
        (b's', true) => Node::Known(
            "std::basic_string<char, std::char_traits<char>, std::allocator<char> >",
            "basic_string",
        ),
        (b'i', true) => Node::Known(
            "std::basic_istream<char, std::char_traits<char> >",
            "basic_istream",
        ),
        (b'o', true) => Node::Known(
            "std::basic_ostream<char, std::char_traits<char> >",
            "basic_ostream",
        ),
        (b'd', true) => Node::Known(
            "std::basic_iostream<char, std::char_traits<char> >",
            "basic_iostream",
        ),
        _ => return None,
    };
    Some(node)
}
