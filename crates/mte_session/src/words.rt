//! The words of a command line, and the names among them.

ghost use Rattle.std.specs.Prelude.{◌≡◌, ◌∷◌, ◌≤◌, map, length, IfOk};
ghost use Rattle.mte_session.specs.Reads.{names_of};

use common::PrintableLines;
use std::alloc::{AllocError, Global};
use std::env::Args;
use std::{env, io};

/// How a program ends before it runs.
#[derive(Clone, Copy)]
pub enum EarlyEnd {
    /// Nothing more is done: help or a usage fault was printed. The exit status.
    Exit(u8),
    /// An allocation failed.
    OutOfMemory,
}

/// The arguments of the process; prints that one is no text, under the program's name.
pub fn read_words(rt: &HostRuntime, program: &str) -> Result<Vec<String>, EarlyEnd> {
    match env::args(rt) {
        Ok(args) => collect_words(rt.alloc(), args).map_err(|_| EarlyEnd::OutOfMemory),
        Err(error) => Err(end_of_unreadable(rt, program, &error)),
    }
}

/// How to exit if the arguments cannot be read: out of memory, or not UTF-8.
fn end_of_unreadable(rt: &HostRuntime, program: &str, error: &io::Error) -> EarlyEnd {
    if error.kind() == io::ErrorKind::OutOfMemory {
        return EarlyEnd::OutOfMemory;
    }
    let _ = eprintln!(rt; "{program}: an argument is not text");
    EarlyEnd::Exit(2)
}

/// Prints the answer to a command line that asks for no run: a fault on standard error, help and
/// the like on standard output. Control characters of words in it are shown as they are escaped.
pub fn print_answer(rt: &HostRuntime, text: &str, is_fault: bool) -> EarlyEnd {
    let lines = PrintableLines(text);
    if is_fault {
        let _ = eprint!(rt; "{lines}");
        return EarlyEnd::Exit(2);
    }
    match print!(rt; "{lines}") {
        Ok(()) => EarlyEnd::Exit(0),
        Err(_) => EarlyEnd::Exit(6),
    }
}

/// The arguments of the process, all of them or none: their room is reserved first, since a vector
/// that collects goes on with less where an allocation is refused.
pub fn collect_words(alloc: Global, args: Args) -> Result<Vec<String>, AllocError> {
    let mut words = Vec::with_capacity(alloc, args.len())?;
    for word in args {
        words.push(word)?;
    }
    Ok(words)
}

/// The names that a program has: its script's, and then those of the files, in order.
pub fn collect_names(alloc: Global, script: &str, files: &[&str]) -> Result<Vec<String>, AllocError>
    ensures names { IfOk result (λ names.
        names_of names.items ≡ script.now ∷ map (λ f. f.now) files.now) }
    ensures some { IfOk result (λ names. 1 ≤ length names.items) }
{
    let mut names = Vec::new(alloc);
    names.push(String::from_str(alloc, script)?)?;
    for name in files {
        names.push(String::from_str(alloc, name)?)?;
    }
    Ok(names)
}
