//! The arguments of commands.

ghost use Rattle.std.specs.Prelude.{◌≡◌, ◌==◌};
ghost use Rattle.gdb_packets.specs.Digits.{some_hex};
ghost use Rattle.gdb_packets.specs.Texts.{cut_at, rest_of};
ghost use Rattle.gdb_packets.specs.Commands.{alone, range_of, triple_of, optional_of};
ghost use Rattle.gdb_packets.specs.Commands.{process_of, signal_of};
ghost use Rattle.gdb_packets.specs.Commands.{id_of, process_thread, thread_of};

use crate::command::{Command, Id, Thread};
use crate::digits::{is_hex, read_number};
use crate::text::{split_once, strip};

/// A command with nothing after its name.
pub fn bare<'a>(rest: &[u8], command: Command<'a>) -> Option<Command<'a>>
    ensures { result ≡ alone rest.now command.entry }
{
    if rest.is_empty() { Some(command) } else { None }
}

/// Digits for one byte or more.
pub fn some_digits(text: &[u8]) -> Option<&[u8]>
    ensures { rest_of result ≡ some_hex text.now }
{
    if !text.is_empty() && is_hex(text) {
        Some(text)
    } else {
        None
    }
}

/// `ADDRESS,LENGTH` and similar.
#[tactic(auto, unfolding(crate::specs::Commands::range_of))]
pub fn parse_range(text: &[u8]) -> Option<(u64, u64)>
    ensures { result ≡ range_of text.now }
{
    let (first, second) = split_once(text, b',')?;
    Some((read_number(first)?, read_number(second)?))
}

/// Three numbers with commas between them.
#[tactic(auto, unfolding(crate::specs::Commands::triple_of))]
pub fn parse_triple(text: &[u8]) -> Option<(u64, u64, u64)>
    ensures { result ≡ triple_of text.now }
{
    let (first, rest) = split_once(text, b',')?;
    let first = read_number(first)?;
    let (second, third) = parse_range(rest)?;
    Some((first, second, third))
}

/// A number, or nothing.
pub fn optional_number(text: &[u8]) -> Option<Option<u64>>
    ensures { result ≡ optional_of text.now }
{
    if text.is_empty() {
        Some(None)
    } else {
        Some(Some(read_number(text)?))
    }
}

/// Nothing, or a separator and a process.
pub fn optional_process(text: &[u8], separator: u8) -> Option<Option<u64>>
    ensures { result ≡ process_of separator text.now }
{
    if text.is_empty() {
        Some(None)
    } else {
        Some(Some(read_number(strip(text, separator)?)?))
    }
}

/// A number of one byte.
pub fn parse_signal(text: &[u8]) -> Option<u8>
    ensures { result ≡ signal_of text.now }
{
    let number = read_number(text)?;
    if number < 256 {
        Some(number as u8)
    } else {
        None
    }
}

/// A thread, as `H`, `T` and `vCont` name it.
#[tactic(auto, unfolding(crate::specs::Commands::thread_of))]
pub fn parse_thread(text: &[u8]) -> Option<Thread>
    ensures { result ≡ thread_of text.now }
{
    let Some(rest) = strip(text, b'p') else {
        let thread = parse_id(text)?;
        return Some(Thread {
            process: None,
            thread,
        });
    };
    parse_process_thread(rest)
}

/// The argument of a `p`.
#[tactic(auto, unfolding(crate::specs::Commands::process_thread))]
fn parse_process_thread(text: &[u8]) -> Option<Thread>
    ensures { result ≡ process_thread (cut_at (λ b. b == 46) text.now) text.now }
{
    match split_once(text, b'.') {
        None => Some(Thread {
            process: Some(parse_id(text)?),
            thread: Id::All,
        }),
        Some((process, thread)) => Some(Thread {
            process: Some(parse_id(process)?),
            thread: parse_id(thread)?,
        }),
    }
}

#[tactic(auto, unfolding(crate::specs::Commands::id_of))]
fn parse_id(text: &[u8]) -> Option<Id>
    ensures { result ≡ id_of text.now }
{
    if let [b'-', b'1'] = text {
        return Some(Id::All);
    }
    match read_number(text)? {
        0 => Some(Id::Any),
        number => Some(Id::One(number)),
    }
}
