//! The packets that have a name: those that begin with `q`, `Q` and `v`.

ghost use Rattle.std.specs.Prelude.{◌≡◌, ◌≢◌, ◌==◌, ℕ, List, Some, codes, is_some};
ghost use Rattle.std.specs.Prelude.{option_map, option_and_then};
ghost use Rattle.std.specs.List.{list_all, slice_split};
ghost use Rattle.gdb_packets.specs.Digits.{number_of};
ghost use Rattle.gdb_packets.specs.Texts.{after, cut_at};
ghost use Rattle.gdb_packets.specs.Commands.{command_or_malformed, lone, name_in, behind_name};
ghost use Rattle.gdb_packets.specs.Commands.{process_of, tags_of, triple_of};
ghost use Rattle.gdb_packets.specs.Commands.{action_of, thread_action, first_action};
ghost use Rattle.gdb_packets.specs.Commands.{AsksFile, AsksNamed, AsksQuery, AsksSetting};

use crate::arguments::{
    bare, optional_process, parse_range, parse_signal, parse_thread, parse_triple, some_digits,
};
use crate::command::{Action, Command, FileCall, Thread};
use crate::digits::{is_hex, read_number};
use crate::text::{front, is, split_name, split_once, strip};

/// A packet that begins with `q`, without it.
pub fn parse_query(text: &[u8]) -> Option<Command<'_>>
    ensures { AsksQuery (name_in text.now) (behind_name text.now) (command_or_malformed result) }
{
    let (name, rest) = split_name(text);
    if is(name, b"Supported") {
        parse_supported(rest)
    } else if is(name, b"Xfer") {
        parse_object(rest)
    } else if is(name, b"MemTags") {
        parse_tags(rest)
    } else if is(name, b"Rcmd") {
        parse_monitor(rest)
    } else if is(name, b"Attached") {
        parse_attached(rest)
    } else if is(name, b"Symbol") {
        parse_symbols(rest)
    } else {
        parse_bare_query(name, rest)
    }
}

/// A query with nothing after its name.
fn parse_bare_query<'a>(name: &'a [u8], rest: &'a [u8]) -> Option<Command<'a>>
    requires other { name.now ≢ codes "MemTags" }
    requires another { name.now ≢ codes "Attached" }
    ensures { AsksQuery name.now rest.now (command_or_malformed result) }
{
    if is(name, b"C") {
        bare(rest, Command::CurrentThread)
    } else if is(name, b"fThreadInfo") {
        bare(rest, Command::FirstThreads)
    } else if is(name, b"sThreadInfo") {
        bare(rest, Command::NextThreads)
    } else if is(name, b"Offsets") {
        bare(rest, Command::Offsets)
    } else {
        Some(Command::Unknown)
    }
}

/// A packet that begins with `Q`, without it.
pub fn parse_setting(text: &[u8]) -> Option<Command<'_>>
    ensures { AsksSetting (name_in text.now) (behind_name text.now) (command_or_malformed result) }
{
    let (name, rest) = split_name(text);
    if is(name, b"StartNoAckMode") {
        bare(rest, Command::StartNoAckMode)
    } else if is(name, b"MemTags") {
        parse_tag_writing(rest)
    } else {
        Some(Command::Unknown)
    }
}

/// A packet that begins with `v`, without it.
pub fn parse_named(text: &[u8]) -> Option<Command<'_>>
    ensures { AsksNamed (name_in text.now) (behind_name text.now) (command_or_malformed result) }
{
    let (name, rest) = split_name(text);
    if is(name, b"Cont") {
        parse_actions(strip(rest, b';')?)
    } else if is(name, b"Cont?") {
        bare(rest, Command::ResumeActions)
    } else if is(name, b"File") {
        parse_file(strip(rest, b':')?)
    } else if is(name, b"Kill") {
        parse_kill(rest)
    } else if is(name, b"Run") {
        parse_run(rest)
    } else if is(name, b"MustReplyEmpty") {
        bare(rest, Command::MustReplyEmpty)
    } else {
        Some(Command::Unknown)
    }
}

/// `::` or `:VALUE:NAME`
fn parse_symbols(rest: &[u8]) -> Option<Command<'_>> {
    let _ = split_once(strip(rest, b':')?, b':')?;
    Some(Command::Symbols)
}

/// `,XX..`
fn parse_monitor(rest: &[u8]) -> Option<Command<'_>> {
    let digits = strip(rest, b',')?;
    if is_hex(digits) {
        Some(Command::Monitor { digits })
    } else {
        None
    }
}

/// `:OBJECT:read:ANNEX:OFFSET,LENGTH`
fn parse_object(rest: &[u8]) -> Option<Command<'_>> {
    let (object, rest) = split_once(strip(rest, b':')?, b':')?;
    let (operation, rest) = split_once(rest, b':')?;
    if !is(operation, b"read") {
        return Some(Command::Unknown);
    }
    let (annex, range) = split_once(rest, b':')?;
    let (offset, len) = parse_range(range)?;
    Some(Command::ReadObject {
        object,
        annex,
        offset,
        len,
    })
}

/// `:ADDRESS,LENGTH:KIND`
#[tactic(auto, unfolding(crate::specs::Commands::tags_of))]
fn parse_tags(rest: &[u8]) -> Option<Command<'_>>
    ensures { result ≡ tags_of rest.now }
{
    let (range, kind) = split_once(strip(rest, b':')?, b':')?;
    let (address, len) = parse_range(range)?;
    let kind = read_number(kind)?;
    Some(Command::ReadTags { address, len, kind })
}

/// `:ADDRESS,LENGTH:KIND:XX..`
fn parse_tag_writing(rest: &[u8]) -> Option<Command<'_>> {
    let (range, rest) = split_once(strip(rest, b':')?, b':')?;
    let (kind, digits) = split_once(rest, b':')?;
    let (address, len) = parse_range(range)?;
    Some(Command::WriteTags {
        address,
        len,
        kind: read_number(kind)?,
        digits: some_digits(digits)?,
    })
}

/// Nothing, or `:PROCESS`.
fn parse_attached(rest: &[u8]) -> Option<Command<'_>>
    ensures { result ≡ option_map (λ p. Command.IsAttached p) (process_of 58 rest.now) }
{
    let process = optional_process(rest, b':')?;
    Some(Command::IsAttached { process })
}

/// Nothing, or `:FEATURE;FEATURE..`.
fn parse_supported(rest: &[u8]) -> Option<Command<'_>> {
    if rest.is_empty() {
        return Some(Command::Supported { features: rest });
    }
    let features = strip(rest, b':')?;
    Some(Command::Supported { features })
}

/// `;PROCESS`
fn parse_kill(rest: &[u8]) -> Option<Command<'_>>
    ensures { result ≡ option_map (λ p. Command.KillProcess p)
        (option_and_then number_of (after 59 rest.now)) }
{
    let process = read_number(strip(rest, b';')?)?;
    Some(Command::KillProcess { process })
}

/// `;FILE[;ARGUMENT]..`
fn parse_run(rest: &[u8]) -> Option<Command<'_>>
    ensures { result ≡ option_map (λ _. Command.Run) (after 59 rest.now) }
{
    let _words = strip(rest, b';')?;
    Some(Command::Run)
}

/// `OPERATION:..`
fn parse_file(text: &[u8]) -> Option<Command<'_>>
    ensures { (operation rest : List ℕ)
        → cut_at (λ b. b == 58) text.now ≡ Some (operation, rest)
        → AsksFile operation rest (command_or_malformed result) }
{
    let (operation, rest) = split_once(text, b':')?;
    parse_operation(operation, rest)
}

fn parse_operation<'a>(operation: &'a [u8], rest: &'a [u8]) -> Option<Command<'a>>
    ensures { AsksFile operation.now rest.now (command_or_malformed result) }
{
    let call = if is(operation, b"open") {
        parse_open(rest)?
    } else if is(operation, b"pread") {
        parse_read(rest)?
    } else if is(operation, b"close") {
        let descriptor = read_number(rest)?;
        FileCall::Close { descriptor }
    } else if is(operation, b"fstat") {
        let descriptor = read_number(rest)?;
        FileCall::Status { descriptor }
    } else if is(operation, b"setfs") {
        let process = read_number(rest)?;
        FileCall::SetFilesystem { process }
    } else if is(operation, b"readlink") {
        let path = some_digits(rest)?;
        FileCall::ReadLink { path }
    } else {
        return Some(Command::Unknown);
    };
    Some(Command::File(call))
}

/// `PATH,FLAGS,MODE`
fn parse_open(text: &[u8]) -> Option<FileCall<'_>> {
    let (path, rest) = split_once(text, b',')?;
    let (flags, mode) = parse_range(rest)?;
    Some(FileCall::Open {
        path: some_digits(path)?,
        flags,
        mode,
    })
}

/// `DESCRIPTOR,COUNT,OFFSET`
fn parse_read(text: &[u8]) -> Option<FileCall<'_>>
    ensures { result ≡ option_map (λ t. FileCall.Read t.0 t.1 t.2) (triple_of text.now) }
{
    let (descriptor, count, offset) = parse_triple(text)?;
    Some(FileCall::Read {
        descriptor,
        count,
        offset,
    })
}

/// `ACTION[:THREAD];ACTION[:THREAD]..`
fn parse_actions(text: &[u8]) -> Option<Command<'_>>
    ensures { result ≡ option_map (λ a. Command.ResumeThread a.0 a.1) (first_action text.now) }
{
    if !are_actions(text) {
        return None;
    }
    let (action, thread) = parse_action(front(text, b';'))?;
    Some(Command::ResumeThread { action, thread })
}

fn are_actions(text: &[u8]) -> bool
    ensures { result ≡ list_all (λ piece. is_some (thread_action piece))
        (slice_split (λ b. b == 59) text.now) }
{
    text.split(|b| *b == b';').all(|piece| is_action(piece))
}

fn is_action(text: &[u8]) -> bool
    ensures { result ≡ is_some (thread_action text.now) }
{
    parse_action(text).is_some()
}

#[tactic(auto, unfolding(crate::specs::Commands::thread_action))]
fn parse_action(text: &[u8]) -> Option<(Action, Option<Thread>)>
    ensures { result ≡ thread_action text.now }
{
    match split_once(text, b':') {
        None => Some((action_of(text)?, None)),
        Some((action, thread)) => Some((action_of(action)?, Some(parse_thread(thread)?))),
    }
}

#[tactic(auto, unfolding(crate::specs::Commands::action_of))]
fn action_of(text: &[u8]) -> Option<Action>
    ensures { result ≡ action_of text.now }
{
    let (letter, rest) = text.split_first()?;
    match *letter {
        b'c' => lone(rest, Action::Continue { signal: None }),
        b's' => lone(rest, Action::Step { signal: None }),
        b't' => lone(rest, Action::Stop),
        b'C' => Some(Action::Continue {
            signal: Some(parse_signal(rest)?),
        }),
        b'S' => Some(Action::Step {
            signal: Some(parse_signal(rest)?),
        }),
        b'r' => {
            let (start, end) = parse_range(rest)?;
            Some(Action::StepRange { start, end })
        }
        _ => None,
    }
}

/// An action with nothing after its letter.
fn lone(rest: &[u8], action: Action) -> Option<Action>
    ensures { result ≡ lone rest.now action }
{
    if rest.is_empty() { Some(action) } else { None }
}
