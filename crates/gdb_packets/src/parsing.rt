//! The command of a packet's data.

ghost use Rattle.std.specs.Prelude.{◌≡◌, ◌∷◌, [], ℕ, List, option_map};
ghost use Rattle.gdb_packets.specs.Digits.{number_of};
ghost use Rattle.gdb_packets.specs.Commands.{command_or_malformed, name_in, behind_name};
ghost use Rattle.gdb_packets.specs.Commands.{range_of, triple_of, optional_of, process_of};
ghost use Rattle.gdb_packets.specs.Commands.{point_kind, point_command, signal_and_address};
ghost use Rattle.gdb_packets.specs.Commands.{back_of, thread_of, select_of};
ghost use Rattle.gdb_packets.specs.Commands.{Asks, AsksNamed, AsksQuery, AsksSetting};

use crate::arguments::{
    bare, optional_number, optional_process, parse_range, parse_signal, parse_thread, parse_triple,
    some_digits,
};
use crate::command::{Action, Command, Point};
use crate::digits::{is_hex, read_number};
use crate::queries::{parse_named, parse_query, parse_setting};
use crate::text::{split_once, strip};

/// The command of a packet's data, without their escapes. Each text has one.
///
/// The clauses say which texts are unknown by their beginning, and what all others ask, but for the
/// commands that hold a part of the text (`P`, `G`, `M`, `X`, `qSupported`, `qXfer`, `qRcmd`,
/// `QMemTags`, `vFile:open`, `vFile:readlink`) and `qSymbol`: of those tests say.
pub fn parse_command(text: &[u8]) -> Command<'_>
    ensures empty { text.now ≡ [] → result ≡ Command.Unknown }
    ensures letter { (letter : ℕ) (rest : List ℕ) → text.now ≡ letter ∷ rest
        → Asks letter rest result }
    ensures query { (rest : List ℕ) → text.now ≡ 113 ∷ rest
        → AsksQuery (name_in rest) (behind_name rest) result }
    ensures named { (rest : List ℕ) → text.now ≡ 118 ∷ rest
        → AsksNamed (name_in rest) (behind_name rest) result }
    ensures setting { (rest : List ℕ) → text.now ≡ 81 ∷ rest
        → AsksSetting (name_in rest) (behind_name rest) result }
{
    let command = match text {
        [] => Some(Command::Unknown),
        [b'q', rest @ ..] => parse_query(rest),
        [b'Q', rest @ ..] => parse_setting(rest),
        [b'v', rest @ ..] => parse_named(rest),
        [letter, rest @ ..] => parse_letter(*letter, rest),
    };
    command.unwrap_or(Command::Malformed)
}

/// The command of one letter and what follows it.
fn parse_letter(letter: u8, rest: &[u8]) -> Option<Command<'_>>
    ensures { Asks letter rest.now (command_or_malformed result) }
{
    match letter {
        b'!' => bare(rest, Command::StartExtendedMode),
        b'?' => bare(rest, Command::StopReason),
        b'g' => bare(rest, Command::ReadRegisters),
        b'k' => bare(rest, Command::Kill),
        b'b' => Some(parse_back(rest)),
        b'm' => parse_memory(rest),
        b'M' => parse_memory_writing(rest),
        b'x' => parse_bytes(rest),
        b'X' => parse_bytes_writing(rest),
        b'p' => parse_register(rest),
        b'P' => parse_register_writing(rest),
        b'G' => parse_all_registers(rest),
        b'c' => parse_resume(rest, Action::Continue { signal: None }),
        b's' => parse_resume(rest, Action::Step { signal: None }),
        b'C' => parse_signal_continuation(rest),
        b'S' => parse_signal_step(rest),
        b'Z' => parse_insertion(rest),
        b'z' => parse_removal(rest),
        b'H' => parse_select(rest),
        b'T' => parse_life(rest),
        b'D' => parse_detach(rest),
        _ => Some(Command::Unknown),
    }
}

/// `s` or `c`.
fn parse_back<'a>(rest: &[u8]) -> Command<'a>
    ensures { result ≡ back_of rest.now }
{
    match rest {
        b"s" => Command::StepBack,
        b"c" => Command::ContinueBack,
        _ => Command::Unknown,
    }
}

/// `N`
fn parse_register(rest: &[u8]) -> Option<Command<'_>>
    ensures { result ≡ option_map (λ n. Command.ReadRegister n) (number_of rest.now) }
{
    let number = read_number(rest)?;
    Some(Command::ReadRegister { number })
}

/// `N=XX..`
fn parse_register_writing(rest: &[u8]) -> Option<Command<'_>> {
    let (number, digits) = split_once(rest, b'=')?;
    Some(Command::WriteRegister {
        number: read_number(number)?,
        digits: some_digits(digits)?,
    })
}

fn parse_all_registers(rest: &[u8]) -> Option<Command<'_>> {
    let digits = some_digits(rest)?;
    Some(Command::WriteRegisters { digits })
}

fn parse_memory(rest: &[u8]) -> Option<Command<'_>>
    ensures { result ≡ option_map (λ r. Command.ReadMemory r.0 r.1) (range_of rest.now) }
{
    let (address, len) = parse_range(rest)?;
    Some(Command::ReadMemory { address, len })
}

fn parse_bytes(rest: &[u8]) -> Option<Command<'_>>
    ensures { result ≡ option_map (λ r. Command.ReadBytes r.0 r.1) (range_of rest.now) }
{
    let (address, len) = parse_range(rest)?;
    Some(Command::ReadBytes { address, len })
}

/// `ADDRESS,LENGTH:BYTES`, with as many bytes as the length says.
fn parse_bytes_writing(rest: &[u8]) -> Option<Command<'_>> {
    let (range, bytes) = split_once(rest, b':')?;
    let (address, len) = parse_range(range)?;
    if bytes.len() as u64 == len {
        Some(Command::WriteBytes {
            address,
            len,
            bytes,
        })
    } else {
        None
    }
}

/// `ADDRESS,LENGTH:XX..`, with digits for as many bytes as the length says.
fn parse_memory_writing(rest: &[u8]) -> Option<Command<'_>> {
    let (range, digits) = split_once(rest, b':')?;
    let (address, len) = parse_range(range)?;
    if is_hex(digits) && digits.len() as u64 / 2 == len {
        Some(Command::WriteMemory {
            address,
            len,
            digits,
        })
    } else {
        None
    }
}

/// Nothing or `ADDRESS`.
fn parse_resume<'a>(rest: &'a [u8], action: Action) -> Option<Command<'a>>
    ensures { result ≡ option_map (λ a. Command.Resume action a) (optional_of rest.now) }
{
    let address = optional_number(rest)?;
    Some(Command::Resume { action, address })
}

/// `SIGNAL` or `SIGNAL;ADDRESS` of a continuation.
fn parse_signal_continuation(rest: &[u8]) -> Option<Command<'_>>
    ensures { result ≡ option_map (λ s. Command.Resume (Action.Continue (Some s.0)) s.1)
        (signal_and_address rest.now) }
{
    let (signal, address) = parse_signal_and_address(rest)?;
    let action = Action::Continue {
        signal: Some(signal),
    };
    Some(Command::Resume { action, address })
}

/// `SIGNAL` or `SIGNAL;ADDRESS` of a step.
fn parse_signal_step(rest: &[u8]) -> Option<Command<'_>>
    ensures { result ≡ option_map (λ s. Command.Resume (Action.Step (Some s.0)) s.1)
        (signal_and_address rest.now) }
{
    let (signal, address) = parse_signal_and_address(rest)?;
    let action = Action::Step {
        signal: Some(signal),
    };
    Some(Command::Resume { action, address })
}

#[tactic(auto, unfolding(crate::specs::Commands::signal_and_address))]
fn parse_signal_and_address(text: &[u8]) -> Option<(u8, Option<u64>)>
    ensures { result ≡ signal_and_address text.now }
{
    match split_once(text, b';') {
        None => Some((parse_signal(text)?, None)),
        Some((signal, address)) => {
            let address = read_number(address)?;
            Some((parse_signal(signal)?, Some(address)))
        }
    }
}

/// `KIND,ADDRESS,SIZE` of a point that is put in.
fn parse_insertion(rest: &[u8]) -> Option<Command<'_>>
    ensures { result ≡ option_map (point_command (λ k a n. Command.InsertPoint k a n))
        (triple_of rest.now) }
{
    let (kind, address, size) = parse_triple(rest)?;
    let Some(kind) = point_of(kind) else {
        return Some(Command::Unknown);
    };
    Some(Command::InsertPoint {
        kind,
        address,
        size,
    })
}

/// `KIND,ADDRESS,SIZE` of a point that is taken out.
fn parse_removal(rest: &[u8]) -> Option<Command<'_>>
    ensures { result ≡ option_map (point_command (λ k a n. Command.RemovePoint k a n))
        (triple_of rest.now) }
{
    let (kind, address, size) = parse_triple(rest)?;
    let Some(kind) = point_of(kind) else {
        return Some(Command::Unknown);
    };
    Some(Command::RemovePoint {
        kind,
        address,
        size,
    })
}

/// The kind of a point, if it is known.
fn point_of(number: u64) -> Option<Point>
    ensures { result ≡ point_kind number }
{
    match number {
        0 => Some(Point::SoftwareBreakpoint),
        1 => Some(Point::HardwareBreakpoint),
        2 => Some(Point::WriteWatchpoint),
        3 => Some(Point::ReadWatchpoint),
        4 => Some(Point::AccessWatchpoint),
        _ => None,
    }
}

fn parse_life(rest: &[u8]) -> Option<Command<'_>>
    ensures { result ≡ option_map (λ t. Command.IsThreadAlive t) (thread_of rest.now) }
{
    let thread = parse_thread(rest)?;
    Some(Command::IsThreadAlive { thread })
}

/// `c THREAD` or `g THREAD`.
fn parse_select(rest: &[u8]) -> Option<Command<'_>>
    ensures { result ≡ select_of rest.now }
{
    match rest {
        [b'c', text @ ..] => {
            let thread = parse_thread(text)?;
            let resumes = true;
            Some(Command::SelectThread { resumes, thread })
        }
        [b'g', text @ ..] => {
            let thread = parse_thread(text)?;
            let resumes = false;
            Some(Command::SelectThread { resumes, thread })
        }
        _ => None,
    }
}

/// Nothing or `;PROCESS`.
fn parse_detach(rest: &[u8]) -> Option<Command<'_>>
    ensures { result ≡ option_map (λ p. Command.Detach p) (process_of 59 rest.now) }
{
    let process = optional_process(rest, b';')?;
    Some(Command::Detach { process })
}
