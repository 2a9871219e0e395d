//! Scripts: one event per line.

ghost use Rattle.std.specs.Prelude.{◌≡◌, ◌≤◌, ◌+◌, length, vec_capacity, Some};
ghost use Rattle.std.specs.Prelude.{Ok, Err, IfOk, IfErr};
ghost use Rattle.common.specs.Obstacles.{IfRefused};
ghost use Rattle.mte_script.specs.Scripts.{script_events};
ghost use Rattle.mte_script.specs.Faults.{IsFirstFault, IsLineFault};

use crate::error::{ScriptError, ScriptFault};
use crate::event::Event;
use crate::grammar::event_of;
use crate::text::{WORD_LIMIT, read_words};
use common::Obstacle;
use std::alloc::Global;

/// The most events of a script.
const EVENT_LIMIT: usize = 10_000;

/// Reads a script: lines ended by LF, which the last may lack; in a line words separated by one or
/// more spaces. Lines without a word and lines whose first byte is `#` are skipped. `files` are
/// those that an event may name, the first being number 1.
///
/// The list has memory for at most 10000 events, and for no more than the script has bytes and one.
pub fn parse_script(
    alloc: Global,
    script: &[u8],
    files: &[Vec<u8>],
) -> Result<Vec<Event>, Obstacle<ScriptError>>
    ensures events { IfOk result (λ events.
        script_events (length files.now) script.now ≡ Ok events.items) }
    ensures fault { IfErr result (λ o.
        IfRefused o (IsFirstFault (script_events (length files.now) script.now))) }
    ensures room { IfOk result (λ events. vec_capacity events ≤ EVENT_LIMIT) }
    ensures few { IfOk result (λ events. vec_capacity events ≤ length script.now + 1) }
{
    let most = (script.len() + 1).min(EVENT_LIMIT);
    let mut events = Vec::with_capacity(alloc, most)?;
    let mut words: [&[u8]; WORD_LIMIT] = [&[]; WORD_LIMIT];
    let mut next = 0;
    let mut number = 0;
    while next <= script.len() {
        let start = next;
        let (count, end) = read_words(script, start, &mut words);
        next = end + 1;
        number += 1;
        if count == 0 || script[start] == b'#' {
            continue;
        }
        match event_of(&words[..count], files.len()) {
            Err(fault) => return Err(refusal(number, fault)),
            Ok(event) => {
                if events.len() >= EVENT_LIMIT {
                    return Err(refusal(number, ScriptFault::TooManyEvents));
                }
                events.push_reserved(event);
            }
        }
    }
    Ok(events)
}

/// The refusal of a script: a line's number and its fault.
fn refusal(line: u64, fault: ScriptFault) -> Obstacle<ScriptError>
    ensures { IfRefused result (IsLineFault line (Some (Err fault))) }
{
    Obstacle::Refused(ScriptError { line, fault })
}
