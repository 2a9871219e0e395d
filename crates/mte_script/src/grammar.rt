//! The event that the words of a line say, or their first fault.

ghost use Rattle.std.specs.Prelude.{◌≡◌, ◌≢◌, ◌<◌, ◌≤◌, length, map};
ghost use Rattle.mte_script.specs.Scripts.{event_by, stop_event, slice_event, admit_event};
ghost use Rattle.mte_script.specs.Scripts.{is_admission, is_number, is_seed, number_at, seed_at};

use crate::error::ScriptFault;
use crate::event::Event;
use crate::text::{decimal, is, sixteen_digits};
use common::MAX_STEPS;
use mte_tags::TagMode;
use tenant_terms::Terms;

/// The largest number of a tenant.
const ID_LIMIT: u64 = 65_535;

/// The largest number of a file, of a reservation and of a room.
const NUMBER_LIMIT: u64 = 4_294_967_295;

/// The event of some words, or the first fault: of the form, of a number, of a file.
#[tactic(auto, unfolding(crate::specs::Scripts::event_by))]
pub fn event_of(words: &[&[u8]], files: usize) -> Result<Event, ScriptFault>
    ensures { result ≡ event_by files (map (λ w. w.now) words.now) }
{
    if words.len() == 3 {
        read_slice(words)
    } else {
        read_other(words, files)
    }
}

/// The event of other than three words: apart, since nearly all lines are slices.
#[inline(never)]
#[tactic(auto, unfolding(crate::specs::Scripts::event_by))]
fn read_other(words: &[&[u8]], files: usize) -> Result<Event, ScriptFault>
    requires { length words.now ≢ 3 }
    ensures { result ≡ event_by files (map (λ w. w.now) words.now) }
{
    if words.len() == 2 {
        read_stop(words)
    } else if words.len() == 12 {
        read_admission(words, files, TagMode::Sync)
    } else if words.len() == 13 && is(words[12], b"async") {
        read_admission(words, files, TagMode::Async)
    } else {
        Err(ScriptFault::Syntax)
    }
}

/// The event of two words.
#[tactic(auto, unfolding(crate::specs::Scripts::stop_event))]
fn read_stop(words: &[&[u8]]) -> Result<Event, ScriptFault>
    requires { 2 ≤ length words.now }
    ensures { result ≡ stop_event (map (λ w. w.now) words.now) }
{
    if !(is(words[0], b"stop") && is_number(words[1])) {
        return Err(ScriptFault::Syntax);
    }
    let id = number_at(words, 1);
    if id > ID_LIMIT {
        return Err(ScriptFault::BadNumber);
    }
    Ok(Event::Stop { id: id as u16 })
}

/// The event of three words.
#[tactic(auto, unfolding(crate::specs::Scripts::slice_event))]
fn read_slice(words: &[&[u8]]) -> Result<Event, ScriptFault>
    requires { 3 ≤ length words.now }
    ensures { result ≡ slice_event (map (λ w. w.now) words.now) }
{
    if !is(words[0], b"slice") {
        return Err(ScriptFault::Syntax);
    }
    let Some(id) = decimal(words[1]) else {
        return Err(ScriptFault::Syntax);
    };
    let Some(steps) = decimal(words[2]) else {
        return Err(ScriptFault::Syntax);
    };
    if id > ID_LIMIT || steps > MAX_STEPS {
        return Err(ScriptFault::BadNumber);
    }
    Ok(Event::Slice {
        id: id as u16,
        steps: steps as u32,
    })
}

/// The event of twelve words or more, of which the first twelve are read.
#[tactic(auto, unfolding(crate::specs::Scripts::admit_event))]
fn read_admission(words: &[&[u8]], files: usize, mode: TagMode) -> Result<Event, ScriptFault>
    requires { 12 ≤ length words.now }
    ensures { result ≡ admit_event files mode (map (λ w. w.now) words.now) }
{
    if !is_admission(words) {
        return Err(ScriptFault::Syntax);
    }
    let (id, image, input) = (
        number_at(words, 1),
        number_at(words, 3),
        number_at(words, 5),
    );
    let (pages, room) = (number_at(words, 9), number_at(words, 11));
    if id > ID_LIMIT
        || image > NUMBER_LIMIT
        || input > NUMBER_LIMIT
        || pages > NUMBER_LIMIT
        || room > NUMBER_LIMIT
    {
        return Err(ScriptFault::BadNumber);
    }
    if image == 0 || image > files as u64 || input > files as u64 {
        return Err(ScriptFault::NoSuchFile);
    }
    Ok(Event::Admit {
        id: id as u16,
        image: image as u32,
        input: input as u32,
        terms: Terms {
            seed: seed_at(words, 7),
            pages: pages as u32,
            room: room as u32,
            mode,
        },
    })
}

/// Whether the first twelve words have the form of an admission.
#[tactic(auto, unfolding(crate::specs::Scripts::is_admission))]
fn is_admission(words: &[&[u8]]) -> bool
    requires { 12 ≤ length words.now }
    ensures { result ≡ is_admission (map (λ w. w.now) words.now) }
{
    is(words[0], b"admit")
        && is_number(words[1])
        && is(words[2], b"image")
        && is_number(words[3])
        && is(words[4], b"input")
        && is_number(words[5])
        && is(words[6], b"seed")
        && is_seed(words[7])
        && is(words[8], b"frames")
        && is_number(words[9])
        && is(words[10], b"out")
        && is_number(words[11])
}

/// Whether a word is a decimal number.
fn is_number(word: &[u8]) -> bool
    ensures { result ≡ is_number word.now }
{
    decimal(word).is_some()
}

/// Whether a word is a seed.
fn is_seed(word: &[u8]) -> bool
    ensures { result ≡ is_seed word.now }
{
    sixteen_digits(word).is_some()
}

/// The decimal number that is the word at a place, 0 where it is none.
fn number_at(words: &[&[u8]], place: usize) -> u64
    requires { place < length words.now }
    ensures { result ≡ number_at (map (λ w. w.now) words.now) place }
{
    decimal(words[place]).unwrap_or(0)
}

/// The seed that is the word at a place, 0 where it is none.
fn seed_at(words: &[&[u8]], place: usize) -> u64
    requires { place < length words.now }
    ensures { result ≡ seed_at (map (λ w. w.now) words.now) place }
{
    sixteen_digits(words[place]).unwrap_or(0)
}
