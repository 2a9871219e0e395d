//! The kinds that are checked of a tenant, and the findings that are suppressed.

use mte_backtrace::{
    CallStack, Callers, FrameAddresses, FrameName, FrameNames, FramesAt, Names, StackFrame,
};
use run_terms::{CheckKind, CheckKinds, Suppressions};
use std::alloc::{AllocError, Global};

/// The kinds that are checked of a tenant of an image, and the findings that are suppressed.
#[derive(Clone, Copy)]
pub struct CheckTerms<'a> {
    /// The image's bytes; none where it is not known before the run.
    pub image: &'a [u8],
    /// The kinds that are checked.
    pub kinds: CheckKinds,
    /// The findings that are suppressed.
    pub suppressions: &'a Suppressions,
    /// Whether the run goes on after a finding.
    pub continues: bool,
}

/// The findings that are suppressed, and the names by which they are known.
#[derive(Drop)]
pub(crate) struct Silence<'a> {
    suppressions: &'a Suppressions,
    names: Names<'a>,
    /// Where something was not told before.
    hidden: Vec<HiddenPlace>,
}

/// Where something of a kind was not told.
#[derive(Clone, Copy, PartialEq, Eq)]
struct HiddenPlace {
    kind: CheckKind,
    pc: u64,
    callers: Callers,
}

/// How many places are kept.
const PLACES: usize = 256;

impl<'a> Silence<'a> {
    /// That of terms, where something is not told.
    pub(crate) fn of(
        alloc: Global,
        terms: &CheckTerms<'a>,
    ) -> Result<Option<Silence<'a>>, AllocError> {
        if terms.suppressions.is_empty() {
            return Ok(None);
        }
        Ok(Some(Silence {
            suppressions: terms.suppressions,
            names: Names::of(alloc, terms.image)?,
            hidden: Vec::new(alloc),
        }))
    }

    /// Whether a finding of the instruction at an address is not told, by the calls that led to it.
    pub(crate) fn hides(
        &mut self,
        alloc: Global,
        kind: CheckKind,
        pc: u64,
        callers: &Callers,
    ) -> Result<bool, AllocError> {
        let place = HiddenPlace {
            kind,
            pc,
            callers: *callers,
        };
        if self.hidden.iter().any(|other| *other == place) {
            return Ok(true);
        }
        let is_hidden = self.is_new_hidden(alloc, &place)?;
        if is_hidden && self.hidden.len() < PLACES {
            self.hidden.push(place)?;
        }
        Ok(is_hidden)
    }

    /// Answers for one that was not found before.
    fn is_new_hidden(&self, alloc: Global, place: &HiddenPlace) -> Result<bool, AllocError> {
        let symbols = &self.names.symbols;
        let stack = CallStack::of_heap_call(alloc, place.pc, &place.callers, symbols)?;
        let mut frames = FrameAddresses::new(alloc);
        stack.push_frames(&mut frames)?;
        let names = self.names.of_frames(alloc, &frames)?;
        Ok(is_hidden(self.suppressions, place.kind, &stack, &names))
    }
}

/// Whether a finding is not told that has these calls.
pub fn is_hidden(
    suppressions: &Suppressions,
    kind: CheckKind,
    stack: &CallStack,
    names: &FrameNames<'_>,
) -> bool {
    let own = names.instruction_frames(stack.pc);
    if has_hidden_frame(suppressions, kind, own) {
        return true;
    }
    for caller in &stack.callers {
        if has_hidden_frame(suppressions, kind, names.call_frames(*caller)) {
            return true;
        }
    }
    false
}

/// Whether one of some frames is of what is not told.
fn has_hidden_frame(
    suppressions: &Suppressions,
    kind: CheckKind,
    frames: FramesAt<'_, '_>,
) -> bool {
    for frame in frames {
        if is_hidden_frame(suppressions, kind, &frame) {
            return true;
        }
    }
    false
}

/// Whether a frame is of what is not told.
fn is_hidden_frame(suppressions: &Suppressions, kind: CheckKind, frame: &StackFrame<'_>) -> bool {
    let name = match &frame.name {
        FrameName::Inlined(name) => *name,
        FrameName::Own(place) => place.name(),
    };
    let file = frame.line.map(|line| line.file);
    match name {
        Some(name) => {
            let shown = name.shown();
            suppressions.hides(kind, Some(shown.as_str()), file)
        }
        None => suppressions.hides(kind, None, file),
    }
}
