//! The event of an end and its place, in a line.

use crate::explanation::Explanation;
use crate::report::Report;
use mte_backtrace::{FrameNames, StackFrame};
use mte_flat::Flat;
use mte_svc::Status;
use run_records::BookEntry;
use std::alloc::{AllocError, Global};
use std::fmt;

impl<'a> Report<'a> {
    /// The event and its place: the function and the line of the end, and those that had the chunk
    /// that its cause names allocated and freed. Empty for a tenant that exited.
    pub(crate) fn story(&self, alloc: Global, memory: &mut Flat) -> Result<String, AllocError> {
        let is_clean = self.finding.is_none()
            && matches!(self.parts.history.status, Status::Exited(_));
        if is_clean {
            return Ok(String::new(alloc));
        }
        let explanation = self.explain(alloc, memory)?;
        self.story_of(alloc, &explanation)
    }

    /// The event and its place, as an explanation has them. It borrows that, so that none of its
    /// ends has to drop it.
    fn story_of(&self, alloc: Global, told: &Explanation<'_>) -> Result<String, AllocError> {
        let chunk = told.cause.as_ref().and_then(|cause| cause.chunk.as_ref());
        let made = chunk.map(|chunk| &chunk.made);
        let freed = chunk.and_then(|chunk| chunk.freed.as_ref());
        let story = Story {
            end: told.stack.user_frame(&told.names).map(|found| found.frame),
            made: self.scene(alloc, made, &told.names)?,
            freed: self.scene(alloc, freed, &told.names)?,
        };
        format!(in alloc; "{story}")
    }

    /// Who had a heap call made.
    fn scene<'n>(
        &self,
        alloc: Global,
        entry: Option<&BookEntry>,
        names: &FrameNames<'n>,
    ) -> Result<Option<Scene<'n>>, AllocError> {
        let Some(entry) = entry else {
            return Ok(None);
        };
        let stack = self.stack_of(alloc, entry)?;
        Ok(
            stack.user_frame(names).map(|found| Scene {
                call: entry.number,
                frame: found.frame,
            }),
        )
    }
}

/// A heap call and the function that had it made.
#[derive(Clone, Copy)]
struct Scene<'n> {
    call: u64,
    frame: StackFrame<'n>,
}

/// `in F at FILE:LINE; allocated by call N in G at FILE:LINE; freed by call M in H at FILE:LINE`.
#[derive(Clone, Copy)]
struct Story<'n> {
    end: Option<StackFrame<'n>>,
    made: Option<Scene<'n>>,
    freed: Option<Scene<'n>>,
}

impl<'n> fmt::Display for Scene<'n> {
    fn fmt<W: fmt::Write>(&self, f: &mut fmt::Formatter<W>) -> fmt::Result {
        let Scene { call, frame } = self;
        write!(f, "by call {call} in {frame}")
    }
}

impl<'n> fmt::Display for Story<'n> {
    fn fmt<W: fmt::Write>(&self, f: &mut fmt::Formatter<W>) -> fmt::Result {
        if let Some(frame) = &self.end {
            write!(f, "in {frame}")?;
        }
        if let Some(made) = &self.made {
            write!(f, "; allocated {made}")?;
        }
        match &self.freed {
            Some(freed) => write!(f, "; freed {freed}"),
            None => Ok(()),
        }
    }
}
