//! The heap and its tags at the end of a tenant, as a picture.

use crate::report::Report;
use a64_bits::plain;
use heap_picture::{Mark, Marked};
use mte_backtrace::{FrameAddresses, FrameNames};
use mte_flat::Flat;
use mte_svc::Status;
use mte_tags::tag_of;
use std::alloc::{AllocError, Global};
use std::fmt::Display;
use std::io::Write;
use std::{fmt, io};
use tenant_map::{Extent, Picture, PictureForm, extents};

impl<'a> Report<'a> {
    /// Writes the heap and its tags as a picture, under a title of one line: the rows of the heap's
    /// pages, and the row of the access that faulted or the pointer that was refused. Rows in which
    /// nothing changes are left out after the first, and in SVG those farthest from the mark where
    /// there are more than [`heap_picture::ROWS`].
    pub fn draw<W: Write>(
        &self,
        alloc: Global,
        out: &mut W,
        title: &str,
        form: PictureForm,
        memory: &mut Flat,
    ) -> io::Result<()> {
        let title = self.title_of(title);
        let title = format!(in alloc; "{title}")?;
        let story = self.story(alloc, memory)?;
        let extents = extents(alloc, self.book)?;
        let names = self.extent_names(alloc, extents.as_slice())?;
        let picture = self.picture(title.as_str(), story.as_str(), extents.as_slice(), &names);
        picture.write(alloc, out, form, memory)
    }

    /// The title of a picture of what was run.
    fn title_of<'r, 'n>(&'r self, name: &'n str) -> PictureTitle<'n, 'r> {
        PictureTitle {
            name,
            ending: EndingNote(self),
            run: PictureRun {
                step: self.step(),
                seed: self.seed,
            },
        }
    }

    /// The names of the calls that led to those which made chunks.
    fn extent_names(
        &self,
        alloc: Global,
        extents: &[Extent],
    ) -> Result<FrameNames<'a>, AllocError> {
        let mut frames = FrameAddresses::new(alloc);
        for extent in extents {
            self.push_entry(alloc, &mut frames, &extent.chunk.made)?;
        }
        self.names.of_frames(alloc, &frames)
    }

    /// A picture of chunks, under a title and a story.
    fn picture<'p, 'n>(
        &self,
        title: &'p str,
        story: &'p str,
        extents: &'p [Extent],
        names: &'p FrameNames<'n>,
    ) -> Picture<'p> {
        Picture {
            title,
            story,
            extents,
            names,
            cause: self.cause_number(),
            mark: self.mark(),
        }
    }

    /// The number of the call that made the chunk that the cause names.
    fn cause_number(&self) -> Option<u64> {
        let cause = self.cause()?;
        let chunk = cause.chunk.as_ref()?;
        Some(chunk.made.number)
    }
}

impl<'a> Report<'a> {
    /// The access or pointer that is framed.
    fn mark(&self) -> Option<Mark> {
        match self.finding {
            Some(finding) => finding.wrong.place().map(|addr| Mark {
                marked: Marked::Access,
                addr,
                tag: tag_of(finding.wrong.span.addr),
            }),
            None => mark_of(&self.parts.history.status),
        }
    }
}

/// The access or pointer that a status names.
fn mark_of(status: &Status) -> Option<Mark> {
    match status {
        Status::Faulted(fault, _) => Some(Mark {
            marked: Marked::Access,
            addr: fault.addr,
            tag: fault.ptr_tag,
        }),
        Status::Aborted(_, pointer, _) => Some(Mark {
            marked: Marked::Pointer,
            addr: plain(*pointer),
            tag: tag_of(*pointer),
        }),
        _ => None,
    }
}

/// The title of a picture.
#[derive(Clone, Copy)]
struct PictureTitle<'n, 'r> {
    /// The name of the run.
    name: &'n str,
    /// The event that ended it.
    ending: EndingNote<'r>,
    /// How it can be run again.
    run: PictureRun,
}

/// The last step of a run, and its seed.
#[derive(Clone, Copy)]
struct PictureRun {
    step: u64,
    seed: Option<u64>,
}

impl fmt::Display for PictureRun {
    fn fmt<W: fmt::Write>(&self, f: &mut fmt::Formatter<W>) -> fmt::Result {
        let step = self.step;
        write!(f, ", step {step}")?;
        match self.seed {
            Some(seed) => write!(f, ", seed {seed:016x}"),
            None => Ok(()),
        }
    }
}

impl<'n, 'r> fmt::Display for PictureTitle<'n, 'r> {
    fn fmt<W: fmt::Write>(&self, f: &mut fmt::Formatter<W>) -> fmt::Result {
        let PictureTitle { name, ending, run } = self;
        write!(f, "{name}: {ending}{run}")
    }
}

/// The event that ended a tenant, in a few words.
#[derive(Clone, Copy)]
struct EndingNote<'a>(&'a Report<'a>);

impl<'a> fmt::Display for EndingNote<'a> {
    fn fmt<W: fmt::Write>(&self, f: &mut fmt::Formatter<W>) -> fmt::Result {
        let report = self.0;
        if let Some(cause) = &report.cause() {
            return report.found(cause).fmt(f);
        }
        match &report.parts.history.status {
            Status::Exited(code) => write!(f, "exit {code}"),
            status => f.write_str(ending_words(status)),
        }
    }
}

/// The name of a status, where no cause says more.
fn ending_words(status: &Status) -> &'static str {
    match status {
        Status::Exited(_) => "exit",
        Status::Faulted(_, _) => "fault",
        Status::Aborted(_, _, _) => "abort",
        Status::Illegal(_, _) => "a word that is no instruction",
        Status::Breakpoint(_, _) => "breakpoint",
        Status::AsyncTag(_) => "an access had another tag than its memory",
        Status::Running => "still running",
        Status::Stopped => "stopped",
    }
}
