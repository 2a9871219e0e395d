//! The user's frame of a stack: the innermost one whose source file is not a library's.

use crate::call_stack::CallStack;
use crate::frames::{FramesAt, StackFrame};
use crate::library_sources::is_of_library;
use crate::names::FrameNames;

/// A frame of a stack.
#[derive(Clone, Copy)]
pub struct NumberedFrame<'n> {
    /// Its number from 0, the innermost first.
    pub number: u32,
    /// The frame.
    pub frame: StackFrame<'n>,
}

impl CallStack {
    /// The user's frame. Where none is, the innermost one whose source line is known; where there
    /// is none, the innermost one.
    pub fn user_frame<'n>(&self, names: &FrameNames<'n>) -> Option<NumberedFrame<'n>> {
        let mut search = FrameSearch::new();
        search.add(names.instruction_frames(self.pc));
        for caller in &self.callers {
            search.add(names.call_frames(*caller));
        }
        search.user.or(search.lined).or(search.innermost)
    }
}

/// A search through the frames of a stack, the innermost first.
#[derive(Clone, Copy)]
struct FrameSearch<'n> {
    /// How many there were so far.
    count: u32,
    innermost: Option<NumberedFrame<'n>>,
    /// The first whose source line is known.
    lined: Option<NumberedFrame<'n>>,
    /// The first whose source file is not a library's.
    user: Option<NumberedFrame<'n>>,
}

impl<'n> FrameSearch<'n> {
    /// One through no frames.
    fn new() -> FrameSearch<'n> {
        FrameSearch {
            count: 0,
            innermost: None,
            lined: None,
            user: None,
        }
    }

    /// Goes through the frames of an address.
    fn add(&mut self, frames: FramesAt<'_, 'n>) {
        for frame in frames {
            self.note(frame);
        }
    }

    /// Notes the next frame.
    fn note(&mut self, frame: StackFrame<'n>) {
        let found = Some(NumberedFrame {
            number: self.count,
            frame,
        });
        self.count = self.count.saturating_add(1);
        self.innermost = self.innermost.or(found);
        if let Some(line) = &frame.line {
            self.lined = self.lined.or(found);
            if !is_of_library(line) {
                self.user = self.user.or(found);
            }
        }
    }
}
