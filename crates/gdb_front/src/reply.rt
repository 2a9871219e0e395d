//! The reply to a packet.

use crate::text::TextBuffer;
use std::alloc::Global;

/// The reply to a packet: a text for GDB's user, and the answer.
#[derive(Drop)]
pub struct Reply {
    /// The text that GDB prints before the answer.
    pub console: TextBuffer,
    /// The answer. It is empty where a packet is not known.
    pub answer: TextBuffer,
    /// Whether the dialog ends with it.
    pub ends: bool,
}

impl Reply {
    /// An empty one.
    pub fn new(alloc: Global) -> Reply {
        Reply {
            console: TextBuffer::new(alloc),
            answer: TextBuffer::new(alloc),
            ends: false,
        }
    }

    /// Whether memory was short.
    pub fn is_short(&self) -> bool {
        self.console.is_short() || self.answer.is_short()
    }

    /// Answers that it is done.
    pub fn put_ok(&mut self) {
        self.answer.put(b"OK");
    }

    /// Answers that it is refused: a malformed packet, or one that would change the tenant.
    pub fn put_refusal(&mut self) {
        self.answer.put(b"E01");
    }

    /// Answers that a register cannot be written. GDB shows the text.
    pub fn put_read_only(&mut self) {
        self.answer.put(b"E.the tenant is only read");
    }

    /// Answers that there is no such memory.
    pub fn put_fault(&mut self) {
        self.answer.put(b"E0e");
    }

    /// Answers `OK`, or that it is refused.
    pub fn put_outcome(&mut self, is_done: bool) {
        if is_done {
            self.put_ok();
        } else {
            self.put_refusal();
        }
    }

    /// Ends the dialog.
    pub fn end(&mut self) {
        self.put_ok();
        self.ends = true;
    }
}
