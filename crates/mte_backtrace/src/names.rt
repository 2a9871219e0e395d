//! The names of an image's addresses.

use crate::call_stack::CallStack;
use crate::callers::Callers;
use crate::frames::FramesAt;
use debug_info::{DebugInfo, InlinedCalls};
use debug_lines::{DebugLines, SourceLines, SourceOrigin};
use elf_symbols::{Label, Symbols};
use std::alloc::{AllocError, Global};
use std::fmt;

/// How far a return address is from its call.
const CALL: u64 = 4;

/// The names and the source lines of an image's addresses.
#[derive(Drop)]
pub struct Names<'a> {
    /// The names.
    pub symbols: Symbols<'a>,
    /// The source lines.
    pub lines: DebugLines<'a>,
    /// The inlined calls.
    pub info: DebugInfo<'a>,
}

impl<'a> Names<'a> {
    /// The names and lines of a file. `Err` where there is no memory for the symbols.
    pub fn of(alloc: Global, file: &'a [u8]) -> Result<Names<'a>, AllocError> {
        Ok(Names {
            symbols: Symbols::of(alloc, file)?,
            lines: DebugLines::of(file),
            info: DebugInfo::of(file),
        })
    }

    /// The names of some addresses, by one pass over the line tables and one over the entries of
    /// functions. `Err` where there is no memory for their lines and inlined calls.
    pub fn of_frames(
        &self,
        alloc: Global,
        frames: &FrameAddresses,
    ) -> Result<FrameNames<'_>, AllocError> {
        Ok(FrameNames {
            symbols: &self.symbols,
            lines: self.lines.lines_of(alloc, frames.addresses.as_slice())?,
            inlined: self.info.inlined_calls(alloc, frames.addresses.as_slice())?,
        })
    }
}

/// Addresses whose names and lines are requested.
#[derive(Drop)]
pub struct FrameAddresses {
    addresses: Vec<u64>,
}

impl FrameAddresses {
    /// No addresses.
    pub fn new(alloc: Global) -> FrameAddresses {
        FrameAddresses {
            addresses: Vec::new(alloc),
        }
    }

    /// Adds an instruction.
    pub fn push_instruction(&mut self, address: u64) -> Result<(), AllocError> {
        self.addresses.push(address)?;
        Ok(())
    }

    /// Adds a call, by its return address.
    pub fn push_call(&mut self, return_address: u64) -> Result<(), AllocError> {
        self.push_instruction(return_address.wrapping_sub(CALL))
    }
}

/// The names of an image's addresses, and the source lines and inlined calls of some of them.
pub struct FrameNames<'a> {
    symbols: &'a Symbols<'a>,
    lines: SourceLines<'a>,
    inlined: InlinedCalls<'a>,
}

impl<'a> Drop for FrameNames<'a> {
    fn drop(self) {
        let FrameNames {
            symbols: _,
            lines: _,
            inlined: _,
        } = self;
    }
}

impl<'a> FrameNames<'a> {
    /// An instruction, without its line where that was not looked for.
    pub fn instruction(&self, address: u64) -> Frame<'a> {
        Frame {
            label: self.symbols.place(address).label(),
            origin: self.lines.origin(address),
        }
    }

    /// A call, by its return address. A function may end with a call that does not return: name and
    /// line are those of the call.
    pub fn call(&self, return_address: u64) -> Frame<'a> {
        let call = return_address.wrapping_sub(CALL);
        Frame {
            label: self.symbols.place_after(return_address, CALL).label(),
            origin: self.lines.origin(call),
        }
    }

    /// The calls that led to a heap call, whose SVC is at an address.
    pub fn heap_call_stack(
        &self,
        alloc: Global,
        pc: u64,
        callers: &Callers,
    ) -> Result<CallStack, AllocError> {
        CallStack::of_heap_call(alloc, pc, callers, self.symbols)
    }

    /// The frames of an instruction, the innermost first.
    pub fn instruction_frames(&self, address: u64) -> FramesAt<'_, 'a> {
        let place = self.symbols.place(address);
        let calls = self.inlined.at(address);
        FramesAt::new(calls, place, self.lines.line_of(address))
    }

    /// The frames of a call by its return address, the innermost first.
    pub fn call_frames(&self, return_address: u64) -> FramesAt<'_, 'a> {
        let call = return_address.wrapping_sub(CALL);
        let place = self.symbols.place_after(return_address, CALL);
        let calls = self.inlined.at(call);
        FramesAt::new(calls, place, self.lines.line_of(call))
    }
}

/// An instruction or a call: `NAME+OFFSET at FILE:LINE`, with the address where it has no name, and
/// without the line where none is known.
#[derive(Clone, Copy)]
pub struct Frame<'a> {
    label: Label<'a>,
    origin: SourceOrigin<'a>,
}

impl<'a> fmt::Display for Frame<'a> {
    fn fmt<W: fmt::Write>(&self, f: &mut fmt::Formatter<W>) -> fmt::Result {
        let Frame { label, origin } = self;
        write!(f, "{label}{origin}")
    }
}
