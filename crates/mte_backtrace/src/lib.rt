//! The calls that led to an instruction, by frame records, symbols and line tables.
#![tactic(auto)]

mod call_stack;
mod callers;
mod frames;
mod json;
mod library_sources;
mod names;
mod prologue;
mod sarif;
mod user_frame;
mod walk;

pub use call_stack::CallStack;
pub use callers::Callers;
pub use frames::{FrameName, FramesAt, StackFrame};
pub use json::Quoted;
pub use names::{Frame, FrameAddresses, FrameNames, Names};
pub use user_frame::NumberedFrame;
