//! The values from which the parts of a report are written.

use crate::report::Report;
use mte_backtrace::FrameNames;
use std::alloc::Global;

/// The values from which the parts of a report, or of a document of it, are written.
#[derive(Clone, Copy)]
pub struct Context<'a> {
    /// The allocator of texts and stacks.
    pub alloc: Global,
    /// The report.
    pub report: &'a Report<'a>,
    /// The names of the image's addresses.
    pub names: &'a FrameNames<'a>,
}
