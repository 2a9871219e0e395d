//! The report of a tenant for other programs.

use mte_report::Report;
use std::alloc::Global;

/// The report of a tenant.
#[derive(Clone, Copy)]
pub struct Document<'a> {
    /// The allocator of texts and stacks.
    pub alloc: Global,
    /// The report.
    pub report: &'a Report<'a>,
    /// The program's exit status.
    pub exit_status: u8,
}
