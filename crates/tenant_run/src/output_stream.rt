//! The output of a tenant, on standard output, and how far it is.

use crate::progress::ProgressLog;
use mte_tenant::{Output, TenantParts};
use std::io::Write;

/// Writes what a tenant has written as it comes, each byte once, whichever run of the tenant it
/// comes from: two runs of a tenant write the same.
#[derive(Drop)]
pub struct OutputStream<'r> {
    /// `None` where nothing is written.
    rt: Option<&'r HostRuntime>,
    /// How many bytes were written.
    count: usize,
    /// Whether a write failed; after that there are no more.
    pub has_failed: bool,
    /// Whether a run goes on after that, since it is counted up to its end.
    is_counted: bool,
    /// Where a line after each slice goes.
    progress: ProgressLog,
}

impl<'r> OutputStream<'r> {
    /// One that writes to standard output, of a run that may be counted.
    pub fn new(rt: &'r HostRuntime, progress: ProgressLog, is_counted: bool) -> OutputStream<'r> {
        OutputStream {
            rt: Some(rt),
            count: 0,
            has_failed: false,
            is_counted,
            progress,
        }
    }

    /// One that writes nothing.
    pub fn silent() -> OutputStream<'r> {
        OutputStream {
            rt: None,
            count: 0,
            has_failed: false,
            is_counted: false,
            progress: ProgressLog::none(),
        }
    }

    /// The steps after which a run ends that has a limit: no more than those of a run before that
    /// was stopped.
    pub fn limit(&self, given: u64) -> u64 {
        match self.progress.stopped {
            Some(steps) => steps.min(given),
            None => given,
        }
    }

    /// The steps after which the run was stopped, if it was.
    pub fn stopped(&self) -> Option<u64> {
        self.progress.stopped
    }

    /// Whether a run ends, since its output cannot be written.
    pub fn ends_run(&self) -> bool {
        self.has_failed && !self.is_counted
    }

    /// Writes what was not yet written after a slice.
    pub fn update(&mut self, parts: &TenantParts) {
        self.write_rest(&parts.history.output);
        self.progress.note(parts);
    }

    /// Writes the output that was not yet written.
    fn write_rest(&mut self, output: &Output) {
        let bytes = output.as_slice();
        let (Some(rt), Some(rest)) = (self.rt, bytes.get(self.count..)) else {
            return;
        };
        if rest.is_empty() || self.has_failed {
            return;
        }
        self.count = bytes.len();
        self.has_failed = rt.stdout().write_all(rest).is_err();
    }
}
