//! Breakpoints and watchpoints.

use crate::front::Front;
use crate::reply::Reply;
use a64_bits::plain;
use debuggee::{WatchedAccess, Watchpoint};
use gdb_packets::Point;

impl Front<'_> {
    /// Puts a breakpoint or a watchpoint in. No byte of the tenant is changed.
    pub(crate) fn insert_point(&mut self, kind: Point, address: u64, size: u64, reply: &mut Reply) {
        let is_done = match watchpoint(kind, address, size) {
            Some(point) => self.points.insert_watchpoint(point),
            None => self.points.insert_breakpoint(plain(address)),
        };
        reply.put_outcome(is_done);
    }

    /// Takes a breakpoint or a watchpoint out, whether or not it is there.
    pub(crate) fn remove_point(&mut self, kind: Point, address: u64, size: u64, reply: &mut Reply) {
        match watchpoint(kind, address, size) {
            Some(point) => self.points.remove_watchpoint(point),
            None => self.points.remove_breakpoint(plain(address)),
        }
        reply.put_ok();
    }
}

/// The watchpoint of a kind, unless it is a breakpoint.
fn watchpoint(kind: Point, address: u64, size: u64) -> Option<Watchpoint> {
    let access = match kind {
        Point::SoftwareBreakpoint | Point::HardwareBreakpoint => return None,
        Point::WriteWatchpoint => WatchedAccess::Write,
        Point::ReadWatchpoint => WatchedAccess::Read,
        Point::AccessWatchpoint => WatchedAccess::Any,
    };
    let start = plain(address);
    Some(Watchpoint {
        access,
        start,
        end: start.saturating_add(size),
    })
}
