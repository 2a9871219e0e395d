//! Where a tenant that moves stops.

use a64_bits::plain;
use a64_registers::Regs;
use a64_run::Edges;
use debuggee::Watchpoint;
use std::alloc::Global;

/// The most breakpoints, and the most watchpoints.
pub const POINT_LIMIT: usize = 1024;

/// Breakpoints and watchpoints.
#[derive(Drop)]
pub struct Points {
    breakpoints: Vec<u64>,
    watchpoints: Vec<Watchpoint>,
}

impl Points {
    /// None.
    pub fn new(alloc: Global) -> Points {
        Points {
            breakpoints: Vec::new(alloc),
            watchpoints: Vec::new(alloc),
        }
    }

    /// Puts a breakpoint in; whether there was room.
    pub fn insert_breakpoint(&mut self, address: u64) -> bool {
        if self.is_breakpoint(address) {
            return true;
        }
        self.breakpoints.len() < POINT_LIMIT && self.breakpoints.push(address).is_ok()
    }

    /// Takes a breakpoint out.
    pub fn remove_breakpoint(&mut self, address: u64) {
        self.breakpoints.retain(|other| *other != address);
    }

    /// Whether there is a breakpoint at an address.
    pub fn is_breakpoint(&self, address: u64) -> bool {
        self.breakpoints.iter().any(|other| *other == address)
    }

    /// Puts a watchpoint in; whether there was room.
    pub fn insert_watchpoint(&mut self, point: Watchpoint) -> bool {
        self.watchpoints.len() < POINT_LIMIT && self.watchpoints.push(point).is_ok()
    }

    /// Takes a watchpoint out.
    pub fn remove_watchpoint(&mut self, point: Watchpoint) {
        self.watchpoints.retain(|other| *other != point);
    }

    /// Whether there are none.
    pub fn is_empty(&self) -> bool {
        self.breakpoints.is_empty() && self.watchpoints.is_empty()
    }

    /// The accesses that are watched.
    pub fn watchpoints(&self) -> &[Watchpoint] {
        self.watchpoints.as_slice()
    }

    /// What notes whether an instruction with a breakpoint is attempted.
    pub(crate) fn screen(&self) -> BreakpointScreen<'_> {
        let mut bits = 0;
        for address in &self.breakpoints {
            bits |= bit_of(*address);
        }
        BreakpointScreen {
            points: self,
            bits,
            is_met: false,
        }
    }
}

/// The bit of 64 that stands for an instruction's address.
#[inline(always)]
fn bit_of(address: u64) -> u64 {
    1 << ((address / 4) % 64)
}

/// Whether an instruction with a breakpoint was attempted.
#[derive(Drop)]
pub(crate) struct BreakpointScreen<'p> {
    points: &'p Points,
    /// The bits of the breakpoints; none once one was met.
    bits: u64,
    pub(crate) is_met: bool,
}

impl BreakpointScreen<'_> {
    /// Notes an instruction that may have a breakpoint.
    #[cold]
    #[inline(never)]
    fn note(&mut self, address: u64) {
        if self.points.is_breakpoint(address) {
            self.is_met = true;
            self.bits = 0;
        }
    }
}

impl Edges for BreakpointScreen<'_> {
    #[inline(always)]
    fn taken(&mut self, _from: u64, _word: u32, _to: u64) {}

    #[inline(always)]
    fn attempting(&mut self, pc: u64, _word: u32, _regs: &Regs) {
        if self.bits & bit_of(pc) != 0 {
            self.note(plain(pc));
        }
    }
}
