//! Whether the block of a variable runs.

use crate::marks::VARIABLE;
use crate::notes::NotedInstruction;
use crate::place::{NamedPlace, PlaceScope};
use crate::places::NamedPlaces;
use a64_bits::plain;
use a64_registers::Regs;
use debug_variables::{FrameBases, FrameFunction, PlacedVariable};
use pointer_provenance::Shadow;

impl NamedPlaces {
    /// The block that a variable of the function that runs lives in, if that is known.
    pub(crate) fn scope_of(
        &self,
        function: &FrameFunction,
        placed: &PlacedVariable,
    ) -> Option<PlaceScope> {
        Some(PlaceScope {
            block: self.variables.inner_block(function, &placed.variable)?,
            frame: self.frames.top_number()?,
        })
    }

    /// Whether the block of a place runs, as far as that is known, where the counter is.
    #[inline(always)]
    pub(crate) fn has_block(&self, place: &NamedPlace, pc: u64) -> bool {
        match place.scope {
            Some(PlaceScope { block, frame }) if self.frames.has(&frame) => {
                let at = self.frames.counter_of(frame.depth, pc);
                self.variables.is_in_block(&block, at)
            }
            _ => true,
        }
    }

    /// Whether an access by a base register comes from where the block of a place does not run.
    /// Compilers end objects after their block's last instruction: what is done there is not
    /// written in the source, and begins with a pointer that no variable had. After a jump over
    /// frames the function that was left may still be known, as one that is where its caller is.
    pub(crate) fn is_past_block(&self, index: usize, pc: u64, base: u8) -> bool {
        let Some(place) = self.table.get(index) else {
            return false;
        };
        let Some(PlaceScope { frame, .. }) = place.scope else {
            return false;
        };
        let called = frame.depth.saturating_add(1);
        let next = self.frames.counter_of(called, pc);
        let is_of_source = match self.frames.is_cleanup(called) {
            Some(is_cleanup) => !is_cleanup && !self.is_of_function(next, index),
            None => self.marks.has(base, VARIABLE),
        };
        is_of_source
            && !self.has_block(place, pc)
            && self.is_of_function(self.frames.counter_of(frame.depth, pc), index)
    }

    /// Whether a call may end an object of its caller, by the registers after it: the first
    /// argument is a pointer into the caller's frame that no variable had, and not one to a
    /// variable whose block runs.
    pub(crate) fn is_cleanup(&self, after: &Regs) -> bool {
        let Some(frame) = self.frames.top() else {
            return false;
        };
        let bases = FrameBases {
            caller: frame.sp,
            frame_pointer: plain(after.x[29]),
            stack_pointer: plain(after.sp),
        };
        let (addr, pc) = (plain(after.x[0]), plain(after.x[30]).wrapping_sub(4));
        let is_own = bases.stack_pointer <= addr && addr < bases.caller;
        is_own && !self.marks.has(0, VARIABLE) && !self.is_running(&bases, addr, pc)
    }

    /// Whether an address is one of a variable whose block runs, of the function at the counter.
    fn is_running(&self, bases: &FrameBases, addr: u64, pc: u64) -> bool {
        let Some(function) = self.variables.function_at(pc) else {
            return false;
        };
        let Some(placed) = self.variables.variable_at(function, bases, addr, pc) else {
            return false;
        };
        match self.variables.inner_block(function, &placed.variable) {
            Some(block) => self.variables.is_in_block(&block, pc),
            None => true,
        }
    }

    /// Notes from where a register was loaded, if its pointer is to a variable of a block.
    #[inline(always)]
    pub(crate) fn note_source(
        &mut self,
        at: &NotedInstruction<'_>,
        shadow: &Shadow,
        n: u8,
        addr: u64,
    ) {
        if let Some(index) = shadow.register(n).pointer().place() {
            let place = self.table.get(index);
            let has_scope = place.is_some_and(|place| place.scope.is_some());
            if has_scope && self.is_variable_at(at, plain(addr)) {
                self.marks.load_variable(n);
            }
        }
    }

    /// Whether an address is one of a variable, or not of the frame of the function that runs.
    fn is_variable_at(&self, at: &NotedInstruction<'_>, addr: u64) -> bool {
        let Some(frame) = self.frames.top() else {
            return false;
        };
        if addr < plain(at.sp) || frame.sp <= addr {
            return true;
        }
        let Some(function) = self.function_at(at.pc) else {
            return false;
        };
        let bases = FrameBases {
            caller: frame.sp,
            frame_pointer: plain(at.frame_pointer),
            stack_pointer: plain(at.sp),
        };
        self.variables.slot_at(&function, &bases, addr).is_some()
    }
}
