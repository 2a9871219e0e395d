//! The frames of the functions that run.

use crate::marks::RegisterMarks;
use crate::table::PlaceTable;
use std::alloc::{AllocError, Global};

/// How many frames are kept.
const MOST: usize = 65_536;

/// How many places of a frame are looked at.
pub(crate) const PLACES: u32 = 32;

/// The frame of a function that was called.
#[derive(Clone, Copy)]
pub(crate) struct CalledFrame {
    /// Where it returns to.
    return_address: u64,
    /// SP when it was called.
    pub(crate) sp: u64,
    /// Its first instruction.
    pub(crate) entry: u64,
    /// The newest of its places.
    pub(crate) first: Option<usize>,
    /// How many calls came before it.
    serial: u64,
    /// Whether its function may be one that ends an object of its caller, as a destructor.
    is_cleanup: bool,
    /// The marks of its caller's registers.
    marks: RegisterMarks,
}

/// A frame that is known again as long as it is among those that run.
#[derive(Clone, Copy)]
pub(crate) struct FrameNumber {
    /// How many frames were below it.
    pub(crate) depth: usize,
    /// How many calls came before it.
    serial: u64,
}

/// The frames, the oldest first.
#[derive(Drop)]
pub(crate) struct FrameStack {
    frames: Vec<CalledFrame>,
    /// How many calls there were.
    calls: u64,
}

impl FrameStack {
    /// No frames.
    pub(crate) fn new(alloc: Global) -> FrameStack {
        FrameStack {
            frames: Vec::new(alloc),
            calls: 0,
        }
    }

    /// The frame of the function that was called last.
    pub(crate) fn top(&self) -> Option<&CalledFrame> {
        self.frames.last()
    }

    /// The number of the frame of the function that was called last.
    pub(crate) fn top_number(&self) -> Option<FrameNumber> {
        Some(FrameNumber {
            depth: self.frames.len().checked_sub(1)?,
            serial: self.top()?.serial,
        })
    }

    /// Whether a frame is still among those that run.
    #[inline(always)]
    pub(crate) fn has(&self, number: &FrameNumber) -> bool {
        match self.frames.get(number.depth) {
            Some(frame) => frame.serial == number.serial,
            None => false,
        }
    }

    /// Where the function of the frame at a depth is: at its call of another, or at the counter.
    #[inline(always)]
    pub(crate) fn counter_of(&self, depth: usize, pc: u64) -> u64 {
        match self.frames.get(depth.saturating_add(1)) {
            Some(called) => called.return_address.wrapping_sub(4),
            None => pc,
        }
    }

    /// Whether the function at a depth may be one that ends an object of its caller, if there is
    /// one.
    pub(crate) fn is_cleanup(&self, depth: usize) -> Option<bool> {
        Some(self.frames.get(depth)?.is_cleanup)
    }

    /// Enters a call. Of too many calls in one another none is known any more.
    pub(crate) fn call(
        &mut self,
        return_address: u64,
        sp: u64,
        entry: u64,
        is_cleanup: bool,
        marks: RegisterMarks,
    ) -> Result<(), AllocError> {
        if self.frames.len() >= MOST {
            self.frames.clear();
        }
        self.frames.push(CalledFrame {
            return_address,
            sp,
            entry,
            first: None,
            serial: self.calls,
            is_cleanup,
            marks,
        })?;
        self.calls = self.calls.wrapping_add(1);
        Ok(())
    }

    /// Enters that nothing is known of the functions that run.
    pub(crate) fn clear(&mut self) {
        self.frames.clear();
    }

    /// Enters a place as the newest of the last frame.
    pub(crate) fn set_first(&mut self, index: usize) {
        if let Some(frame) = self.frames.last_mut() {
            frame.first = Some(index);
        }
    }

    /// Enters that SP was moved: frames below it are left, but whether their functions are is not
    /// known.
    pub(crate) fn leave_below(&mut self, sp: u64) {
        for _ in 0..self.frames.len() {
            match self.frames.last() {
                Some(frame) if frame.sp < sp => {
                    self.frames.pop();
                }
                _ => return,
            }
        }
    }

    /// Enters a return to an address, where SP is at another: the function that was called with it
    /// and all that it called have ended. A return that no call matches ends none. The marks that
    /// the caller's registers had, none where the call isn't known.
    pub(crate) fn return_to(
        &mut self,
        addr: u64,
        sp: u64,
        table: &mut PlaceTable,
    ) -> RegisterMarks {
        let mut marks = RegisterMarks::NONE;
        let Some(count) = self.matching(addr, sp) else {
            return marks;
        };
        for _ in count..self.frames.len() {
            if let Some(frame) = self.frames.pop() {
                end_places(&frame, table);
                marks = frame.marks;
            }
        }
        marks
    }

    /// How many frames are left by a return to an address with an SP.
    fn matching(&self, addr: u64, sp: u64) -> Option<usize> {
        for index in (0..self.frames.len()).rev() {
            let frame = self.frames.get(index)?;
            if frame.sp > sp {
                return None;
            }
            if frame.sp == sp && frame.return_address == addr {
                return Some(index);
            }
        }
        None
    }
}

/// Enters that the function of a frame has ended.
fn end_places(frame: &CalledFrame, table: &mut PlaceTable) {
    let mut next = frame.first;
    for _ in 0..=PLACES {
        let Some(place) = next.and_then(|index| table.get_mut(index)) else {
            return;
        };
        place.is_live = false;
        next = place.next;
    }
}

/// Whether a frame has fewer places than a number.
pub(crate) fn has_room(frame: &CalledFrame, table: &PlaceTable, most: u32) -> bool {
    let mut next = frame.first;
    for _ in 0..most {
        match next.and_then(|index| table.get(index)) {
            Some(place) => next = place.next,
            None => return true,
        }
    }
    false
}
