//! Which variable an address is of that constants were added to.

use crate::frames::{CalledFrame, PLACES, has_room};
use crate::notes::NotedInstruction;
use crate::place::{NO_BASES, NamedPlace, PlaceKind, PlaceText};
use crate::places::NamedPlaces;
use crate::table::PlaceTable;
use a64_bits::plain;
use debug_variables::{FrameBases, FrameFunction, Neighbor, PlacedVariable, VariableName};
use pointer_provenance::Shadow;
use shadow_memory::PointerOrigin;
use std::alloc::AllocError;

/// How far in front of a variable a pointer may be that is meant for it: one element, as in arrays
/// that are counted from 1.
const ELEMENT: u64 = 8;

/// A function that runs, and the values of its bases.
#[derive(Clone, Copy)]
pub(crate) struct RunningFunction {
    pub(crate) function: FrameFunction,
    pub(crate) bases: FrameBases,
}

impl NamedPlaces {
    /// Where a pointer points that was made of SP by constants, by the variables of the function
    /// that runs; its frame where none is known there, and the stack alone where the address is not
    /// of its frame.
    pub(crate) fn stack_origin(
        &mut self,
        at: &NotedInstruction<'_>,
        shadow: &Shadow,
        addr: u64,
    ) -> Result<PointerOrigin, AllocError> {
        let Some(frame) = self.frames.top().copied() else {
            return Ok(PointerOrigin::STACK);
        };
        let sp = plain(at.after.sp);
        if addr < sp || addr >= frame.sp {
            return Ok(PointerOrigin::STACK);
        }
        let place = self.variable_place(at, &frame, addr);
        let place = match place {
            Some(place) if has_room(&frame, &self.table, PLACES) => place,
            _ => self.frame_place(at, &frame, sp),
        };
        self.origin_of(shadow, &frame, place)
    }

    /// The origin of a place of the last frame, which is entered where it is new.
    pub(crate) fn origin_of(
        &mut self,
        shadow: &Shadow,
        frame: &CalledFrame,
        place: NamedPlace,
    ) -> Result<PointerOrigin, AllocError> {
        if let Some(index) = self.known(frame, &place) {
            if let Some(old) = self.table.get_mut(index) {
                old.is_unsure = old.is_unsure || place.is_unsure;
                old.text.start = old.text.start.min(place.text.start);
            }
            return Ok(PointerOrigin::of_place(index));
        }
        if !has_room(frame, &self.table, PLACES) {
            return Ok(PointerOrigin::STACK);
        }
        let entered = self.table.enter(self.alloc, shadow, place)?;
        match entered {
            Some(index) => {
                self.frames.set_first(index);
                Ok(PointerOrigin::of_place(index))
            }
            None => Ok(PointerOrigin::STACK),
        }
    }

    /// Where a pointer into the frame of the function that runs points, of which it is not known
    /// which variable is meant; the stack alone where the address is not of that frame.
    pub(crate) fn frame_origin(
        &mut self,
        at: &NotedInstruction<'_>,
        shadow: &Shadow,
        addr: u64,
    ) -> Result<PointerOrigin, AllocError> {
        let Some(frame) = self.frames.top().copied() else {
            return Ok(PointerOrigin::STACK);
        };
        let sp = plain(at.after.sp);
        if addr < sp || addr >= frame.sp {
            return Ok(PointerOrigin::STACK);
        }
        let place = self.frame_place(at, &frame, sp);
        self.origin_of(shadow, &frame, place)
    }

    /// The index of a place among those of a frame. A frame is one whatever SP was.
    fn known(&self, frame: &CalledFrame, place: &NamedPlace) -> Option<usize> {
        let text = &place.text;
        let mut next = frame.first;
        for _ in 0..=u8::MAX {
            let index = next?;
            let old = self.table.get(index)?;
            let is_frame = text.kind == PlaceKind::Frame && old.text.kind == PlaceKind::Frame;
            if is_frame || old.text == *text {
                return Some(index);
            }
            next = old.next;
        }
        None
    }

    /// The place of a frame as a whole, from an address on.
    pub(crate) fn frame_place(
        &self,
        at: &NotedInstruction<'_>,
        frame: &CalledFrame,
        start: u64,
    ) -> NamedPlace {
        NamedPlace {
            text: PlaceText {
                kind: PlaceKind::Frame,
                start,
                end: frame.sp,
                name: VariableName::NONE,
                declaration: None,
                function: Some(at.pc),
            },
            limit: frame.sp,
            is_live: true,
            is_exact: false,
            is_unsure: false,
            is_marked: false,
            bases: NO_BASES,
            before: Neighbor::Nothing,
            scope: None,
            next: frame.first,
        }
    }

    /// The place of the variable of the function that runs which has the byte at an address, and
    /// whose block runs.
    fn variable_place(
        &self,
        at: &NotedInstruction<'_>,
        frame: &CalledFrame,
        addr: u64,
    ) -> Option<NamedPlace> {
        let running = self.running(at, frame)?;
        let RunningFunction { function, bases } = &running;
        let placed = self.variables.variable_at(function, bases, addr, at.pc)?;
        if placed.start < plain(at.after.sp) || placed.end > frame.sp {
            return None;
        }
        Some(NamedPlace {
            text: PlaceText {
                kind: PlaceKind::Variable,
                start: placed.start,
                end: placed.end,
                name: placed.variable.name,
                declaration: placed.variable.declaration,
                function: Some(function.low),
            },
            limit: placed.limit.min(frame.sp),
            is_live: true,
            is_exact: !function.is_optimized,
            is_unsure: self.is_before_other(&running, &placed, addr),
            is_marked: false,
            bases: *bases,
            before: self.variables.neighbor(function, bases, placed.start),
            scope: self.scope_of(function, &placed),
            next: frame.first,
        })
    }

    /// Whether another variable of several elements begins after one, of which a pointer is so
    /// near that it may be one in front of the other's first element.
    fn is_before_other(
        &self,
        running: &RunningFunction,
        placed: &PlacedVariable,
        addr: u64,
    ) -> bool {
        let RunningFunction { function, bases } = running;
        let last = addr.saturating_add(ELEMENT);
        for start in placed.end..=last {
            if let Some(next) = self.variables.slot_at(function, bases, start) {
                return !next.variable.is_single;
            }
        }
        false
    }

    /// Whether a place may be one of the frame of the function that runs. Where that frame is not
    /// known, as after a jump over frames, one of any frame of the function may be.
    pub(crate) fn may_be_of_top(&self, at: &NotedInstruction<'_>, index: usize) -> bool {
        if self.is_of_top(index) {
            return true;
        }
        let is_known = match self.frames.top() {
            Some(frame) => self.running(at, frame).is_some(),
            None => false,
        };
        !is_known && self.is_of_function(at.pc, index)
    }

    /// Whether a place is one of a frame of the function at an address.
    pub(crate) fn is_of_function(&self, pc: u64, index: usize) -> bool {
        let Some(function) = self.function_at(pc) else {
            return false;
        };
        match self.table.get(index).and_then(|place| place.text.function) {
            Some(at) => function.low <= at && at < function.high,
            None => false,
        }
    }

    /// The function that runs, where it is the one that the frame is of.
    pub(crate) fn running(
        &self,
        at: &NotedInstruction<'_>,
        frame: &CalledFrame,
    ) -> Option<RunningFunction> {
        let function = self.function_at(at.pc)?;
        if frame.entry < function.low || frame.entry >= function.high {
            return None;
        }
        let bases = FrameBases {
            caller: frame.sp,
            frame_pointer: plain(at.frame_pointer),
            stack_pointer: plain(at.sp),
        };
        Some(RunningFunction { function, bases })
    }

    /// Where a pointer points that was made of an address of the image by constants.
    pub(crate) fn object_origin(&mut self, addr: u64) -> PointerOrigin {
        let Some(number) = self.objects.number_at(addr) else {
            return PointerOrigin::UNKNOWN;
        };
        let index = PlaceTable::of_object(number);
        let Some(place) = self.table.get_mut(index) else {
            return PointerOrigin::UNKNOWN;
        };
        let next = self.objects.all().get(number.saturating_add(1));
        let next = next.filter(|next| next.start <= addr.saturating_add(ELEMENT));
        if next.is_some_and(|next| !self.variables.is_single_at(next.start)) {
            place.is_unsure = true;
        }
        PointerOrigin::of_place(index)
    }
}
