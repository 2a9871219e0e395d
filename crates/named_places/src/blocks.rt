//! Arrays of variable length and memory of `alloca`: blocks of the stack for which a function moves
//! SP down while it runs. One of a function that was not optimized has bounds.
//!
//! gcc rounds the size up by adding 15 and by two shifts, subtracts it from SP, makes a pointer of
//! SP next, and may round that up by two shifts. clang subtracts the rounded size from a copy of
//! SP, and moves SP to the difference. It does not round a number again that has been rounded: what
//! it adds 15 to may be less than the size that was asked for.

use crate::frames::{CalledFrame, has_room};
use crate::notes::{NotedInstruction, value_in};
use crate::place::{NamedPlace, PlaceKind, PlaceText};
use crate::places::NamedPlaces;
use a64_bits::plain;
use debug_variables::{Neighbor, VariableName};
use pointer_provenance::Shadow;
use shadow_memory::PointerOrigin;
use std::alloc::AllocError;

/// To a multiple of how many bytes SP moves.
const UNIT: u64 = 16;

/// The size of the largest block that has bounds.
const LARGEST: u64 = 1 << 24;

/// How many places a frame has at most in which one more block has bounds.
const MOST: u32 = 24;

/// What is known of a block that gcc's code is making.
#[derive(Clone, Copy)]
pub(crate) struct BlockNotes {
    /// The last instruction that added 15 to a register, and the sum.
    pub(crate) rounding: u64,
    pub(crate) sum: u64,
    /// The last instruction that subtracted a register from SP, and the size of the block.
    lowering: u64,
    size: u64,
    /// The block, once there is a pointer to it.
    index: Option<usize>,
}

impl BlockNotes {
    /// Nothing.
    pub(crate) const NONE: BlockNotes = BlockNotes {
        rounding: 0,
        sum: 0,
        lowering: 0,
        size: 0,
        index: None,
    };
}

impl NamedPlaces {
    /// Notes that a register was subtracted from SP.
    pub(crate) fn note_lowering(&mut self, at: &NotedInstruction<'_>) {
        let BlockNotes { rounding, sum, .. } = self.blocks;
        let whole = plain(at.sp).wrapping_sub(plain(at.after.sp));
        let is_rounded = at.pc.wrapping_sub(rounding) == 12 && sum & !(UNIT - 1) == whole;
        self.blocks.lowering = at.pc;
        self.blocks.index = None;
        self.blocks.size = if is_rounded {
            sum.wrapping_sub(UNIT - 1)
        } else {
            whole
        };
    }

    /// Where a pointer points that was made of SP by a constant, if that is to the block for which
    /// SP was moved just before.
    pub(crate) fn lowered_origin(
        &mut self,
        at: &NotedInstruction<'_>,
        shadow: &Shadow,
        addr: u64,
    ) -> Result<Option<PointerOrigin>, AllocError> {
        if at.pc.wrapping_sub(self.blocks.lowering) != 4 {
            return Ok(None);
        }
        let Some(frame) = self.frames.top().copied() else {
            return Ok(None);
        };
        let size = self.blocks.size;
        let Some(place) = self.block_place(at, &frame, addr, size) else {
            return Ok(None);
        };
        let origin = self.origin_of(shadow, &frame, place)?;
        self.blocks.index = origin.place();
        Ok(Some(origin))
    }

    /// Notes that a register was shifted by a constant: a pointer to the newest block stays one to
    /// it where it is rounded up.
    pub(crate) fn note_shift(
        &self,
        at: &NotedInstruction<'_>,
        shadow: &mut Shadow,
        rd: u8,
        immr: u8,
    ) {
        let Some(index) = self.blocks.index else {
            return;
        };
        let value = value_in(at.after, rd);
        let addr = match at.pc.wrapping_sub(self.blocks.lowering) {
            12 => value.wrapping_shl(u32::from(immr)),
            16 => value,
            _ => return,
        };
        let place = self.table.get(index);
        if place.is_some_and(|place| place.has(plain(addr))) {
            shadow.point(rd, PointerOrigin::of_place(index));
        }
    }

    /// Whether a pointer to the stack was moved below SP: what is there is no variable's.
    pub(crate) fn leads_below(
        &self,
        at: &NotedInstruction<'_>,
        origin: PointerOrigin,
        addr: u64,
    ) -> bool {
        let size = plain(at.sp).wrapping_sub(addr);
        if size == 0 || size > LARGEST || size % UNIT != 0 {
            return false;
        }
        match origin.place() {
            Some(index) => self.is_of_top(index),
            None => origin == PointerOrigin::STACK,
        }
    }

    /// Notes that a register has an address below SP that was made of SP: a block is there, which
    /// has bounds once SP was moved to it.
    pub(crate) fn note_below(
        &mut self,
        at: &NotedInstruction<'_>,
        shadow: &mut Shadow,
        rd: u8,
        addr: u64,
    ) -> Result<(), AllocError> {
        self.marks.make(rd);
        let Some(frame) = self.frames.top().copied() else {
            shadow.point(rd, PointerOrigin::STACK);
            return Ok(());
        };
        let size = plain(at.sp).saturating_sub(addr);
        let place = match self.block_place(at, &frame, addr, size) {
            Some(place) => NamedPlace {
                is_marked: true,
                is_exact: false,
                before: Neighbor::Other,
                ..place
            },
            None => self.frame_place(at, &frame, addr),
        };
        shadow.point(rd, self.origin_of(shadow, &frame, place)?);
        Ok(())
    }

    /// The place of a block of the last frame, if it has bounds. In front of it the function has
    /// set its frame pointer, so that SP is moved for no variables.
    fn block_place(
        &self,
        at: &NotedInstruction<'_>,
        frame: &CalledFrame,
        start: u64,
        size: u64,
    ) -> Option<NamedPlace> {
        let frame_pointer = plain(at.frame_pointer);
        let is_set = plain(at.sp) <= frame_pointer && frame_pointer < frame.sp;
        let is_exact = !self.running(at, frame)?.function.is_optimized;
        let has_size = size > 0 && size <= LARGEST;
        if !is_set || !is_exact || !has_size || !has_room(frame, &self.table, MOST) {
            return None;
        }
        let (end, whole) = (
            start.saturating_add(size),
            self.frame_place(at, frame, start),
        );
        Some(NamedPlace {
            text: PlaceText {
                kind: PlaceKind::Block,
                start,
                end,
                name: VariableName::NONE,
                declaration: None,
                function: Some(at.pc),
            },
            limit: end,
            is_exact,
            ..whole
        })
    }
}
