//! Rules for instructions whose use of registers was worked out once. Most accesses are of bytes of
//! a live place, and most instructions on registers change marks alone.

use crate::notes::{AddedConstant, NotedInstruction, is_rounding};
use crate::places::NamedPlaces;
use a64_bits::plain;
use a64_instr::Instr;
use a64_registers::Regs;
use pointer_provenance::Shadow;
use shadow_memory::{InstructionClass, PointerOrigin, RegisterUse, ValueSource};
use std::alloc::AllocError;

/// What is added to a register in front of rounding a size.
const ROUNDING: i32 = 15;

impl NamedPlaces {
    /// The use of registers by an instruction, which is looked at also where it may be the first of
    /// those that round a size.
    pub fn looked(instr: &Instr, used: RegisterUse) -> RegisterUse {
        if !is_rounding(instr) {
            return used;
        }
        RegisterUse {
            traced: used.traced | RegisterUse::LOOK,
            offset: ROUNDING,
            ..used
        }
    }

    /// Whether a load or a store by a pointer, at an address with its tag, is no misuse. It may be
    /// none where this says no.
    #[inline(always)]
    pub fn allows(&self, used: &RegisterUse, origin: PointerOrigin, addr: u64, pc: u64) -> bool {
        match origin.place() {
            Some(index) => self.allows_at(index, plain(addr), used.len(), pc),
            None => true,
        }
    }

    /// Whether an access to bytes from a plain address on by a pointer to a place is no misuse.
    #[inline(always)]
    fn allows_at(&self, index: usize, addr: u64, bytes: u64, pc: u64) -> bool {
        let Some(place) = self.table.get(index) else {
            return true;
        };
        let text = &place.text;
        let is_within = text.start <= addr && addr.saturating_add(bytes) <= place.limit;
        place.is_live && (is_within || !place.has_bounds()) && self.has_block(place, pc)
    }

    /// Notes an instruction on registers that leaves no pointer where it writes.
    #[inline(always)]
    pub fn note_unknown(&mut self, used: &RegisterUse) {
        match used.source {
            ValueSource::Copy => self.marks.copy(used.first, used.one),
            ValueSource::Sum | ValueSource::Mixture => {
                self.marks.combine(used.first, used.one, used.other)
            }
            _ => {}
        }
    }

    /// Notes an instruction on registers, which was noted of the pointers.
    #[inline(always)]
    pub fn note_value(
        &mut self,
        used: &RegisterUse,
        at: &NotedInstruction<'_>,
        shadow: &mut Shadow,
    ) -> Result<(), AllocError> {
        match used.source {
            ValueSource::Constant | ValueSource::HighConstant => {
                let added = AddedConstant {
                    rn: used.one,
                    rd: used.first,
                    is_high: used.source == ValueSource::HighConstant,
                    is_rounding: used.offset == ROUNDING,
                };
                self.note_constant(at, shadow, added)
            }
            ValueSource::Sum => {
                self.marks.combine(used.first, used.one, used.other);
                self.note_sum(at, shadow, used.first)
            }
            _ => {
                self.note_unknown(used);
                Ok(())
            }
        }
    }

    /// Notes an address that was made of PC.
    pub fn note_made(&mut self, used: &RegisterUse, after: &Regs, shadow: &mut Shadow) {
        let is_page = used.source == ValueSource::Page;
        self.note_address(shadow, is_page, used.first, after);
    }

    /// Notes a load or a store at an address, which was noted of the pointers.
    #[inline(always)]
    pub fn note_followed_access(
        &mut self,
        used: &RegisterUse,
        at: &NotedInstruction<'_>,
        shadow: &mut Shadow,
        addr: u64,
    ) -> Result<(), AllocError> {
        if used.source != ValueSource::Other && used.base < 31 {
            let is_pre_indexed = used.source == ValueSource::PreIndexed;
            self.note_write_back(at, shadow, used.base, is_pre_indexed)?;
        }
        if used.class == InstructionClass::Load {
            self.marks.load(used.first, used.base);
            self.note_source(at, shadow, used.first, addr);
            if used.is_pair() {
                let next = addr.wrapping_add(u64::from(used.bytes));
                self.marks.load(used.second, used.base);
                self.note_source(at, shadow, used.second, next);
            }
        }
        Ok(())
    }
}
