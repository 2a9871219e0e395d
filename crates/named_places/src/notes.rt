//! The rules of instructions for pointers to variables.

use crate::access_form::form_by_base;
use crate::marks::{FRESH, MOVED, OWN};
use crate::place::PlaceKind;
use crate::places::NamedPlaces;
use crate::table::PAGE;
use a64_access::AddressingMode;
use a64_bits::plain;
use a64_instr::Instr;
use a64_registers::Regs;
use pointer_provenance::Shadow;
use shadow_memory::{Full, PointerOrigin, Step};
use std::alloc::AllocError;

/// The frame pointer.
pub(crate) const FRAME_POINTER: u8 = 29;

/// SP, where it is the register of an address.
pub(crate) const STACK_POINTER: u8 = 31;

/// An instruction that completed, by what places depend on.
#[derive(Clone, Copy)]
pub struct NotedInstruction<'a> {
    /// Its address.
    pub pc: u64,
    /// x29 before it.
    pub frame_pointer: u64,
    /// SP before it.
    pub sp: u64,
    /// The registers after it.
    pub after: &'a Regs,
}

impl<'a> NotedInstruction<'a> {
    /// That of a step.
    pub(crate) fn of(step: &Step<'a>) -> NotedInstruction<'a> {
        NotedInstruction {
            pc: step.before.pc,
            frame_pointer: step.before.x[29],
            sp: step.before.sp,
            after: step.after,
        }
    }
}

/// A constant that is added to a register, or subtracted from it.
#[derive(Clone, Copy)]
pub(crate) struct AddedConstant {
    pub(crate) rn: u8,
    pub(crate) rd: u8,
    /// Whether it is the first of two, with the higher bits.
    pub(crate) is_high: bool,
    /// Whether it is 15, as in front of rounding down.
    pub(crate) is_rounding: bool,
}

impl NamedPlaces {
    /// Notes an instruction that completed, other than SVC, which was noted of the pointers.
    pub fn note(&mut self, step: &Step<'_>, shadow: &mut Shadow) -> Result<(), Full> {
        let at = &NotedInstruction::of(step);
        self.note_sp(at);
        match *step.instr {
            Instr::Branch { op: 1, .. } | Instr::BranchReg { opc: 1, .. } => {
                self.note_call(step.after)?
            }
            Instr::BranchReg { opc: 2, .. } => self.note_return(step.after),
            Instr::AddSubImm { s: 1, rd: 31, .. } => {}
            Instr::AddSubImm {
                sf: 1,
                sh,
                rn,
                rd,
                ..
            } => {
                let added = AddedConstant {
                    rn,
                    rd,
                    is_high: sh == 1,
                    is_rounding: is_rounding(step.instr),
                };
                self.note_constant(at, shadow, added)?;
            }
            Instr::AddG { rn, rd, .. } => {
                let added = AddedConstant {
                    rn,
                    rd,
                    is_high: false,
                    is_rounding: false,
                };
                self.note_constant(at, shadow, added)?;
            }
            Instr::Adr { op, rd, .. } => self.note_address(shadow, op == 1, rd, step.after),
            _ => self.note_other(step, at, shadow)?,
        }
        Ok(())
    }

    /// Notes where SP is, if it is higher than before.
    #[inline(always)]
    pub fn note_sp(&mut self, at: &NotedInstruction<'_>) {
        if plain(at.sp) < plain(at.after.sp) {
            self.frames.leave_below(plain(at.after.sp));
        }
    }

    /// Notes a call, by the registers after it.
    pub fn note_call(&mut self, after: &Regs) -> Result<(), AllocError> {
        let (marks, is_cleanup) = (self.marks, self.is_cleanup(after));
        let (back, sp, entry) = (plain(after.x[30]), plain(after.sp), plain(after.pc));
        self.marks.call();
        self.frames.call(back, sp, entry, is_cleanup, marks)
    }

    /// Notes a return.
    pub fn note_return(&mut self, after: &Regs) {
        let caller = self
            .frames
            .return_to(plain(after.pc), plain(after.sp), &mut self.table);
        self.marks.return_back(&caller);
    }

    /// Notes an address that was made of the counter: of a page, or of what is there.
    pub(crate) fn note_address(
        &mut self,
        shadow: &mut Shadow,
        is_page: bool,
        rd: u8,
        after: &Regs,
    ) {
        let origin = if is_page {
            PointerOrigin::of_place(PAGE)
        } else {
            self.object_origin(plain(value_in(after, rd)))
        };
        self.marks.make(rd);
        shadow.point(rd, origin);
    }

    /// Notes that a constant was added to a register.
    pub(crate) fn note_constant(
        &mut self,
        at: &NotedInstruction<'_>,
        shadow: &mut Shadow,
        added: AddedConstant,
    ) -> Result<(), AllocError> {
        let AddedConstant { rn, rd, .. } = added;
        if rd == STACK_POINTER {
            self.note_stack(at, shadow, rn);
            return Ok(());
        }
        let origin = shadow.register(rd).pointer();
        let addr = plain(value_in(at.after, rd));
        if added.is_rounding {
            self.blocks.rounding = at.pc;
            self.blocks.sum = value_in(at.after, rd);
        }
        if origin == PointerOrigin::STACK {
            if rd != FRAME_POINTER && !added.is_high {
                self.marks.make(rd);
                let block = if rn == STACK_POINTER {
                    self.lowered_origin(at, shadow, addr)?
                } else {
                    None
                };
                let origin = match block {
                    Some(origin) => origin,
                    None => self.stack_origin(at, shadow, addr)?,
                };
                shadow.point(rd, origin);
            }
            return Ok(());
        }
        match origin.place() {
            None => {}
            Some(PAGE) => {
                self.marks.make(rd);
                shadow.point(rd, self.object_origin(addr));
            }
            Some(_) if self.leads_below(at, origin, addr) => self.note_below(at, shadow, rd, addr)?,
            Some(index) if rn == rd => self.note_move(at, shadow, added, index)?,
            Some(index) => {
                self.marks.copy(rd, rn);
                if !self.marks.has(rn, MOVED) {
                    self.note_other_variable(at, shadow, rd, index)?;
                }
            }
        }
        Ok(())
    }

    /// Notes that a constant was added to a register in place: a pointer that the function made may
    /// lead to another variable, as one that several have in common; any other is moved over its
    /// own. Of two constants in a row the first may not lead out of it yet.
    fn note_move(
        &mut self,
        at: &NotedInstruction<'_>,
        shadow: &mut Shadow,
        added: AddedConstant,
        index: usize,
    ) -> Result<(), AllocError> {
        let rd = added.rd;
        let is_made = self.marks.has(rd, OWN) && !self.marks.has(rd, MOVED);
        if is_made {
            self.note_other_variable(at, shadow, rd, index)?;
        }
        let is_same = shadow.register(rd).pointer().place() == Some(index);
        if is_same && !(is_made && added.is_high) {
            self.marks.moves(rd);
        }
        Ok(())
    }

    /// Notes that SP was made of a register by a constant, or of itself, where it may have been
    /// left for another stack: not where the register was made of SP by the function that runs. Of
    /// the frames there nothing is known.
    fn note_stack(&mut self, at: &NotedInstruction<'_>, shadow: &Shadow, rn: u8) {
        if rn == STACK_POINTER || rn == FRAME_POINTER {
            return;
        }
        let index = shadow.register(rn).pointer().place();
        if let Some(index) = index {
            self.table.open_block(index, plain(at.after.sp));
        }
        if self.marks.has(rn, FRESH) {
            return;
        }
        let is_own = match index {
            Some(index) => self.is_of_top(index),
            None => false,
        };
        if !is_own {
            self.frames.clear();
        }
    }

    /// Notes that a constant led from a pointer to a place into a register. Compilers that optimize
    /// go from one variable to another so; what is at a variable's end may be meant for that too.
    fn note_other_variable(
        &mut self,
        at: &NotedInstruction<'_>,
        shadow: &mut Shadow,
        rd: u8,
        index: usize,
    ) -> Result<(), AllocError> {
        let addr = plain(value_in(at.after, rd));
        let Some(place) = self.table.get(index) else {
            return Ok(());
        };
        let (text, is_whole) = (place.text, place.has(addr));
        let is_own = self.may_be_of_top(at, index);
        if self.is_exact_at(at.pc) {
            return Ok(());
        }
        let origin = match text.kind {
            PlaceKind::Object if addr == text.end => match self.objects.number_at(addr) {
                Some(_) => PointerOrigin::UNKNOWN,
                None => return Ok(()),
            },
            PlaceKind::Object if !is_whole => self.object_origin(addr),
            PlaceKind::Variable if is_own && !is_whole => {
                let origin = self.stack_origin(at, shadow, addr)?;
                if addr == text.end {
                    PointerOrigin::STACK
                } else {
                    origin
                }
            }
            PlaceKind::Frame if is_own => self.stack_origin(at, shadow, addr)?,
            _ => return Ok(()),
        };
        shadow.point(rd, origin);
        Ok(())
    }

    /// Whether a place is one of the frame of the function that runs.
    pub(crate) fn is_of_top(&self, index: usize) -> bool {
        let mut next = self.frames.top().and_then(|frame| frame.first);
        for _ in 0..=u8::MAX {
            let Some(at) = next else {
                return false;
            };
            if at == index {
                return true;
            }
            next = self.table.get(at).and_then(|place| place.next);
        }
        false
    }

    /// Notes another instruction.
    fn note_other(
        &mut self,
        step: &Step<'_>,
        at: &NotedInstruction<'_>,
        shadow: &mut Shadow,
    ) -> Result<(), AllocError> {
        if step.access.is_some() {
            return self.note_access(step, at, shadow);
        }
        match *step.instr {
            Instr::LogShift {
                sf: 1,
                opc: 1,
                n: 0,
                imm6: 0,
                rm,
                rn: 31,
                rd,
                ..
            } => self.marks.copy(rd, rm),
            Instr::AddSubExt {
                sf: 1,
                op: 1,
                rn: 31,
                rd: 31,
                ..
            } => self.note_lowering(at),
            Instr::AddSubShift { rn, rm, rd, .. } | Instr::AddSubExt { rn, rm, rd, .. } => {
                self.marks.combine(rd, rn, rm);
                self.note_sum(at, shadow, rd)?;
            }
            Instr::Bitfield { immr, rn, rd, .. } => {
                self.marks.combine(rd, rn, rn);
                self.note_shift(at, shadow, rd, immr);
            }
            Instr::LogShift { rn, rm, rd, .. }
            | Instr::CondSel { rn, rm, rd, .. }
            | Instr::SubP { rn, rm, rd, .. } => self.marks.combine(rd, rn, rm),
            Instr::LogImm { rn, rd, .. } | Instr::Irg { rn, rd, .. } => self
                .marks
                .combine(rd, rn, rn),
            Instr::MulAdd { ra, rd, .. } | Instr::MulAddLong { ra, rd, .. } => {
                self.marks.combine(rd, ra, ra)
            }
            _ => {}
        }
        Ok(())
    }

    /// Notes a sum of two registers: what is made of SP is a pointer into the frame, or to a block
    /// below it, and what is made of a page is not known.
    pub(crate) fn note_sum(
        &mut self,
        at: &NotedInstruction<'_>,
        shadow: &mut Shadow,
        rd: u8,
    ) -> Result<(), AllocError> {
        let origin = shadow.register(rd).pointer();
        let addr = plain(value_in(at.after, rd));
        if origin.place() == Some(PAGE) {
            shadow.point(rd, PointerOrigin::UNKNOWN);
        } else if self.leads_below(at, origin, addr) {
            self.note_below(at, shadow, rd, addr)?;
        } else if origin == PointerOrigin::STACK && rd != FRAME_POINTER {
            shadow.point(rd, self.frame_origin(at, shadow, addr)?);
        }
        Ok(())
    }

    /// Notes a load or a store.
    fn note_access(
        &mut self,
        step: &Step<'_>,
        at: &NotedInstruction<'_>,
        shadow: &mut Shadow,
    ) -> Result<(), AllocError> {
        let Some(form) = form_by_base(step) else {
            return Ok(());
        };
        if form.writes_back() && form.base < 31 {
            let is_pre_indexed = matches!(form.mode, AddressingMode::PreIndexed(_));
            self.note_write_back(at, shadow, form.base, is_pre_indexed)?;
        }
        if !form.is_write() {
            let addr = form.addr(step.before);
            self.marks.load(form.first, form.base);
            self.note_source(at, shadow, form.first, addr);
            if let Some(second) = form.second {
                self.marks.load(second, form.base);
                self.note_source(at, shadow, second, addr.wrapping_add(u64::from(form.bytes)));
            }
        }
        Ok(())
    }

    /// Notes that a base register was moved. The first move in front of an access leads to the
    /// variable that is accessed.
    pub(crate) fn note_write_back(
        &mut self,
        at: &NotedInstruction<'_>,
        shadow: &mut Shadow,
        base: u8,
        is_pre_indexed: bool,
    ) -> Result<(), AllocError> {
        let is_first = is_pre_indexed && !self.marks.has(base, MOVED);
        if let Some(index) = shadow.register(base).pointer().place() {
            if is_first && index != PAGE {
                self.note_other_variable(at, shadow, base, index)?;
            }
        }
        self.marks.moves(base);
        Ok(())
    }
}

/// Whether an instruction adds 15 to a register, as in front of rounding a size.
pub(crate) fn is_rounding(instr: &Instr) -> bool {
    match *instr {
        Instr::AddSubImm {
            sf: 1,
            op: 0,
            s: 0,
            sh: 0,
            imm12: 15,
            rd,
            ..
        } => rd != STACK_POINTER,
        _ => false,
    }
}

/// The value of a numbered register, 0 for 31.
pub(crate) fn value_in(regs: &Regs, n: u8) -> u64 {
    regs.x.get(usize::from(n)).copied().unwrap_or(0)
}
