//! Whether a tenant's accesses keep to the bytes of its chunks, whatever the tags.

ghost use Rattle.std.specs.Prelude.{◌≡◌};

use crate::violation::Violation;
use a64_registers::Regs;
use heap_bounds::{Bounds, NearBounds, Span, span_of};
use mte_backtrace::Callers;
use mte_svc::{AnsweredCall, TenantParts};
use mte_tags::Tagged;
use run_records::Moment;
use std::alloc::Global;

/// An access to bytes of the heap that no live chunk has, or that its pointer's own chunk has not.
#[derive(Clone, Copy)]
pub struct ForbiddenAccess {
    /// The violation there.
    pub violation: Violation,
    /// The plain address of the first such byte.
    pub addr: u64,
    /// The access.
    pub span: Span,
}

impl ForbiddenAccess {
    /// The plain address that it is about; `None` where it is about no memory.
    pub fn place(&self) -> Option<u64> {
        match &self.violation {
            Violation::Undefined(used) => used.addr,
            Violation::Argument(fault) => fault.place(),
            Violation::Arithmetic(_) => None,
            _ => Some(self.addr),
        }
    }
}

/// An instruction that completed with such an access.
#[derive(Clone, Copy)]
pub struct Finding {
    /// The access.
    pub wrong: ForbiddenAccess,
    /// The number of the instruction, from 1.
    pub step: u64,
    /// The registers before it.
    pub before: Regs,
    /// The registers after it.
    pub after: Regs,
    /// The calls that led to it.
    pub callers: Callers,
}

/// Watches a tenant up to the first such access.
#[derive(Drop)]
pub struct Exact {
    bounds: NearBounds,
    writes_alone: bool,
    finding: Option<Finding>,
    is_complete: bool,
}

impl Exact {
    /// Watches a tenant without chunks; its reads are free where `writes_alone` is set.
    pub fn new(alloc: Global, writes_alone: bool) -> Exact {
        Exact {
            bounds: NearBounds::new(Bounds::new(alloc)),
            writes_alone,
            finding: None,
            is_complete: true,
        }
    }

    /// Forgets all, as before the first instruction.
    pub fn restart(&mut self, alloc: Global) {
        self.bounds = NearBounds::new(Bounds::new(alloc));
        self.finding = None;
        self.is_complete = true;
    }

    /// Whether an access that an instruction completed may be one that it may not make. It is no
    /// such access where this says no.
    #[inline(always)]
    pub fn is_suspicious(&mut self, address: u64, bytes: u64, is_write: bool) -> bool {
        self.bounds.may_trespass(address, bytes)
            && self.is_complete
            && (is_write || !self.writes_alone)
    }

    /// The first such access, if there was one.
    pub fn finding(&self) -> Option<&Finding> {
        self.finding.as_ref()
    }

    /// Whether each chunk could be entered. Where one could not, nothing is judged from there on.
    pub fn is_complete(&self) -> bool {
        self.is_complete
    }

    /// Enters the heap call that an instruction made, or judges what it accessed.
    pub fn note<M: Tagged>(
        &mut self,
        moment: &Moment,
        parts: &TenantParts,
        call: Option<&AnsweredCall>,
        memory: &mut M,
    )
        ensures memory { M.memory memory.new ≡ M.memory memory.old }
        ensures kept { M.kept memory.old memory.new }
    {
        match call {
            Some(call) => self.enter(call),
            None => {
                if let Some(wrong) = self.check(moment, parts) {
                    let callers = Callers::of(memory, &moment.regs);
                    self.finding = Some(Finding {
                        wrong,
                        step: moment.step,
                        before: moment.regs,
                        after: parts.regs,
                        callers,
                    });
                }
            }
        }
    }

    /// The access that an instruction completed and may not make.
    fn check(&self, moment: &Moment, parts: &TenantParts) -> Option<ForbiddenAccess> {
        if !self.is_complete || self.finding.is_some() || !parts.is_running() {
            return None;
        }
        let span = span_of(moment.word?, &moment.regs, &parts.regs)?;
        if self.writes_alone && !span.is_write {
            return None;
        }
        let (addr, trespass) = self.bounds.check(span.addr, span.bytes)?;
        Some(ForbiddenAccess {
            violation: Violation::Bounds(trespass),
            addr,
            span,
        })
    }

    /// Enters what a heap call did to chunks.
    fn enter(&mut self, call: &AnsweredCall) {
        if self.bounds.note(call).is_err() {
            self.is_complete = false;
        }
    }
}
