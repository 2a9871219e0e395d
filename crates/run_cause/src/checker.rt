//! Whether a tenant uses each pointer as the pointer's own chunk or variable allows, frees each
//! chunk by a function that is for it, and lets nothing depend on what was never given a value.

ghost use Rattle.std.specs.Prelude.{◌≡◌};

use crate::exact::{Finding, ForbiddenAccess};
use crate::quick_check::FollowedInstruction;
use crate::terms::{CheckTerms, Silence};
use crate::violation::Violation;
use a64_access::AccessForm;
use a64_bits::plain;
use a64_decode::decode;
use a64_instr::Instr;
use a64_registers::Regs;
use heap_bounds::{Span, freed_by, made_by};
use mte_backtrace::Callers;
use mte_svc::{
    AnsweredCall, CALLOC, EXIT, FREE, MALLOC, MEMALIGN, READ, REALLOC, TenantParts, USABLE_SIZE,
    WRITE,
};
use mte_tags::Tagged;
use named_places::{NamedPlaces, PlaceMisuse};
use pointer_provenance::{ArgumentFault, ChunkChange, Misuse, Shadow, TracedChunk};
use run_records::{Moment, SVC};
use run_terms::CheckKinds;
use scudo_heap::HeapCall;
use shadow_memory::{
    AccessedBytes, CalledFunction, ClientRequest, Full, HeapFunctionWatch, RegisterAccess, Step,
};
use std::alloc::{AllocError, Global};
use undefined_bits::{ArithmeticFault, ServiceArguments, UndefinedBits, UndefinedUse};

/// Watches a tenant up to the first thing that it may not do, of the kinds that are checked.
pub struct Checker<'a> {
    alloc: Global,
    terms: CheckTerms<'a>,
    pub(crate) kinds: CheckKinds,
    pub(crate) shadow: Shadow,
    pub(crate) functions: HeapFunctionWatch,
    /// The variables, where their bounds are checked.
    pub(crate) places: Option<NamedPlaces>,
    /// The undefined bits, where they or lost chunks are checked.
    pub(crate) bits: Option<UndefinedBits>,
    pub(crate) followed: FollowedInstruction,
    /// The suppressed findings, where there are some.
    silence: Option<Silence<'a>>,
    finding: Option<Finding>,
    /// What was found of the last attempt, where the run goes on after it.
    passed: Option<Finding>,
    /// How many findings were suppressed.
    hidden: u64,
    full: Option<Full>,
}

impl<'a> Drop for Checker<'a> {
    fn drop(self) {
        let Checker {
            alloc: _,
            terms: _,
            kinds: _,
            shadow: _,
            functions: _,
            places: _,
            bits: _,
            followed: _,
            silence: _,
            finding: _,
            passed: _,
            hidden: _,
            full: _,
        } = self;
    }
}

/// An instruction that was attempted.
#[derive(Clone, Copy)]
pub(crate) struct Attempt<'s> {
    step: Step<'s>,
    /// Whether the tenant went on after it.
    is_completed: bool,
    /// The service that it requested, if it is an SVC.
    service: Option<RequestedService<'s>>,
}

/// A service that was requested.
#[derive(Clone, Copy)]
struct RequestedService<'s> {
    /// The bytes that it reads or writes for the tenant.
    bytes: Option<AccessedBytes>,
    /// The heap call that it was, with its number.
    call: Option<(&'s AnsweredCall, u64)>,
}

impl<'s> Attempt<'s> {
    /// An instruction other than SVC that is attempted next and may complete, with the registers
    /// before it.
    pub(crate) fn next(instr: &'s Instr, before: &'s Regs) -> Attempt<'s> {
        let form = AccessForm::of(instr);
        Attempt {
            step: Step {
                instr,
                form,
                access: form.and_then(|form| RegisterAccess::of(&form, before)),
                before,
                after: before,
            },
            is_completed: true,
            service: None,
        }
    }

    /// An instruction with the registers before it, and the tenant after it.
    fn of(
        instr: &'s Instr,
        moment: &'s Moment,
        parts: &'s TenantParts,
        call: Option<&'s AnsweredCall>,
    ) -> Attempt<'s> {
        let (before, after) = (&moment.regs, &parts.regs);
        let is_completed = parts.is_running();
        let service = if moment.word == Some(SVC) {
            let number = parts.history.calls.count();
            Some(RequestedService {
                bytes: bytes_of_service(before, after, is_completed),
                call: call.map(|call| (call, number)),
            })
        } else {
            None
        };
        let form = AccessForm::of(instr);
        Attempt {
            step: Step {
                instr,
                form,
                access: form.and_then(|form| RegisterAccess::of(&form, before)),
                before,
                after,
            },
            is_completed,
            service,
        }
    }
}

impl<'a> Checker<'a> {
    /// Watches a tenant from its first instruction on, as terms say.
    pub fn new(alloc: Global, terms: &CheckTerms<'a>) -> Result<Checker<'a>, AllocError> {
        let (image, kinds) = (terms.image, terms.kinds);
        // Words that were never given a value lead to no chunk.
        let bits = if kinds.undefined || kinds.leaks {
            Some(UndefinedBits::new(alloc)?)
        } else {
            None
        };
        let places = if kinds.places {
            Some(NamedPlaces::new(alloc, image)?)
        } else {
            None
        };
        Ok(Checker {
            alloc,
            terms: *terms,
            kinds,
            places,
            silence: Silence::of(alloc, terms)?,
            shadow: Shadow::new(alloc)?,
            functions: HeapFunctionWatch::new(alloc, image)?,
            bits,
            followed: FollowedInstruction::new(alloc)?,
            finding: None,
            passed: None,
            hidden: 0,
            full: None,
        })
    }

    /// Forgets all, as before the first instruction.
    pub fn restart(&mut self) -> Result<(), AllocError> {
        *self = Checker::new(self.alloc, &self.terms)?;
        Ok(())
    }

    /// The kinds that are checked.
    pub fn kinds(&self) -> CheckKinds {
        self.kinds
    }

    /// The first such thing, if there was one.
    pub fn finding(&self) -> Option<&Finding> {
        self.finding.as_ref()
    }

    /// What was found of the last attempt, where the run goes on after it. It is given once.
    pub fn take_passed(&mut self) -> Option<Finding> {
        self.passed.take()
    }

    /// How many findings were suppressed.
    pub fn hidden(&self) -> u64 {
        self.hidden
    }

    /// Why no more could be noted, if that is so.
    pub fn full(&self) -> Option<Full> {
        self.full
    }

    /// The origins of the tenant's pointers.
    pub fn shadow(&self) -> &Shadow {
        &self.shadow
    }

    /// Judges an instruction that was attempted, and notes what it did; `call` is the heap call
    /// that it made.
    pub fn note<M: Tagged>(
        &mut self,
        moment: &Moment,
        parts: &TenantParts,
        call: Option<&AnsweredCall>,
        memory: &mut M,
    )
        ensures memory { M.memory memory.new ≡ M.memory memory.old }
        ensures kept { M.kept memory.old memory.new }
    {
        self.followed.forget();
        if self.finding.is_some() || self.full.is_some() {
            return;
        }
        let instr = match moment.word {
            Some(word) => decode(word),
            None => None,
        };
        let Some(instr) = instr else {
            return;
        };
        let attempt = Attempt::of(&instr, moment, parts, call);
        match self.judge(&attempt) {
            Ok(None) => self.enter(&attempt),
            Ok(Some(violation)) => match confirmed(violation, &moment.regs, memory) {
                Some(violation) => {
                    let callers = Callers::of(memory, &moment.regs);
                    self.conclude(moment.step, &attempt, &violation, callers);
                }
                None => self.enter(&attempt),
            },
            Err(full) => self.full = Some(full),
        }
    }

    /// Ends with what is wrong with an attempt, unless it is one of what is not told.
    fn conclude(
        &mut self,
        step: u64,
        attempt: &Attempt<'_>,
        violation: &Violation,
        callers: Callers,
    ) {
        match self.is_silent(violation, attempt.step.before.pc, &callers) {
            Ok(true) => {
                self.hidden = self.hidden.saturating_add(1);
                self.pass(violation, attempt);
            }
            Ok(false) => {
                let finding = Some(Finding {
                    wrong: forbidden(violation),
                    step,
                    before: *attempt.step.before,
                    after: *attempt.step.after,
                    callers,
                });
                if self.terms.continues {
                    self.passed = finding;
                    self.pass(violation, attempt);
                } else {
                    self.finding = finding;
                }
            }
            Err(_) => self.full = Some(Full::OutOfMemory),
        }
    }

    /// Goes on after what is wrong with an attempt.
    fn pass(&mut self, violation: &Violation, attempt: &Attempt<'_>) {
        self.forget(violation);
        self.enter(attempt);
    }

    /// Whether what is wrong with the instruction at an address is not told.
    fn is_silent(
        &mut self,
        violation: &Violation,
        pc: u64,
        callers: &Callers,
    ) -> Result<bool, AllocError> {
        match &mut self.silence {
            Some(silence) => silence.hides(self.alloc, violation.kind(), pc, callers),
            None => Ok(false),
        }
    }

    /// Lets nothing else be said of undefined bits of which something was not told.
    fn forget(&mut self, violation: &Violation) {
        if let Violation::Undefined(used) = violation {
            if let Some(bits) = &mut self.bits {
                bits.forget(used.origin);
            }
        }
    }

    /// The violation of an attempt, of which nothing is noted yet.
    pub(crate) fn judge(&mut self, attempt: &Attempt<'_>) -> Result<Option<Violation>, Full> {
        if let Some(misuse) = self.misuse_by(attempt)? {
            return Ok(Some(Violation::Provenance(misuse)));
        }
        if let Some(misuse) = self.place_misuse(attempt)? {
            return Ok(Some(Violation::Place(misuse)));
        }
        if self.kinds.arithmetic {
            let step = &attempt.step;
            if let Some(fault) = ArithmeticFault::of(step.instr, step.before) {
                return Ok(Some(Violation::Arithmetic(fault)));
            }
        }
        if let Some(used) = self.undefined_use(attempt) {
            return Ok(Some(Violation::Undefined(used)));
        }
        Ok(
            self.argument_fault(attempt)
                .map(|fault| Violation::Argument(fault)),
        )
    }

    /// What is wrong with the arguments of the function that an attempt calls, or of the service
    /// that makes a chunk, where that is checked; of strings what may be wrong.
    fn argument_fault(&self, attempt: &Attempt<'_>) -> Option<ArgumentFault> {
        if !self.kinds.arguments {
            return None;
        }
        let (instr, before) = (attempt.step.instr, attempt.step.before);
        if attempt.service.is_some() {
            return ArgumentFault::of_size(function_of(before.x[8])?, before);
        }
        let function = self.functions.called_by(instr, before.pc, before)?;
        self.shadow.judge_call(function, before)
    }

    /// The use of undefined bits by an attempt, where that is checked.
    fn undefined_use(&self, attempt: &Attempt<'_>) -> Option<UndefinedUse> {
        let bits = self.bits.as_ref().filter(|_| self.kinds.undefined)?;
        match &attempt.service {
            Some(asked) => {
                let output = asked.bytes.filter(|bytes| !bytes.is_write);
                bits.judge_service(arguments_of(attempt.step.before), output)
            }
            None => bits.judge(&attempt.step),
        }
    }

    /// The misuse of the pointer to a variable by which an attempt accesses memory, or which
    /// it frees, where that is checked.
    fn place_misuse(&mut self, attempt: &Attempt<'_>) -> Result<Option<PlaceMisuse>, Full> {
        let Some(places) = &self.places else {
            return Ok(None);
        };
        let Some(asked) = &attempt.service else {
            let Some(form) = &attempt.step.form else {
                return Ok(None);
            };
            let origin = self.shadow.address_origin(form)?;
            return Ok(places.judge(&attempt.step, origin));
        };
        let (before, origin) = (attempt.step.before, self.shadow.register(0).pointer());
        Ok(match asked.bytes {
            Some(bytes) => places.judge_service(bytes, origin, before.pc),
            None if is_free(before) => places.judge_free(before.x[0], origin),
            None => None,
        })
    }

    /// Notes what an attempt did that completed.
    fn enter(&mut self, attempt: &Attempt<'_>) {
        if !attempt.is_completed {
            return;
        }
        let noted = match &attempt.service {
            Some(asked) => self.note_service(asked, attempt.step.after),
            None => self.note_instruction(&attempt.step),
        };
        if let Err(full) = noted {
            self.full = Some(full);
        }
    }

    /// Notes an instruction other than SVC.
    pub(crate) fn note_instruction(&mut self, step: &Step<'_>) -> Result<(), Full> {
        if let Some(request) = ClientRequest::of(step.instr, step.before) {
            return self.note_request(&request, step.after);
        }
        if let Some(bits) = &mut self.bits {
            bits.note(step)?;
        }
        if let Some(returned) = self.functions.note(step) {
            self.shadow.note_maker(&returned);
        }
        self.shadow.note(step)?;
        match &mut self.places {
            Some(places) => places.note(step, &mut self.shadow),
            None => Ok(()),
        }
    }

    /// Notes what the program says of its own memory. A chunk that gets another size keeps what it
    /// has.
    fn note_request(&mut self, request: &ClientRequest, after: &Regs) -> Result<(), Full> {
        if let Some(bits) = &mut self.bits {
            let kept = self.shadow.own_bytes_at(request.start());
            bits.note_request(request, kept)?;
        }
        self.shadow.note_request(request, after)
    }

    /// The misuse of the pointer by which an attempt accesses memory, or which it frees, where
    /// that is checked.
    fn misuse_by(&mut self, attempt: &Attempt<'_>) -> Result<Option<Misuse>, Full> {
        let is_completed = attempt.is_completed;
        match &attempt.service {
            Some(asked) => Ok(self.misuse_of(asked, attempt)),
            None if self.kinds.provenance => Ok(self.shadow.judge(&attempt.step, is_completed)?),
            None => Ok(None),
        }
    }

    /// The access of a service.
    fn misuse_of(&self, asked: &RequestedService<'_>, attempt: &Attempt<'_>) -> Option<Misuse> {
        let before = attempt.step.before;
        match asked.bytes {
            Some(bytes) if self.kinds.provenance => {
                self.shadow.judge_service(bytes, attempt.is_completed)
            }
            None if self.kinds.frees && is_free(before) => {
                let pointer = before.x[0];
                self.shadow
                    .judge_free(pointer, self.functions.freeing(pointer))
            }
            _ => None,
        }
    }

    /// Notes a service that completed.
    fn note_service(&mut self, asked: &RequestedService<'_>, after: &Regs) -> Result<(), Full> {
        let Some((call, number)) = asked.call else {
            if let Some(bits) = &mut self.bits {
                bits.note_service(asked.bytes.filter(|bytes| bytes.is_write))?;
            }
            self.shadow.note_service(asked.bytes, after);
            return Ok(());
        };
        let change = change_by(call, number);
        let old = change.freed.and_then(|start| self.shadow.live_chunk(start));
        if let Some(bits) = &mut self.bits {
            note_chunk(bits, call, &change, old.as_ref())?;
        }
        self.shadow.note_call(&change, after)
    }
}

/// Notes what a heap call defines and leaves undefined; `old` is the chunk that it frees, or gives
/// another size.
fn note_chunk(
    bits: &mut UndefinedBits,
    call: &AnsweredCall,
    change: &ChunkChange,
    old: Option<&TracedChunk>,
) -> Result<(), Full> {
    bits.note_service(None)?;
    let Some((pointer, size)) = change.made else {
        return Ok(());
    };
    let start = plain(pointer);
    let end = start.saturating_add(size);
    match old {
        Some(old) if old.start() == start && old.end() < end => {
            bits.note_grown(change.number, old.end(), end)
        }
        Some(old) if old.start() == start => Ok(()),
        Some(old) => {
            let kept = size.min(u64::from(old.size));
            bits.note_made(change.number, start, size, false)?;
            bits.note_moved(old.start(), start, kept)?;
            if kept == size {
                return Ok(());
            }
            // What is new names a word that has both.
            bits.note_grown(change.number, start.saturating_add(kept), end)
        }
        None => {
            let is_defined = matches!(call.call, HeapCall::Calloc { .. });
            bits.note_made(change.number, start, size, is_defined)
        }
    }
}

/// The bytes that a service reads or writes for the tenant: as many as its result says, or as were
/// asked for where it did not complete.
fn bytes_of_service(before: &Regs, after: &Regs, is_completed: bool) -> Option<AccessedBytes> {
    let service = before.x[8];
    if service != READ && service != WRITE {
        return None;
    }
    Some(AccessedBytes {
        addr: before.x[0],
        count: if is_completed {
            after.x[0]
        } else {
            before.x[1]
        },
        is_write: service == READ,
        is_register: false,
    })
}

/// Whether a service is to free the pointer in x0, or to give its chunk another size.
fn is_free(before: &Regs) -> bool {
    matches!(before.x[8], FREE | REALLOC) && before.x[0] != 0
}

/// The function of C that a service is for which makes a chunk; its arguments are the same.
fn function_of(service: u64) -> Option<CalledFunction> {
    match service {
        MALLOC => Some(CalledFunction::Malloc),
        CALLOC => Some(CalledFunction::Calloc),
        REALLOC => Some(CalledFunction::Realloc),
        MEMALIGN => Some(CalledFunction::AlignedAlloc),
        _ => None,
    }
}

/// A violation by the registers in front of it, where the strings that are there show that it is
/// one.
fn confirmed<M: Tagged>(violation: Violation, regs: &Regs, memory: &mut M) -> Option<Violation>
    ensures memory { M.memory memory.new ≡ M.memory memory.old }
    ensures kept { M.kept memory.old memory.new }
{
    match violation {
        Violation::Argument(fault) => {
            let fault = fault.confirmed(regs.x[2], memory)?;
            Some(Violation::Argument(fault))
        }
        _ => Some(violation),
    }
}

/// The registers that a service takes.
fn arguments_of(before: &Regs) -> ServiceArguments {
    match before.x[8] {
        EXIT => ServiceArguments::ExitStatus,
        MALLOC | FREE | USABLE_SIZE => ServiceArguments::One,
        WRITE | READ | CALLOC | REALLOC | MEMALIGN => ServiceArguments::Two,
        _ => ServiceArguments::None,
    }
}

/// The effect of a heap call with a number on chunks.
fn change_by(call: &AnsweredCall, number: u64) -> ChunkChange {
    ChunkChange {
        number,
        made: made_by(call).map(|made| (made.pointer, made.size)),
        freed: freed_by(call),
    }
}

/// The violation, as it is reported.
fn forbidden(violation: &Violation) -> ForbiddenAccess {
    if let Violation::Argument(fault) = violation {
        return forbidden_argument(violation, fault);
    }
    let (addr, access) = match violation {
        Violation::Provenance(misuse) => (misuse.addr, Some(&misuse.access)),
        Violation::Undefined(used) => (used.addr.unwrap_or(0), None),
        Violation::Place(misuse) => (misuse.addr, Some(&misuse.access)),
        Violation::Bounds(_) | Violation::Arithmetic(_) | Violation::Argument(_) => (0, None),
    };
    let span = match access {
        Some(access) => Span {
            addr: access.addr,
            bytes: access.count,
            is_write: access.is_write,
        },
        None => Span {
            addr,
            bytes: 0,
            is_write: false,
        },
    };
    ForbiddenAccess {
        violation: *violation,
        addr,
        span,
    }
}

/// The violation by arguments of a call: by what is written, if ranges overlap.
fn forbidden_argument(violation: &Violation, fault: &ArgumentFault) -> ForbiddenAccess {
    ForbiddenAccess {
        violation: *violation,
        addr: fault.written.start,
        span: Span {
            addr: fault.written.start,
            bytes: fault.written.bytes,
            is_write: fault.place().is_some(),
        },
    }
}
