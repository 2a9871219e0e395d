//! The bytes that an attempted instruction accessed.

use a64_access::{AccessForm, AccessKind};
use a64_decode::decode;
use a64_instr::Instr;
use a64_registers::Regs;
use mte_svc::{READ, WRITE};

/// The bytes that an instruction or a service accesses.
#[derive(Clone, Copy)]
pub struct Span {
    /// The address of the first, with the pointer's tag.
    pub addr: u64,
    /// How many there are.
    pub bytes: u64,
    /// Whether they are written.
    pub is_write: bool,
}

/// The bytes that the instruction of a word or the service that it requested accessed, by the
/// registers before and after it. A service's result says how many bytes it took.
pub fn span_of(word: u32, before: &Regs, after: &Regs) -> Option<Span> {
    let instr = decode(word)?;
    if let Instr::Svc = instr {
        return span_of_service(before, after);
    }
    let form = AccessForm::of(&instr)?;
    if matches!(form.kind, AccessKind::LoadTag | AccessKind::StoreTags) {
        return None;
    }
    Some(Span {
        addr: form.addr(before),
        bytes: form.len(),
        is_write: form.is_write(),
    })
}

/// The bytes that a service accessed which reads or writes for the tenant.
fn span_of_service(before: &Regs, after: &Regs) -> Option<Span> {
    let service = before.x[8];
    if service != WRITE && service != READ {
        return None;
    }
    Some(Span {
        addr: before.x[0],
        bytes: after.x[0],
        is_write: service == READ,
    })
}
