//! The values that a load brings into registers.

use a64_access::{AccessForm, AccessKind};
use a64_instr::Instr;
use a64_registers::Regs;
use std::fmt;

/// The values that a load brings into registers.
#[derive(Clone, Copy)]
pub struct Loaded {
    addr: u64,
    /// How many bytes of each register.
    bytes: u8,
    first: u64,
    /// The second register of a pair.
    second: Option<u64>,
}

/// The values that the instruction loads, by the registers before and after it; `None` where it
/// loads nothing.
pub fn load_of(instr: &Instr, before: &Regs, after: &Regs) -> Option<Loaded> {
    let form = AccessForm::of(instr)?;
    if !matches!(form.kind, AccessKind::Load) {
        return None;
    }
    Some(Loaded {
        addr: form.addr(before),
        bytes: form.bytes,
        first: after.get(form.first % 32),
        second: form.second.map(|register| after.get(register % 32)),
    })
}

impl fmt::Display for Loaded {
    fn fmt<W: fmt::Write>(&self, f: &mut fmt::Formatter<W>) -> fmt::Result {
        let Loaded {
            addr,
            bytes,
            first,
            ..
        } = self;
        match &self.second {
            Some(second) => {
                write!(
                    f,
                    "from [{addr:#x}] {first:#x}, {second:#x} of {bytes} each"
                )
            }
            None => write!(f, "from [{addr:#x}] {first:#x} of {bytes}"),
        }
    }
}
