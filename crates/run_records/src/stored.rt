//! The value that a store leaves in memory.

use a64_access::{AccessForm, AccessKind, StoredTags};
use a64_instr::Instr;
use a64_registers::Regs;
use std::fmt;

/// The value that a store leaves in memory.
#[derive(Clone, Copy)]
pub(crate) enum Stored {
    /// Bytes of registers at an address.
    Registers {
        addr: u64,
        /// How many of each register.
        bytes: u8,
        first: u64,
        /// The second register of a pair.
        second: Option<u64>,
    },
    /// Tags.
    Tags(StoredTags),
}

/// The value that the instruction stores, by the registers before it. `None` where it stores
/// nothing.
pub(crate) fn store_of(instr: &Instr, regs: &Regs) -> Option<Stored> {
    let form = AccessForm::of(instr)?;
    match form.kind {
        AccessKind::Load | AccessKind::LoadTag => None,
        AccessKind::Store | AccessKind::StorePairWithTag => Some(Stored::Registers {
            addr: form.addr(regs),
            bytes: form.bytes,
            first: low_bytes(regs.get(form.first % 32), form.bytes),
            second: form
                .second
                .map(|register| low_bytes(regs.get(register % 32), form.bytes)),
        }),
        AccessKind::StoreTags | AccessKind::StoreZeros => {
            form.stored_tags(regs).map(|tags| Stored::Tags(tags))
        }
    }
}

/// The lowest bytes of a number.
fn low_bytes(value: u64, bytes: u8) -> u64 {
    match bytes {
        1 => value % 256,
        2 => value % 65_536,
        4 => value % 4_294_967_296,
        _ => value,
    }
}

impl fmt::Display for Stored {
    fn fmt<W: fmt::Write>(&self, f: &mut fmt::Formatter<W>) -> fmt::Result {
        match self {
            Stored::Registers {
                addr,
                bytes,
                first,
                second,
            } => match second {
                Some(second) => {
                    write!(f, "[{addr:#x}] = {first:#x}, {second:#x} of {bytes} each")
                }
                None => write!(f, "[{addr:#x}] = {first:#x} of {bytes}"),
            },
            Stored::Tags(
                StoredTags {
                    addr,
                    granules,
                    tag,
                },
            ) => write!(f, "tag of {granules} granules from {addr:#x} = {tag:#x}"),
        }
    }
}
