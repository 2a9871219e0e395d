//! The access of a load, a store or a service.

use a64_access::AccessForm;
use a64_registers::Regs;

/// The bytes that an instruction loads or stores.
#[derive(Clone, Copy, PartialEq, Eq)]
pub struct RegisterAccess {
    /// The bytes of the first register.
    pub bytes: AccessedBytes,
    /// The register that is loaded or stored, 31 for none.
    pub first: u8,
    /// The second of a pair, whose bytes follow.
    pub second: Option<u8>,
}

impl RegisterAccess {
    /// The access of an instruction of a form, by the registers before it; `None` where that is
    /// tags, or zeros with tags.
    pub fn of(form: &AccessForm, regs: &Regs) -> Option<RegisterAccess> {
        if !form.is_of_registers() {
            return None;
        }
        Some(RegisterAccess {
            bytes: AccessedBytes {
                addr: form.addr(regs),
                count: u64::from(form.bytes),
                is_write: form.is_write(),
                is_register: true,
            },
            first: form.first,
            second: form.second,
        })
    }
}

/// Bytes that are accessed.
#[derive(Clone, Copy, PartialEq, Eq)]
pub struct AccessedBytes {
    /// The address of the first, with the pointer's tag.
    pub addr: u64,
    /// How many there are; 0 for a free.
    pub count: u64,
    /// Whether they are written.
    pub is_write: bool,
    /// Whether they are those of a register, of which some may be read for nothing.
    pub is_register: bool,
}

impl AccessedBytes {
    /// As many bytes after them.
    pub fn next(self) -> AccessedBytes {
        AccessedBytes {
            addr: self.addr.wrapping_add(self.count),
            ..self
        }
    }
}
