//! The rules of loads and stores for pointers.

use crate::shadow::Shadow;
use a64_access::{AccessForm, AccessKind, LoadExtension};
use a64_bits::plain;
use a64_registers::Regs;
use shadow_memory::{AccessedBytes, Provenance, RegisterAccess, Step};
use std::alloc::AllocError;

/// How many bytes a pointer has.
const POINTER_SIZE: u64 = 8;

impl Shadow {
    /// Notes a load or a store; whether the instruction is one. A base register that is written
    /// back points where it did.
    pub(crate) fn note_access(&mut self, step: &Step<'_>) -> Result<bool, AllocError> {
        let Some(form) = &step.form else {
            return Ok(false);
        };
        match &step.access {
            Some(access) if access.bytes.is_write => self.note_store(access)?,
            Some(access) => self.note_load(step, access),
            None => self.note_zeros(form, step.before),
        }
        Ok(true)
    }

    /// Notes a store of one register or two.
    fn note_store(&mut self, access: &RegisterAccess) -> Result<(), AllocError> {
        self.store(access.bytes, access.first)?;
        match access.second {
            Some(second) => self.store(access.bytes.next(), second),
            None => Ok(()),
        }
    }

    /// Notes a store of a register.
    fn store(&mut self, bytes: AccessedBytes, register: u8) -> Result<(), AllocError> {
        let value = self.register(register);
        let count = small_count(bytes.count);
        self.memory.store(plain(bytes.addr), count, value)
    }

    /// Notes a load of one register or two.
    fn note_load(&mut self, step: &Step<'_>, access: &RegisterAccess) {
        let first = self.loaded(step, access.first, access.bytes);
        let second = match access.second {
            Some(register) => self.loaded(step, register, access.bytes.next()),
            None => Provenance::NONE,
        };
        self.set(access.first, first, step.after);
        if let Some(register) = access.second {
            self.set(register, second, step.after);
        }
    }

    /// The origin of the bytes that a register was loaded with. A whole word of which nothing is
    /// known is a pointer again where its value is one.
    fn loaded(&self, step: &Step<'_>, register: u8, bytes: AccessedBytes) -> Provenance {
        let found = self
            .memory
            .load(plain(bytes.addr), small_count(bytes.count));
        if bytes.count == POINTER_SIZE {
            if found.pointer().is_known() {
                return found;
            }
            let number = step
                .after
                .x
                .get(usize::from(register))
                .copied()
                .unwrap_or(0);
            return Provenance::whole(self.by_value(number));
        }
        if is_signed(step) {
            Provenance::NONE
        } else {
            found
        }
    }

    /// Notes the zeros that are stored with tags.
    fn note_zeros(&mut self, form: &AccessForm, regs: &Regs) {
        if matches!(form.kind, AccessKind::StoreZeros) {
            self.memory.clear(plain(form.addr(regs)), form.len());
        }
    }
}

/// A number of bytes that a register may have.
fn small_count(count: u64) -> u8 {
    count.min(POINTER_SIZE) as u8
}

/// Whether a load extends the sign of what it loads.
fn is_signed(step: &Step<'_>) -> bool {
    step.form
        .is_some_and(|form| !matches!(form.extension, LoadExtension::Zero))
}
